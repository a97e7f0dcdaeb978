ghost use Rattle.std.specs.Prelude.{◌≡◌, ◌+◌, ◌-◌, ◌*◌, ◌<◌, ◌≤◌, [], None, All, length};
ghost use Rattle.dfi_base.specs.Names.{depth_of};
ghost use Rattle.guest_log.specs.declared.stamped.Stamped.{Stamped};
ghost use Rattle.guest_log.specs.Tickets.{IsUnion};
ghost use Rattle.stripe_rule.specs.Kids.{Has};
ghost use Rattle.stripe_rule.specs.Views.{parent, child, joined};
ghost use Rattle.stripe_table.specs.Passes.{knows, IsPassOf, IsSame};

use crate::memory::SharedMem;
use crate::pass::Pass;
use guest_log::Log;
use std::marker::Brand;

impl<'m> SharedMem<'m> {
    /// Makes the pass of branch `i`.
    pub fn split(&self, pass: &mut Pass, i: u32) -> Pass
        requires pass { IsPassOf self.now pass.old }
        requires branch { (1 ≤ i) × (i ≤ 15) × ¬ (Has (16 * pass.old.name + i) (knows pass.old).kids) }
        requires shallow { depth_of pass.old.name < 14 }
        requires free { pass.old.held ≡ None }
        ensures same { IsSame pass.old pass.new × (pass.new.log ≡ pass.old.log) × (pass.new.held ≡ None) }
        ensures old { knows pass.new ≡ parent (16 * pass.old.name + i) (knows pass.old) }
        ensures new { IsPassOf self.now result × (result.name ≡ 16 * pass.old.name + i) × (result.held ≡ None) }
        ensures empty { result.log ≡ record { items = []; spare = 0 } }
        ensures view { knows result ≡ child (16 * pass.old.name + i) (knows pass.old) }
        ensures floor { All (λ (s : Stamped). s.ticket < (knows result).floor) pass.old.log.items }
    {
        let name = 16 * pass.name + i as u64;
        let _ = self.steps.tell(&mut pass.seat);
        let seat = self.steps.cut::<Brand>(&mut pass.seat, name);
        Pass {
            seat,
            name,
            held: None,
            log: Log::new(self.alloc),
        }
    }

    /// Takes in the pass of a branch, with its log.
    pub fn join(&self, pass: &mut Pass, child: Pass)
        requires pass { IsPassOf self.now pass.old × IsPassOf self.now child }
        requires kid { Has child.name (knows pass.old).kids }
        requires free { (child.held ≡ None) × ((knows child).kids ≡ []) }
        requires spare { length child.log.items ≤ pass.old.log.spare }
        ensures same { IsSame pass.old pass.new × (pass.new.held ≡ pass.old.held) }
        ensures view { knows pass.new ≡ joined (knows pass.old) (knows child) }
        ensures log { IsUnion pass.old.log.items child.log.items pass.new.log.items }
        ensures spare { pass.new.log.spare ≡ pass.old.log.spare - length child.log.items }
    {
        let Pass { seat, log, .. } = pass;
        let Pass {
            seat: other,
            log: theirs,
            ..
        } = child;
        self.steps.unite(seat, other);
        let _ = self.steps.tell(seat);
        log.merge(theirs);
    }
}
