ghost use Rattle.std.specs.Prelude.{◌≡◌, ◌<◌, ◌≤◌, ◌^◌, [], None, IfOk, length};
ghost use Rattle.tac_ir.specs.Tables.{CanRun};
ghost use Rattle.stripe_rule.specs.Views.{root};
ghost use Rattle.stripe_table.specs.Passes.{knows, IsPassOf};
ghost use Rattle.stripe_table.specs.Opened.{IsFor};

use crate::memory::SharedMem;
use crate::pass::Pass;
use dfi_base::Memory;
use guest_log::Log;
use std::alloc::Global;
use stripe_steps::Steps;
use tac_ir::Module;

impl<'m> SharedMem<'m> {
    /// The memory of a module before its first step, with the pass of thread 1.
    pub fn new(
        alloc: Global,
        m: &'m Module,
        input: &[i32],
        stripes: u32,
        budget: u64,
    ) -> Result<(SharedMem<'m>, Pass), Memory>
        requires can_run { CanRun m.now }
        requires input { length input.now < 2 ^ 31 }
        requires limits { (1 ≤ stripes) × (stripes ≤ 64) × (budget ≤ 4000000) }
        ensures memory { IfOk result (λ r. IsFor m.now input.now stripes budget r.0) }
        ensures pass { IfOk result (λ r. IsPassOf r.0 r.1 × (r.1.name ≡ 1) × (r.1.held ≡ None) × (r.1.log ≡ record { items = []; spare = 0 })) }
        ensures view { IfOk result (λ r. knows r.1 ≡ root (record { md = m.now; input = input.now; stripes = stripes; budget = budget })) }
    {
        let (steps, seat) = Steps::new(alloc, m, input, stripes, budget)?;
        let pass = Pass {
            seat,
            name: 1,
            held: None,
            log: Log::new(alloc),
        };
        Ok((SharedMem { steps, alloc }, pass))
    }
}
