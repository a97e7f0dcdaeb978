// An event that the memory serves: its lock, its answer, its ticket, and what it does.
ghost use Rattle.std.specs.Prelude.{◌≡◌, ◌+◌, ◌<◌, ◌≤◌, [], ◌∷◌, true, false, IfOk, IfErr};
ghost use Rattle.atomic_table.specs.Table.{Me};
ghost use Rattle.tac_ir.specs.declared.run.Op.{Op};
ghost use Rattle.tac_ir.specs.Path.{stops};
ghost use Rattle.stripe_rule.specs.declared.content.Content.{Content};
ghost use Rattle.stripe_rule.specs.declared.view.View.{View};
ghost use Rattle.stripe_rule.specs.Locks.{lock_of};
ghost use Rattle.stripe_rule.specs.Holds.{Sometime};
ghost use Rattle.stripe_rule.specs.Views.{nothing, holding, looked, as_asked, drawn};
ghost use Rattle.stripe_rule.specs.tools.Logs.{AllBelow, HasStop};
ghost use Rattle.stripe_events.specs.Accesses.{IsAccess, IsKind};
ghost use Rattle.stripe_table.specs.Passes.{plan_of};
ghost use Rattle.stripe_table.specs.Calls.{IsMissed, Excused, WasGoing, noted, missed, settled, entry_by};

use crate::fault::{Busy, TryFault};
use crate::memory::SharedMem;
use atomic_table::Seat;
use dfi_base::{Memory, Name, Point};
use guest_log::Stamped;
use std::marker::Brand;
use stripe_rule::{Content, View};
use tac_ir::{Answer, Entry, Op};

impl<'m> SharedMem<'m> {
    /// Loads the halt word, and where it is 0 takes a lock.
    pub(crate) fn hold(
        &self,
        seat: &mut Seat<Content, View>,
        lock: usize,
        name: u64,
    ) -> Result<(), TryFault>
        requires table { seat.old.table_id ≡ self.now.steps.table.shared.table_id }
        requires lock { lock < (plan_of self.now).stripes + 1 }
        requires free { (seat.old.me.1 ≡ []) × (seat.old.me.0.holds ≡ false) × (seat.old.me.0.name ≡ name) × (0 < name) × (0 < seat.old.me.0.parts) }
        ensures table { (seat.new.table_id ≡ seat.old.table_id) × (seat.new.id ≡ seat.old.id) }
        ensures ok { IfOk result (λ _. (seat.new.me ≡ (holding (as_asked seat.old.me.0) lock seat.new.me.0.content, (lock, seat.new.me.0.content) ∷ [])) × Sometime seat.old.me.0.plan lock seat.new.me.0.content) }
        ensures going { IfOk result (λ _. seat.old.me.0.halted ≡ false) }
        ensures err { IfErr result (λ fault. (seat.new.me ≡ (noted lock fault seat.old.me.0, [])) × ((op : Op) → Excused op name lock (plan_of self.now).budget fault) × WasGoing seat.old.me.0 fault) }
    {
        if self.steps.hear(seat) != 0 {
            return Err(TryFault::Halted);
        }
        let found = self.steps.take(seat, lock, name);
        if found != 0 {
            return Err(TryFault::Busy(Busy {
                stripe: lock as u32,
                holder: Name(found),
            }));
        }
        Ok(())
    }

    // Draws the ticket for an event of what is held, and does it.
    fn event(
        &self,
        seat: &mut Seat<Content, View>,
        lock: usize,
        name: u64,
        point: Point,
        op: Op,
    ) -> Result<Stamped, TryFault>
        requires table { (seat.old.table_id ≡ self.now.steps.table.shared.table_id) × (seat.old.me.0.plan ≡ plan_of self.now) × (0 < seat.old.me.0.parts) }
        requires access { IsAccess (plan_of self.now) op }
        requires held { (seat.old.me.1 ≡ (lock, seat.old.me.0.content) ∷ []) × (seat.old.me.0.holds ≡ true) × (seat.old.me.0.stripe ≡ lock) × (lock ≡ lock_of (plan_of self.now) op) }
        requires content { Sometime (plan_of self.now) lock seat.old.me.0.content }
        ensures table { (seat.new.table_id ≡ seat.old.table_id) × (seat.new.id ≡ seat.old.id) }
        ensures ok { IfOk result (λ s. (seat.new.me ≡ (drawn (looked seat.old.me.0) s.ticket s.entry seat.new.me.0.content, (lock, seat.new.me.0.content) ∷ [])) × (s.entry ≡ entry_by name point op s.entry.answer) × IsKind op s.entry.answer × AllBelow s.ticket seat.old.me.0.log × (seat.old.me.0.floor ≤ s.ticket) × (s.ticket < (plan_of self.now).budget)) }
        ensures err { IfErr result (λ fault. (seat.new.me ≡ (missed fault seat.old.me.0, seat.old.me.1)) × IsMissed op (plan_of self.now).budget fault) }
    {
        let Ok(answer) = self.steps.prepare(seat, lock, op) else {
            return Err(TryFault::Memory);
        };
        let seen = self.steps.look(seat);
        if seen >= self.steps.plan.budget {
            self.steps.undo(seat, lock, op, answer);
            return Err(TryFault::Spent { ticket: seen });
        }
        let entry = Entry {
            name: Name(name),
            point,
            op,
            answer,
        };
        let ticket = self.steps.draw::<Brand>(seat, entry);
        if ticket >= self.steps.plan.budget {
            self.steps.undo(seat, lock, op, answer);
            return Err(TryFault::Spent { ticket });
        }
        self.steps.finish(seat, lock, op);
        Ok(Stamped { ticket, entry })
    }

    /// One event that the memory serves, under its lock.
    pub(crate) fn serve(
        &self,
        seat: &mut Seat<Content, View>,
        lock: usize,
        name: u64,
        point: Point,
        op: Op,
    ) -> Result<Stamped, TryFault>
        requires table { (seat.old.table_id ≡ self.now.steps.table.shared.table_id) × (seat.old.me.0.plan ≡ plan_of self.now) }
        requires free { (seat.old.me.1 ≡ []) × (seat.old.me.0.holds ≡ false) × (seat.old.me.0.name ≡ name) × (0 < name) × (0 < seat.old.me.0.parts) }
        requires idle { (seat.old.me.0.stripe ≡ 0) × (seat.old.me.0.content ≡ nothing) × (seat.old.me.0.ready ≡ 0) }
        requires access { IsAccess (plan_of self.now) op × (lock ≡ lock_of (plan_of self.now) op) × (lock < (plan_of self.now).stripes + 1) }
        ensures table { (seat.new.table_id ≡ seat.old.table_id) × (seat.new.id ≡ seat.old.id) }
        ensures ok { IfOk result (λ s. (seat.new.me ≡ (drawn (looked (as_asked seat.old.me.0)) s.ticket s.entry seat.old.me.0.content, [])) × (s.entry ≡ entry_by name point op s.entry.answer) × IsKind op s.entry.answer × AllBelow s.ticket seat.old.me.0.log × (seat.old.me.0.floor ≤ s.ticket) × (s.ticket < (plan_of self.now).budget)) }
        ensures going { IfOk result (λ _. seat.old.me.0.halted ≡ false) }
        ensures err { IfErr result (λ fault. (seat.new.me ≡ (noted lock fault seat.old.me.0, [])) × Excused op name lock (plan_of self.now).budget fault × WasGoing seat.old.me.0 fault) }
    {
        self.hold(seat, lock, name)?;
        let served = self.event(seat, lock, name, point, op);
        self.steps.give(seat, lock);
        served
    }

    /// Sets the halt word where an answer stops the run.
    pub(crate) fn settle(&self, seat: &mut Seat<Content, View>, answer: Answer)
        requires table { seat.old.table_id ≡ self.now.steps.table.shared.table_id }
        requires stop { stops answer ≡ true → HasStop seat.old.me.0.log }
        ensures table { (seat.new.table_id ≡ seat.old.table_id) × (seat.new.id ≡ seat.old.id) }
        ensures settled { seat.new.me ≡ (settled (stops answer) seat.old.me.0, seat.old.me.1) }
    {
        if let Answer::Stop(_) = answer {
            self.steps.halt(seat);
        }
    }
}
