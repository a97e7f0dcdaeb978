// What is done to what lies under a lock while it is held.
ghost use Rattle.std.specs.Prelude.{◌≡◌, [], ◌∷◌, IfOk, OnErr};
ghost use Rattle.stripe_rule.specs.Terms.{terms_of};
ghost use Rattle.stripe_rule.specs.Locks.{lock_of};
ghost use Rattle.stripe_rule.specs.Holds.{Sometime};
ghost use Rattle.stripe_rule.specs.Serving.{content_before, content_after};
ghost use Rattle.stripe_events.specs.Accesses.{IsAccess, TakesBlock};
ghost use Rattle.stripe_events.specs.Prepared.{IsHere, IsPrepared};
ghost use Rattle.stripe_steps.specs.Carried.{front};

use crate::steps::Steps;
use atomic_table::Seat;
use dfi_base::Memory;
use stripe_events::{finish, prepare, undo};
use stripe_rule::{Content, View};
use tac_ir::{Answer, Op};

impl<'m> Steps<'m> {
    /// The answer of an event to what is held. The room of a block is taken, and all else stays.
    pub fn prepare(
        &self,
        seat: &mut Seat<Content, View>,
        lock: usize,
        op: Op,
    ) -> Result<Answer, Memory>
        requires table { seat.old.table_id ≡ self.now.table.shared.table_id }
        requires access { IsAccess (terms_of self.now.plan) op }
        requires slot { (seat.old.me.1 ≡ (lock, front seat.old.me) ∷ []) × Sometime (terms_of self.now.plan) (lock_of (terms_of self.now.plan) op) (front seat.old.me) }
        ensures table { (seat.new.table_id ≡ seat.old.table_id) × (seat.new.id ≡ seat.old.id) }
        ensures slot { seat.new.me ≡ (seat.old.me.0, (lock, front seat.new.me) ∷ []) }
        ensures ok { IfOk result (λ a. IsPrepared (terms_of self.now.plan) op a (front seat.old.me) (front seat.new.me)) }
        ensures err { OnErr result ((seat.new.me ≡ seat.old.me) × TakesBlock op) }
    {
        let content = seat.slot_mut(&self.table.shared, lock);
        prepare(content, &self.plan, &self.tables, op)
    }

    /// Takes an answer back.
    pub fn undo(&self, seat: &mut Seat<Content, View>, lock: usize, op: Op, answer: Answer)
        requires table { seat.old.table_id ≡ self.now.table.shared.table_id }
        requires slot { seat.old.me.1 ≡ (lock, front seat.old.me) ∷ [] }
        ensures table { (seat.new.table_id ≡ seat.old.table_id) × (seat.new.id ≡ seat.old.id) }
        ensures slot { seat.new.me ≡ (seat.old.me.0, (lock, content_before op answer (front seat.old.me)) ∷ []) }
    {
        undo(seat.slot_mut(&self.table.shared, lock), op, answer);
    }

    /// Does what is left to be done once the ticket is drawn.
    pub fn finish(&self, seat: &mut Seat<Content, View>, lock: usize, op: Op)
        requires table { seat.old.table_id ≡ self.now.table.shared.table_id }
        requires slot { (seat.old.me.1 ≡ (lock, front seat.old.me) ∷ []) × IsHere op (front seat.old.me) }
        ensures table { (seat.new.table_id ≡ seat.old.table_id) × (seat.new.id ≡ seat.old.id) }
        ensures slot { seat.new.me ≡ (seat.old.me.0, (lock, content_after (terms_of self.now.plan) op (front seat.old.me)) ∷ []) }
    {
        let content = seat.slot_mut(&self.table.shared, lock);
        finish(content, &self.plan, &self.tables, op);
    }
}
