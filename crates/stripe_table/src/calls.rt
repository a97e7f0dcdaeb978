ghost use Rattle.std.specs.Prelude.{◌≡◌, ◌≢◌, ◌+◌, ◌<◌, ◌≤◌, false, IfOk, IfErr, None, Some};
ghost use Rattle.stripe_rule.specs.Locks.{lock_of};
ghost use Rattle.stripe_rule.specs.Views.{holding, failing, freed, looked, as_asked, drawn};
ghost use Rattle.stripe_rule.specs.Serving.{IsTick};
ghost use Rattle.stripe_rule.specs.tools.Logs.{AllBelow};
ghost use Rattle.stripe_events.specs.Accesses.{IsAccess, IsKind};
ghost use Rattle.stripe_table.specs.Passes.{knows, IsPassOf, IsStep, plan_of};
ghost use Rattle.stripe_table.specs.Calls.{IsEntered, Excused, WasGoing, noted, Unticked, WasTicking, ticked, entry_by};

use crate::fault::{Busy, TickFault, TryFault};
use crate::memory::SharedMem;
use crate::pass::Pass;
use atomic_table::Seat;
use dfi_base::{Name, Point};
use guest_log::Stamped;
use std::marker::Brand;
use stripe_rule::{Content, View};
use tac_ir::{Answer, Entry, Op};

impl<'m> SharedMem<'m> {
    /// Takes a lock, where it is free. The desk's lock has the number of stripes.
    pub fn try_hold(&self, pass: &mut Pass, stripe: u32) -> Result<(), Busy>
        requires pass { IsPassOf self.now pass.old }
        requires free { pass.old.held ≡ None }
        requires stripe { stripe ≤ (plan_of self.now).stripes }
        ensures same { IsStep pass.old pass.new × (pass.new.log ≡ pass.old.log) }
        ensures holds { IfOk result (λ _. (pass.new.held ≡ Some stripe) × (knows pass.new ≡ holding (knows pass.old) stripe (knows pass.new).content)) }
        ensures busy { IfErr result (λ busy. (pass.new.held ≡ None) × (knows pass.new ≡ failing (knows pass.old) stripe busy.holder.0) × (busy.stripe ≡ stripe) × (busy.holder.0 ≢ 0) × (busy.holder.0 ≢ pass.old.name)) }
    {
        let Pass {
            seat,
            name,
            held,
            ..
        } = pass;
        let found = self.steps.take(seat, stripe as usize, *name);
        if found != 0 {
            return Err(Busy {
                stripe,
                holder: Name(found),
            });
        }
        *held = Some(stripe);
        Ok(())
    }

    /// Gives back the lock that is held.
    pub fn release(&self, pass: &mut Pass)
        requires pass { IsPassOf self.now pass.old }
        requires held { pass.old.held ≢ None }
        ensures same { IsStep pass.old pass.new × (pass.new.log ≡ pass.old.log) }
        ensures free { (pass.new.held ≡ None) × (knows pass.new ≡ freed (knows pass.old)) }
    {
        let Pass { seat, held, .. } = pass;
        if let Some(stripe) = *held {
            self.steps.give(seat, stripe as usize);
            *held = None;
        }
    }

    /// One event that the memory serves: a read or write of a word of memory, or one of the heap or the input.
    pub fn try_access(&self, pass: &mut Pass, point: Point, op: &Op) -> Result<Entry, TryFault>
        requires pass { IsPassOf self.now pass.old }
        requires free { pass.old.held ≡ None }
        requires spare { 0 < pass.old.log.spare }
        requires access { IsAccess (plan_of self.now) op.now }
        ensures same { IsStep pass.old pass.new × (pass.new.held ≡ None) }
        ensures entry { IfOk result (λ e. (e ≡ entry_by pass.old.name point op.now e.answer) × IsKind op.now e.answer) }
        ensures ok { IfOk result (λ e. IsEntered (plan_of self.now).budget (knows pass.old) (knows pass.new) pass.old.log pass.new.log e) }
        ensures err { IfErr result (λ fault. (pass.new.log ≡ pass.old.log) × (knows pass.new ≡ noted (lock_of (plan_of self.now) op.now) fault (knows pass.old))) }
        ensures cause { IfErr result (λ fault. Excused op.now pass.old.name (lock_of (plan_of self.now) op.now) (plan_of self.now).budget fault) }
        ensures going { IfErr result (λ fault. WasGoing (knows pass.old) fault) }
    {
        let lock = self.lock_of(*op);
        let Pass {
            seat,
            name,
            log,
            ..
        } = pass;
        let stamped = self.serve(seat, lock, *name, point, *op)?;
        self.settle(seat, stamped.entry.answer);
        log.push(stamped);
        Ok(stamped.entry)
    }

    // The lock of an event.
    fn lock_of(&self, op: Op) -> usize
        requires access { IsAccess (plan_of self.now) op }
        ensures lock { result ≡ lock_of (plan_of self.now) op }
        ensures below { result < (plan_of self.now).stripes + 1 }
    {
        let stripes = self.steps.plan.stripes;
        match op {
            Op::Read { word, .. } | Op::Write { word, .. } => word as usize % stripes,
            Op::New { .. } | Op::Free { .. } | Op::In | Op::Left => stripes,
            _ => unreachable!(),
        }
    }

    // Draws a ticket for an event that needs no lock.
    fn count(&self, seat: &mut Seat<Content, View>, entry: Entry) -> Result<u64, TickFault>
        requires table { (seat.old.table_id ≡ self.now.steps.table.shared.table_id) × (seat.old.me.0.plan ≡ plan_of self.now) × (0 < seat.old.me.0.parts) × (seat.old.me.0.ready ≡ 0) }
        requires tick { IsTick (plan_of self.now) entry.op entry.answer }
        ensures table { (seat.new.table_id ≡ seat.old.table_id) × (seat.new.id ≡ seat.old.id) }
        ensures ok { IfOk result (λ t. (seat.new.me ≡ (drawn (looked (as_asked seat.old.me.0)) t entry seat.old.me.0.content, seat.old.me.1)) × AllBelow t seat.old.me.0.log × (seat.old.me.0.floor ≤ t) × (t < (plan_of self.now).budget)) }
        ensures going { IfOk result (λ _. seat.old.me.0.halted ≡ false) }
        ensures err { IfErr result (λ fault. (seat.new.me ≡ (ticked fault seat.old.me.0, seat.old.me.1)) × Unticked (plan_of self.now).budget fault × WasTicking seat.old.me.0 fault) }
    {
        if self.steps.hear(seat) != 0 {
            return Err(TickFault::Halted);
        }
        let seen = self.steps.look(seat);
        if seen >= self.steps.plan.budget {
            return Err(TickFault::Spent { ticket: seen });
        }
        let ticket = self.steps.draw::<Brand>(seat, entry);
        if ticket >= self.steps.plan.budget {
            return Err(TickFault::Spent { ticket });
        }
        Ok(ticket)
    }

    /// One event that the memory does not answer, or a read or write past it.
    pub fn tick(
        &self,
        pass: &mut Pass,
        point: Point,
        op: &Op,
        answer: Answer,
    ) -> Result<Entry, TickFault>
        requires pass { IsPassOf self.now pass.old }
        requires spare { 0 < pass.old.log.spare }
        requires tick { IsTick (plan_of self.now) op.now answer }
        ensures same { IsStep pass.old pass.new × (pass.new.held ≡ pass.old.held) }
        ensures entry { IfOk result (λ e. e ≡ entry_by pass.old.name point op.now answer) }
        ensures ok { IfOk result (λ e. IsEntered (plan_of self.now).budget (knows pass.old) (knows pass.new) pass.old.log pass.new.log e) }
        ensures err { IfErr result (λ fault. (pass.new.log ≡ pass.old.log) × (knows pass.new ≡ ticked fault (knows pass.old))) }
        ensures cause { IfErr result (λ fault. Unticked (plan_of self.now).budget fault) }
        ensures going { IfErr result (λ fault. WasTicking (knows pass.old) fault) }
    {
        let Pass {
            seat,
            name,
            log,
            ..
        } = pass;
        let entry = Entry {
            name: Name(*name),
            point,
            op: *op,
            answer,
        };
        let ticket = self.count(seat, entry)?;
        self.settle(seat, answer);
        log.push(Stamped { ticket, entry });
        Ok(entry)
    }
}
