// An access that waits for its lock.
ghost use Rattle.std.specs.Prelude.{◌≡◌, ◌<◌, IfOk, IfErr, None};
ghost use Rattle.stripe_rule.specs.declared.view.View.{View};
ghost use Rattle.stripe_rule.specs.Locks.{lock_of};
ghost use Rattle.stripe_events.specs.Accesses.{IsAccess, IsKind};
ghost use Rattle.stripe_table.specs.Passes.{knows, IsPassOf, IsStep, plan_of};
ghost use Rattle.stripe_table.specs.Calls.{IsEntered, Excused, WasGoing, noted, entry_by};
ghost use Rattle.stripe_table.specs.Tries.{HasTried, last_told};

use crate::fault::{AccessFault, TryFault};
use crate::memory::SharedMem;
use crate::pass::Pass;
use dfi_base::Point;
use std::sync::{Wait, WaitMethods};
use std::thread::yield_now;
use tac_ir::{Entry, Op};

impl<'m> SharedMem<'m> {
    /// One event that the memory serves, tried again while another pass has its lock.
    pub fn access<R: Wait>(
        &self,
        rt: &R,
        pass: &mut Pass,
        point: Point,
        op: &Op,
    ) -> Result<Entry, AccessFault>
        requires pass { IsPassOf self.now pass.old }
        requires free { pass.old.held ≡ None }
        requires spare { 0 < pass.old.log.spare }
        requires access { IsAccess (plan_of self.now) op.now }
        ensures same { IsStep pass.old pass.new × (pass.new.held ≡ None) }
        ensures entry { IfOk result (λ e. (e ≡ entry_by pass.old.name point op.now e.answer) × IsKind op.now e.answer) }
        ensures ok { IfOk result (λ e. (u : View) × HasTried (knows pass.old) u × IsEntered (plan_of self.now).budget u (knows pass.new) pass.old.log pass.new.log e) }
        ensures log { IfErr result (λ fault. pass.new.log ≡ pass.old.log) }
        ensures err { IfErr result (λ fault. (u : View) × HasTried (knows pass.old) u × (knows pass.new ≡ noted (lock_of (plan_of self.now) op.now) (last_told fault) u) × WasGoing u (last_told fault)) }
        ensures cause { IfErr result (λ fault. Excused op.now pass.old.name (lock_of (plan_of self.now) op.now) (plan_of self.now).budget (last_told fault)) }
    {
        for _ in rt.forever() {
            match self.try_access(pass, point, op) {
                Ok(entry) => return Ok(entry),
                Err(TryFault::Busy(_)) => yield_now(),
                Err(TryFault::Halted) => return Err(AccessFault::Halted),
                Err(TryFault::Spent { ticket }) => return Err(AccessFault::Spent { ticket }),
                Err(TryFault::Memory) => return Err(AccessFault::Memory),
            }
        }
        unreachable!()
    }
}
