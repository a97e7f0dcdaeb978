ghost use Rattle.std.specs.Prelude.{◌≡◌, ◌≤◌, [], true, None, length};
ghost use Rattle.guest_log.specs.Shared.{Shared};

use crate::memory::SharedMem;
use crate::pass::Pass;
use guest_log::Log;
use std::marker::Model;
use tac_ir::Journal;

/// The log of a whole run. `SharedMem::close` alone makes one.
#[derive(Drop)]
pub struct Closed {
    log: Log,
}

impl Model for Closed {
    ghost use Rattle.guest_log.specs.Tickets.{Log};

    ghost Value = { Log };

    ghost view = { λ c. c.log };
}

impl Closed {
    /// The log.
    pub fn log(&self) -> &Log
        ensures { result.now ≡ self.now }
    {
        &self.log
    }
}

/// What a run over a shared memory gives.
#[derive(Drop)]
pub struct Ran {
    pub journal: Journal,
    pub closed: Closed,
}

impl<'m> SharedMem<'m> {
    ghost use Rattle.stripe_table.specs.Passes.{knows, IsPassOf, HasStopIn, plan_of};

    /// The log of thread 1, into which all other passes were joined: one memory served it.
    pub fn close(self, root: Pass) -> Closed
        requires pass { IsPassOf self root }
        requires root { (root.name ≡ 1) × (root.held ≡ None) × ((knows root).kids ≡ []) }
        ensures log { result ≡ root.log }
        ensures shared { Shared (plan_of self.entry).md (plan_of self.entry).input result.items }
        ensures most { length result.items ≤ (plan_of self.entry).budget }
        ensures spent { (knows root).spent ≡ true → length result.items ≡ (plan_of self.entry).budget }
        ensures halted { (knows root).halted ≡ true → HasStopIn result.items }
    {
        let SharedMem { steps, .. } = self;
        let Pass { seat, log, .. } = root;
        steps.close(seat);
        Closed { log }
    }
}
