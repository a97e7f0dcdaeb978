ghost use Rattle.std.specs.Prelude.{◌≡◌, ◌<◌, ◌≤◌, ℕ, [], All, None, Some, false, reverse, max, OnOk, OnErr};
ghost use Rattle.guest_log.specs.declared.stamped.Stamped.{Stamped};
ghost use Rattle.stripe_rule.specs.Views.{nothing};
ghost use Rattle.stripe_steps.specs.Carried.{Carries};

use atomic_table::Seat;
use dfi_base::{Memory, Name};
use guest_log::Log;
use stripe_rule::{Content, View};

/// The right of one thread to take part in a shared memory, with the log of what it did.
#[derive(Drop)]
pub struct Pass {
    pub(crate) seat: Seat<Content, View>,
    pub(crate) name: u64,
    pub(crate) held: Option<u32>,
    pub(crate) log: Log,
    ghost named: { (seat.me.0.name ≡ name) × (0 < name) × (0 < seat.me.0.parts) },
    ghost ready: { seat.me.0.ready ≡ 0 },
    ghost idle: { held ≡ None → (seat.me.1 ≡ []) × (seat.me.0.holds ≡ false) × (seat.me.0.stripe ≡ 0) × (seat.me.0.content ≡ nothing) },
    ghost carries: { (k : ℕ) → held ≡ Some k → Carries seat.me k },
    ghost logged: { seat.me.0.log ≡ reverse log.items },
    ghost above: { All (λ (s : Stamped). seat.me.0.floor ≤ s.ticket) log.items },
}

impl Pass {
    ghost use Rattle.stripe_table.specs.Passes.{OnlyLog};

    /// The name of its thread.
    pub fn name(&self) -> Name
        ensures { result.0 ≡ self.now.name }
    {
        Name(self.name)
    }

    /// What its thread did, and what those did whose passes were joined into it.
    pub fn log(&self) -> &Log
        ensures { result.now ≡ self.now.log }
    {
        &self.log
    }

    /// The number of the lock that it holds.
    pub fn held(&self) -> Option<u32>
        ensures { result ≡ self.now.held }
    {
        self.held
    }

    /// Makes room in the log for this many entries more.
    pub fn reserve(&mut self, more: u64) -> Result<(), Memory>
        ensures same { OnlyLog self.old self.new }
        ensures ok { OnOk result (self.new.log ≡ record self.old.log { spare = max self.old.log.spare more }) }
        ensures err { OnErr result (self.new.log ≡ self.old.log) }
    {
        self.log.reserve(more)
    }
}
