use dfi_base::Name;
use thiserror::Error;

/// A lock was not taken: its word held this name.
#[derive(Drop, Debug, Error)]
#[error("lock {stripe} is held by {}", holder.0)]
pub struct Busy {
    pub stripe: u32,
    pub holder: Name,
}

/// Why an access was not done. `Memory` comes for a block alone.
#[derive(Drop, Debug, Error)]
pub enum TryFault {
    #[error("{0}")]
    Busy(Busy),
    #[error("the run has stopped")]
    Halted,
    #[error("ticket {ticket} is past the budget")]
    Spent { ticket: u64 },
    #[error("out of memory")]
    Memory,
}

/// Why an access was not done that waits for its lock. `Memory` comes for a block alone.
#[derive(Drop, Debug, Error)]
pub enum AccessFault {
    #[error("the run has stopped")]
    Halted,
    #[error("ticket {ticket} is past the budget")]
    Spent { ticket: u64 },
    #[error("out of memory")]
    Memory,
}

/// Why an event that needs no lock was not done.
#[derive(Drop, Debug, Error)]
pub enum TickFault {
    #[error("the run has stopped")]
    Halted,
    #[error("ticket {ticket} is past the budget")]
    Spent { ticket: u64 },
}
