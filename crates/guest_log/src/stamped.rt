use tac_ir::Entry;

/// An entry with its ticket. Tickets tell in which order a shared memory took the entries.
#[derive(Clone, Copy, Debug, PartialEq, Eq)]
pub struct Stamped {
    pub ticket: u64,
    pub entry: Entry,
}
