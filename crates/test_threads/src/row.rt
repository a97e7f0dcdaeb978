use crate::program::Program;

/// What the threads of a row calculate with.
#[derive(Clone, Copy)]
pub enum Values {
    /// Words of 8 bits, without return links.
    Bytes,
    /// Words of 32 bits.
    Words(Room),
}

/// The first word behind the stack, and the link that the first return reads, where that is not the newest one.
#[derive(Clone, Copy)]
pub struct Room {
    pub end: u32,
    pub wrong: Option<u32>,
}

/// Which events of a run are printed.
#[derive(Clone, Copy, PartialEq, Eq)]
pub enum Shown {
    All,
    Last,
}

/// A run to print, of at most so many events.
#[derive(Clone, Copy)]
pub struct Row {
    pub title: &'static str,
    pub program: Program,
    pub values: Values,
    pub limit: u64,
    pub shown: Shown,
}
