/// A line of a text, counted from 1: 1 plus the number of newline bytes before it.
#[derive(Clone, Copy, Debug, PartialEq, Eq)]
pub struct Line(pub u32);

/// A place in code: a function, and the index of one of its instructions, both from 0.
#[derive(Clone, Copy, Debug, PartialEq, Eq)]
pub struct Point {
    pub fun: u32,
    pub at: u32,
}

/// The number of a definition, from 1.
#[derive(Clone, Copy, Debug, PartialEq, Eq)]
pub struct DefNo(pub u16);

/// The number of a read, from 1.
#[derive(Clone, Copy, Debug, PartialEq, Eq)]
pub struct ReadNo(pub u16);

/// The name of a guest thread: 1 is the first, and branch `i` of thread `t` is `16 * t + i`.
#[derive(Clone, Copy, Debug, PartialEq, Eq)]
pub struct Name(pub u64);
