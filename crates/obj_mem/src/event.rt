use crate::Maker;
use crate::value::Value;
use dfi_base::Name;

/// What a thread does in one step.
#[derive(Clone, Copy, Debug, PartialEq, Eq)]
pub enum Event {
    /// Reads the word at a pointer.
    Rd { p: Value },
    /// Writes the word at a pointer.
    Wr { p: Value, v: Value },
    /// Compares two pointers: whether they are equal, or, with `ne`, whether they differ.
    Same { p: Value, q: Value, ne: bool },
    /// Makes a block of so many items of so many words. Its site is that of the object: heap sites follow all variables.
    New { site: u32, count: i32, words: u32 },
    /// Frees a block.
    Free { p: Value },
    /// Takes the next number of the input.
    In,
    /// Asks how many numbers are left.
    Left,
    /// Puts a number out.
    Out { v: i32 },
    /// Calls a function.
    Call { fun: u32 },
    /// Returns from a function that was called.
    Ret,
    /// Begins a turn of a loop.
    Turn,
    /// Forks into so many branches.
    Fork { n: u32 },
    /// Divides by 0.
    Zero,
    /// Wants what has no meaning: an operation on a value that is none of its operands, or a pointer that is null or leaves its bounds.
    Bad,
    /// Puts a number into the input. No thread does this: it stands at the front of each run.
    Given { v: i32 },
}

/// What an event is answered.
#[derive(Clone, Copy, Debug, PartialEq, Eq)]
pub enum SrcAnswer {
    Unit,
    Value(Value),
    /// A call's: the maker of its frame.
    Frame(Maker),
}

/// An event with the name of its thread and its answer.
#[derive(Clone, Copy, Debug, PartialEq, Eq)]
pub struct Stamp {
    pub name: Name,
    pub event: Event,
    pub answer: SrcAnswer,
}
