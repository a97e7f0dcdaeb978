use crate::domain::Domain;
use dfi_base::{DefNo, ReadNo};

/// What a thread wants to do next, over values `V`.
#[derive(Clone, Copy, Debug, PartialEq, Eq)]
pub enum Want<V> {
    Read { read: ReadNo, word: V },
    Write { def: DefNo, word: V, value: V },
    Same { a: V, b: V, ne: bool },
    New { site: u16, count: V },
    Free { word: V },
    In,
    Left,
    Out { value: V },
    Call { fun: u32 },
    Ret,
    Turn,
    Fork { branches: u32 },
    /// A division by 0.
    Zero,
    /// No value: the operation has none in this domain.
    Bad,
    /// The write of a return link.
    Push { def: DefNo, word: u32 },
    /// The read of a return link.
    Pop { read: ReadNo, word: u32 },
    /// Branches of the thread live.
    Waits,
    /// The thread has come to its end: thread 1 with main's value, a branch with none.
    Ended(Option<V>),
}

/// What an event is answered: a value `V`, the stack `S` of the function that is called, or nothing.
#[derive(Clone, Copy)]
pub enum ReplyOf<V, S> {
    Unit,
    Value(V),
    Stack(S),
}

/// An answer over the values and stacks of a domain.
pub type Reply<D> = ReplyOf<<D as Domain>::Value, <D as Domain>::Stack>;
