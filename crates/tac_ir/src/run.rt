use dfi_base::{DefNo, Name, Point, ReadNo};
use sqlite_items::Items;

/// What a thread did at one atomic step. `word` is an address of guest memory; values are words of 32 bits.
#[derive(Clone, Copy, Debug, PartialEq, Eq)]
pub enum Op {
    Read { read: ReadNo, word: u32 },
    Write { def: DefNo, word: u32, value: u32 },
    Same { a: u32, b: u32, ne: bool },
    New { site: u16, count: i32 },
    Free { word: u32 },
    In,
    Left,
    Out { value: i32 },
    Call { fun: u32 },
    Ret,
    Turn,
    Fork { branches: u32 },
    Zero,
}

/// Why a step stopped the run. `found` is the class of the word's last writer, 0 for none.
#[derive(Clone, Copy, Debug, PartialEq, Eq)]
pub enum Stop {
    Alarm { found: u16 },
    Divide,
    Address,
    Free,
    Stack,
    Heap,
    Depth,
    Share,
}

impl Stop {
    ghost use Rattle.std.specs.Prelude.{◌≡◌};
    ghost use Rattle.tac_ir.specs.CoreRun.{end_by};

    /// The end of a run that this stops.
    pub fn end(self) -> End
        ensures { result ≡ end_by self }
    {
        match self {
            Stop::Alarm { .. } => End::Alarm,
            Stop::Divide | Stop::Address | Stop::Free => End::Trap,
            Stop::Stack => End::Limit(Limit::Stack),
            Stop::Heap => End::Limit(Limit::Heap),
            Stop::Depth => End::Limit(Limit::Depth),
            Stop::Share => End::Limit(Limit::Share),
        }
    }
}

/// What a step was answered.
#[derive(Clone, Copy, Debug, PartialEq, Eq)]
pub enum Answer {
    Unit,
    Value(u32),
    Stop(Stop),
}

/// One atomic step of the thread `name`, at a point of the code.
#[derive(Clone, Copy, Debug, PartialEq, Eq)]
pub struct Entry {
    pub name: Name,
    pub point: Point,
    pub op: Op,
    pub answer: Answer,
}

/// A limit that ends a run.
#[derive(Clone, Copy, Debug, PartialEq, Eq)]
pub enum Limit {
    Stack,
    Heap,
    Depth,
    Share,
    Budget,
}

/// How a run ended: with main's value, by an alarm, a trap or a limit, or cut off. `NoRun` says that there was none.
#[derive(Clone, Copy, Debug, PartialEq, Eq)]
pub enum End {
    Done(i32),
    Alarm,
    Trap,
    Limit(Limit),
    Cut,
    NoRun,
}

/// The steps of a run in their order, and its end.
#[derive(Drop)]
pub struct Journal {
    pub entries: Items<Entry>,
    pub end: End,
}
