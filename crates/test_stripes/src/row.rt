/// A worked module.
#[derive(Clone, Copy)]
pub enum Program {
    /// `int a[4]; int x; int main() { x = 3; a[4] = 9; putint(x); }`
    Neighbour,
    /// One heap site, of `int`.
    Reusing,
}

/// Who does something: thread 1, or one of its branches, 17 and 18.
#[derive(Clone, Copy)]
pub enum Who {
    Root,
    First,
    Second,
}

/// What a pass is told to do.
#[derive(Clone, Copy)]
pub enum Order {
    Write { def: u16, word: u32, value: u32 },
    Read { read: u16, word: u32 },
    New { count: i32 },
    Free { word: u32 },
    In,
    Left,
    Out { value: i32 },
    Hold { lock: u32 },
    Release,
}

/// A shared memory of a program, and what its three passes do, in this order.
#[derive(Clone, Copy)]
pub struct Row {
    pub title: &'static str,
    pub program: Program,
    pub large: bool,
    pub input: &'static [i32],
    pub budget: u64,
    pub steps: &'static [(Who, Order)],
}
