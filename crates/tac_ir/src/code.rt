use sqlite_items::Items;

/// A whole program. Shapes are numbered from 0, and 0 is `Int` and 1 is `Ptr`; globals, heap sites and
/// functions are numbered from 0 too.
#[derive(Drop)]
pub struct Code {
    pub shapes: Items<Shape>,
    pub globals: Items<Global>,
    pub sites: Items<Site>,
    /// The number of the function `main`.
    pub main: u32,
    pub funs: Items<Fun>,
}

/// What a variable, a global or a block's item is made of. An array has `len` items of the shape `item`.
#[derive(Drop)]
pub enum Shape {
    Int,
    Ptr,
    Array { len: u32, item: u32 },
    Struct { parts: Items<u32> },
}

/// A global variable. Each of its words starts with the value `start`.
#[derive(Clone, Copy)]
pub struct Global {
    pub shape: u32,
    pub start: i32,
    pub line: u32,
}

/// A place of the source that makes blocks, with the shape of one item.
#[derive(Clone, Copy)]
pub struct Site {
    pub shape: u32,
    pub line: u32,
}

/// A function: the number of its parameters, the shapes of its variables (parameters first), its
/// instructions, and the line of its name.
#[derive(Drop)]
pub struct Fun {
    pub params: u32,
    pub vars: Items<u32>,
    pub code: Items<Lined>,
    pub line: u32,
}

/// An instruction and its line.
#[derive(Drop)]
pub struct Lined {
    pub line: u32,
    pub instr: Instr,
}

/// A variable, or a field of it: `path` has a number for each field taken.
#[derive(Drop)]
pub enum Place {
    Global { var: u32, path: Items<u32> },
    Local { var: u32, path: Items<u32> },
}

/// `-`, `!` and `~` (C99 6.5.3.3).
#[derive(Clone, Copy)]
pub enum UnOp {
    Neg,
    Not,
    Com,
}

/// The operators on two integers (C99 6.5.5 to 6.5.12).
#[derive(Clone, Copy)]
pub enum BinOp {
    Add,
    Sub,
    Mul,
    And,
    Or,
    Xor,
    Shl,
    Shr,
    Lt,
    Gt,
    Le,
    Ge,
    Eq,
    Ne,
    Quo,
    Rem,
}

/// An instruction. `to`, `a`, `b` and the members of `args` number temporaries; `read` and `def` number reads
/// and definitions, both from 1; `target`, `yes`, `no`, `join` and `entries` are indexes of the same function.
#[derive(Drop)]
pub enum Instr {
    Const {
        to: u32,
        k: i32,
    },
    Null {
        to: u32,
    },
    Un {
        to: u32,
        op: UnOp,
        a: u32,
    },
    Bin {
        to: u32,
        op: BinOp,
        a: u32,
        b: u32,
    },
    /// A pointer to a place.
    Addr {
        to: u32,
        place: Place,
    },
    /// Field `k` of the struct of this shape at `a`.
    Field {
        to: u32,
        a: u32,
        shape: u32,
        k: u32,
    },
    /// The first item of the array of this shape at `a`.
    Decay {
        to: u32,
        a: u32,
        shape: u32,
    },
    /// `a`, moved by `b` items of so many words.
    Index {
        to: u32,
        a: u32,
        b: u32,
        words: u32,
    },
    Get {
        to: u32,
        place: Place,
        read: u32,
    },
    Load {
        to: u32,
        a: u32,
        read: u32,
    },
    Set {
        place: Place,
        a: u32,
        def: u32,
    },
    /// Writes `b` through the pointer `a`.
    Store {
        a: u32,
        b: u32,
        def: u32,
    },
    /// Compares two pointers, for inequality where `ne`.
    Same {
        to: u32,
        ne: bool,
        a: u32,
        b: u32,
    },
    /// A block for `a` items of a heap site.
    New {
        to: u32,
        a: u32,
        site: u32,
    },
    Free {
        a: u32,
    },
    In {
        to: u32,
    },
    Left {
        to: u32,
    },
    Out {
        a: u32,
    },
    /// `def` is the definition that writes the return link.
    Call {
        to: u32,
        fun: u32,
        def: u32,
        args: Items<u32>,
    },
    /// `read` is the read of the return link; `main` has none.
    Ret {
        a: u32,
        read: Option<u32>,
    },
    Jump {
        target: u32,
    },
    /// Goes to `yes` where `a` is not 0, else to `no`.
    Test {
        a: u32,
        yes: u32,
        no: u32,
    },
    /// The head of a loop.
    Turn,
    /// Runs the branches that begin at the entries, and goes on at `join` when all have ended.
    Fork {
        join: u32,
        entries: Items<u32>,
    },
    /// The end of a branch.
    End,
}
