//! Words of instructions and shapes.

/// The word with which an instruction begins.
#[derive(Clone, Copy)]
pub enum Opcode {
    Const,
    Null,
    Un,
    Bin,
    Div,
    Addr,
    Field,
    Decay,
    Index,
    Get,
    Load,
    Set,
    Store,
    Same,
    New,
    Free,
    In,
    Left,
    Out,
    Call,
    Ret,
    Jump,
    Test,
    Turn,
    Fork,
    End,
}

/// The word with which the line of a shape begins.
#[derive(Clone, Copy)]
pub enum ShapeWord {
    Int,
    Ptr,
    Array,
    Struct,
}
