use obj_mem::{SrcAnswer, Value};

/// What a thread hears: the answer of an event, or, behind a fork, which branch of it this is.
#[derive(Clone, Copy, Debug)]
pub enum Heard {
    Answer(SrcAnswer),
    Branch(u32),
}

/// How a statement ends.
#[derive(Clone, Copy, Debug)]
pub enum End {
    Done,
    Broken,
    Again,
    Returned(Value),
}
