//! Tokens (C99 6.4, in this profile).

use dfi_base::Line;

/// A reserved word. `Unused` is any keyword of C99 (6.4.1) for which the grammar has no use.
#[derive(Clone, Copy, PartialEq, Eq, Drop)]
pub enum Word {
    Int,
    Void,
    Struct,
    If,
    Else,
    While,
    For,
    Return,
    Break,
    Continue,
    Par,
    Sizeof,
    Null,
    Unused,
}

/// A punctuator (C99 6.4.6).
#[derive(Clone, Copy, PartialEq, Eq, Drop)]
pub enum Mark {
    OpenBrace,
    CloseBrace,
    OpenParen,
    CloseParen,
    OpenBracket,
    CloseBracket,
    Semicolon,
    Comma,
    Dot,
    Arrow,
    Assign,
    Plus,
    Minus,
    Star,
    Slash,
    Percent,
    And,
    Or,
    Xor,
    Tilde,
    Not,
    Less,
    Greater,
    LessEqual,
    GreaterEqual,
    Equal,
    NotEqual,
    AndAnd,
    OrOr,
    ShiftLeft,
    ShiftRight,
    PlusAssign,
    MinusAssign,
    StarAssign,
    SlashAssign,
    PercentAssign,
    AndAssign,
    OrAssign,
    XorAssign,
    ShiftLeftAssign,
    ShiftRightAssign,
    PlusPlus,
    MinusMinus,
}

/// What a token is. An identifier is the number of its name, by the order in which names are first seen.
#[derive(Clone, Copy, PartialEq, Eq, Drop)]
pub enum Kind {
    Word(Word),
    Id(u32),
    Num(i32),
    Mark(Mark),
}

/// A token, the bytes `start..end` of the source at which it stands, and the line of its first byte.
#[derive(Drop)]
pub struct Token {
    pub kind: Kind,
    pub start: u32,
    pub end: u32,
    pub line: Line,
}
