use crate::token::{Mark, Word};

/// What a piece of a source is: white space or a comment, a token, or no token.
#[derive(Clone, Copy, Drop)]
pub enum Piece {
    /// One byte of white space, or a whole comment.
    Gap,
    Word(Word),
    /// An identifier.
    Name,
    Number(i32),
    Mark(Mark),
    /// A run of letters and digits that begins with a digit and is no constant.
    BadNumber,
    /// A constant above 2147483647.
    BigNumber,
    /// A `/*` with no `*/` behind it.
    OpenComment,
}
