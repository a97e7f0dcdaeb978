ghost use Rattle.std.specs.Prelude.{◌≡◌, length, nat_eq};
ghost use Rattle.std.specs.List.{starts_with};
ghost use Rattle.c_lex.specs.Marks.{mark_text, same_mark};
ghost use Rattle.c_lex.specs.Words.{found_text, look_up};
ghost use Rattle.c_lex.specs.tools.Scanning.{mark_at};

use crate::token::Mark;

/// The marks and how they are written, longer ones first.
const MARKS: [(&str, Mark); 43] = [
    ("<<=", Mark::ShiftLeftAssign),
    (">>=", Mark::ShiftRightAssign),
    ("->", Mark::Arrow),
    ("<=", Mark::LessEqual),
    (">=", Mark::GreaterEqual),
    ("==", Mark::Equal),
    ("!=", Mark::NotEqual),
    ("&&", Mark::AndAnd),
    ("||", Mark::OrOr),
    ("<<", Mark::ShiftLeft),
    (">>", Mark::ShiftRight),
    ("+=", Mark::PlusAssign),
    ("-=", Mark::MinusAssign),
    ("*=", Mark::StarAssign),
    ("/=", Mark::SlashAssign),
    ("%=", Mark::PercentAssign),
    ("&=", Mark::AndAssign),
    ("|=", Mark::OrAssign),
    ("^=", Mark::XorAssign),
    ("++", Mark::PlusPlus),
    ("--", Mark::MinusMinus),
    ("{", Mark::OpenBrace),
    ("}", Mark::CloseBrace),
    ("(", Mark::OpenParen),
    (")", Mark::CloseParen),
    ("[", Mark::OpenBracket),
    ("]", Mark::CloseBracket),
    (";", Mark::Semicolon),
    (",", Mark::Comma),
    (".", Mark::Dot),
    ("=", Mark::Assign),
    ("+", Mark::Plus),
    ("-", Mark::Minus),
    ("*", Mark::Star),
    ("/", Mark::Slash),
    ("%", Mark::Percent),
    ("&", Mark::And),
    ("|", Mark::Or),
    ("^", Mark::Xor),
    ("~", Mark::Tilde),
    ("!", Mark::Not),
    ("<", Mark::Less),
    (">", Mark::Greater),
];

/// The first mark of a table that the bytes begin with, and its length.
fn first_of(table: &[(&str, Mark)], bytes: &[u8]) -> Option<(usize, Mark)>
    ensures { result ≡ look_up (λ row. starts_with nat_eq bytes.now row.0.now) (λ row. (length row.0.now, row.1)) table.now }
{
    for row in table {
        if bytes.starts_with(row.0.as_bytes()) {
            return Some((row.0.len(), row.1));
        }
    }
    None
}

/// The longest mark that the bytes begin with, and its length.
#[tactic(auto, unfolding(crate::specs::tools::Scanning::mark_at, crate::specs::Marks::spellings))]
pub fn mark_at(bytes: &[u8]) -> Option<(usize, Mark)>
    ensures { result ≡ mark_at bytes.now }
{
    first_of(&MARKS, bytes)
}

/// The text beside a mark in a table.
fn text_beside(table: &[(&'static str, Mark)], mark: Mark) -> &'static str
    ensures { result.now ≡ found_text (look_up (λ row. same_mark row.1 mark) (λ row. row.0.now) table.now) }
{
    for row in table {
        if row.1 == mark {
            return row.0;
        }
    }
    ""
}

/// How a mark is written.
#[tactic(auto, unfolding(crate::specs::Marks::mark_text, crate::specs::Marks::spellings))]
pub fn mark_text(mark: Mark) -> &'static str
    ensures { result.now ≡ mark_text mark }
{
    text_beside(&MARKS, mark)
}
