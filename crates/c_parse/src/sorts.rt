//! What the next token can begin, for the forms that ask.

ghost use Rattle.std.specs.Prelude.{◌≡◌};
ghost use Rattle.c_parse.specs.tools.Sorts as spec;
ghost use Rattle.c_parse.specs.tools.StmtParser as stmts;

use crate::operators::assign_op;
use c_lex::{Kind, Mark, Word};

/// The first word of a type.
#[derive(Clone, Copy)]
pub enum BaseWord {
    Int,
    Struct,
    Other,
}

pub fn base_word(kind: Option<Kind>) -> BaseWord
    ensures { result ≡ spec.base_word kind }
{
    match kind {
        Some(Kind::Word(Word::Int)) => BaseWord::Int,
        Some(Kind::Word(Word::Struct)) => BaseWord::Struct,
        _ => BaseWord::Other,
    }
}

/// What stands between the parentheses of a function.
#[derive(Clone, Copy)]
pub enum ListStart {
    Empty,
    Void,
    List,
}

pub fn list_start(kind: Option<Kind>) -> ListStart
    ensures { result ≡ spec.list_start kind }
{
    match kind {
        None | Some(Kind::Mark(Mark::CloseParen)) => ListStart::Empty,
        Some(Kind::Word(Word::Void)) => ListStart::Void,
        _ => ListStart::List,
    }
}

/// How an operand begins.
#[derive(Clone, Copy)]
pub enum OperandStart {
    Prefix,
    Paren,
    Number,
    Null,
    Name,
    Sizeof,
    Other,
}

pub fn operand_start(kind: Option<Kind>) -> OperandStart
    ensures { result ≡ spec.operand_start kind }
{
    match kind {
        Some(
            Kind::Mark(Mark::Minus | Mark::Plus | Mark::Not | Mark::Tilde | Mark::Star | Mark::And),
        ) => OperandStart::Prefix,
        Some(Kind::Mark(Mark::OpenParen)) => OperandStart::Paren,
        Some(Kind::Num(_)) => OperandStart::Number,
        Some(Kind::Id(_)) => OperandStart::Name,
        Some(Kind::Word(Word::Null)) => OperandStart::Null,
        Some(Kind::Word(Word::Sizeof)) => OperandStart::Sizeof,
        _ => OperandStart::Other,
    }
}

/// What follows an operand and belongs to it.
#[derive(Clone, Copy)]
pub enum SuffixStart {
    Index,
    Field,
    Arrow,
    Other,
}

pub fn suffix_start(kind: Option<Kind>) -> SuffixStart
    ensures { result ≡ spec.suffix_start kind }
{
    match kind {
        Some(Kind::Mark(Mark::OpenBracket)) => SuffixStart::Index,
        Some(Kind::Mark(Mark::Dot)) => SuffixStart::Field,
        Some(Kind::Mark(Mark::Arrow)) => SuffixStart::Arrow,
        _ => SuffixStart::Other,
    }
}

/// A type comes next.
pub fn is_base(kind: Option<Kind>) -> bool
    ensures { result ≡ spec.is_base kind }
{
    !matches!(base_word(kind), BaseWord::Other)
}

/// An operand comes next.
pub fn is_operand(kind: Option<Kind>) -> bool
    ensures { result ≡ spec.is_operand kind }
{
    !matches!(operand_start(kind), OperandStart::Other)
}

pub fn is_suffix(kind: Option<Kind>) -> bool
    ensures { result ≡ spec.is_suffix kind }
{
    !matches!(suffix_start(kind), SuffixStart::Other)
}

/// What may stand behind the operand that a simple statement begins with.
#[derive(Clone, Copy)]
pub enum SubjectEnd {
    Assign,
    Increment,
    Decrement,
    Other,
}

pub fn subject_end(kind: Option<Kind>) -> SubjectEnd
    ensures { result ≡ spec.subject_end kind }
{
    match kind {
        Some(Kind::Mark(Mark::PlusPlus)) => SubjectEnd::Increment,
        Some(Kind::Mark(Mark::MinusMinus)) => SubjectEnd::Decrement,
        Some(Kind::Mark(mark)) if assign_op(mark).is_some() => SubjectEnd::Assign,
        _ => SubjectEnd::Other,
    }
}

/// How a statement begins.
#[derive(Clone, Copy)]
pub enum StmtStart {
    Block,
    Empty,
    Return,
    Break,
    Continue,
    If,
    While,
    For,
    Par,
    Simple,
    Other,
}

fn word_start(word: Word) -> StmtStart
    ensures { result ≡ spec.word_start word }
{
    match word {
        Word::Return => StmtStart::Return,
        Word::Break => StmtStart::Break,
        Word::Continue => StmtStart::Continue,
        Word::If => StmtStart::If,
        Word::While => StmtStart::While,
        Word::For => StmtStart::For,
        Word::Par => StmtStart::Par,
        Word::Null | Word::Sizeof => StmtStart::Simple,
        _ => StmtStart::Other,
    }
}

fn mark_start(mark: Mark) -> StmtStart
    ensures { result ≡ spec.mark_start mark }
{
    match mark {
        Mark::OpenBrace => StmtStart::Block,
        Mark::Semicolon => StmtStart::Empty,
        Mark::PlusPlus
        | Mark::MinusMinus
        | Mark::OpenParen
        | Mark::Minus
        | Mark::Plus
        | Mark::Not
        | Mark::Tilde
        | Mark::Star
        | Mark::And => StmtStart::Simple,
        _ => StmtStart::Other,
    }
}

pub fn stmt_start(kind: Option<Kind>) -> StmtStart
    ensures { result ≡ spec.stmt_start kind }
{
    match kind {
        Some(Kind::Word(word)) => word_start(word),
        Some(Kind::Mark(mark)) => mark_start(mark),
        Some(_) => StmtStart::Simple,
        None => StmtStart::Other,
    }
}

/// A statement comes next.
pub fn is_stmt(kind: Option<Kind>) -> bool
    ensures { result ≡ spec.is_stmt kind }
{
    !matches!(stmt_start(kind), StmtStart::Other)
}

/// How an item of a program begins.
#[derive(Clone, Copy)]
pub enum ItemStart {
    Int,
    Struct,
    Void,
    Other,
}

pub fn item_start(kind: Option<Kind>) -> ItemStart
    ensures { result ≡ spec.item_start kind }
{
    match kind {
        Some(Kind::Word(Word::Int)) => ItemStart::Int,
        Some(Kind::Word(Word::Struct)) => ItemStart::Struct,
        Some(Kind::Word(Word::Void)) => ItemStart::Void,
        _ => ItemStart::Other,
    }
}

/// The mark comes next, or the source ends.
pub fn is_end(mark: Mark, kind: Option<Kind>) -> bool
    ensures { result ≡ stmts.is_end mark kind }
{
    match kind {
        Some(Kind::Mark(found)) => found == mark,
        Some(_) => false,
        None => true,
    }
}

/// A token comes next that is no closing brace.
pub fn is_open(kind: Option<Kind>) -> bool
    ensures { result ≡ stmts.is_open kind }
{
    match kind {
        Some(Kind::Mark(found)) => found != Mark::CloseBrace,
        Some(_) => true,
        None => false,
    }
}
