ghost use Rattle.std.specs.Prelude.{◌≡◌, ◌-◌, ◌≤◌, ◌<◌, ◌+◌, ◌^◌, length, IfErr, IfOk, IfSome, IsTrue, MatchOption, OnOk};
ghost use Rattle.dfi_base.specs.Limits.{token_limit};
ghost use Rattle.c_lex.specs.Bytes.{line_at, newlines};
ghost use Rattle.c_lex.specs.FirstFault.{is_token, GivesMeaning, Tells};
ghost use Rattle.c_lex.specs.IsLexed.{LexesTo};
ghost use Rattle.c_lex.specs.IsPiece.{NoPiece, IsPiece};
ghost use Rattle.c_lex.specs.tools.Reading.{fault_of, is_gap, names_with, IsAdded, IsRead, Overflows};
ghost use Rattle.c_lex.specs.Tokens.{IsKind};

use crate::fault::LexFault;
use crate::lexed::Lexed;
use crate::names::Names;
use crate::piece::Piece;
use crate::scan::piece_at;
use crate::token::{Kind, Token};
use dfi_base::limits::TOKEN_LIMIT;
use dfi_base::{Line, Memory};
use sqlite_items::Items;
use std::alloc::Global;

/// How many newlines a text has: a line's number is one more than those before it.
pub fn newlines(text: &[u8]) -> usize
    ensures value { result ≡ newlines text.now }
    ensures small { result ≤ length text.now }
{
    text.iter().filter(|byte| **byte == b'\n').count()
}

/// The fault that a piece is at this place, if any.
fn fault_of(piece: Piece, at: u32) -> Option<LexFault>
    ensures { result ≡ fault_of piece at }
{
    match piece {
        Piece::BadNumber => Some(LexFault::BadNumber { at }),
        Piece::BigNumber => Some(LexFault::BigNumber { at }),
        Piece::OpenComment => Some(LexFault::OpenComment { at }),
        _ => None,
    }
}

fn is_gap(piece: Piece) -> bool
    ensures { result ≡ is_gap piece }
{
    matches!(piece, Piece::Gap)
}

/// The kind of a token with this text. Its name is added where it is new.
fn kind_of<'a>(names: &mut Names<'a>, text: &'a [u8], piece: Piece) -> Result<Kind, Memory>
    requires token { IsTrue (is_token piece) }
    requires few { length names.old < 2 ^ 31 }
    ensures names { OnOk result (names.new ≡ names_with names.old text.now piece) }
    ensures kind { IfOk result (λ kind. IsKind names.new text.now piece kind) }
{
    match piece {
        Piece::Word(word) => Ok(Kind::Word(word)),
        Piece::Name => Ok(Kind::Id(names.number(text)?)),
        Piece::Number(number) => Ok(Kind::Num(number)),
        Piece::Mark(mark) => Ok(Kind::Mark(mark)),
        _ => unreachable!(),
    }
}

/// The piece that stands at this place, and the place behind it.
fn piece_from(bytes: &[u8], at: usize) -> Option<(usize, Piece)>
    requires { at < length bytes.now }
    ensures piece { MatchOption result (NoPiece bytes.now at) (λ found. IsPiece bytes.now at found.0 found.1) }
    ensures further { IfSome result (λ found. at < found.0) }
    ensures within { IfSome result (λ found. found.0 ≤ length bytes.now) }
{
    let (length, piece) = piece_at(&bytes[at..])?;
    Some((at + length, piece))
}

/// What was read so far: tokens, names, and the line that was reached.
#[derive(Drop)]
struct Found<'a> {
    tokens: Items<Token>,
    names: Names<'a>,
    line: u32,
}

impl<'a> Found<'a> {
    /// Adds a token with this text, which starts at this place.
    fn add_token(&mut self, text: &'a [u8], piece: Piece, start: u32) -> Result<(), LexFault>
        requires token { IsTrue (is_token piece) }
        requires few { length self.old.names < 2 ^ 31 }
        requires limit { length self.old.tokens ≤ token_limit }
        requires fits { start + length text.now < 2 ^ 32 }
        ensures added { OnOk result (IsAdded self.old.tokens text.now piece start self.old.line self.new.tokens self.new.names) }
        ensures names { OnOk result (self.new.names ≡ names_with self.old.names text.now piece) }
        ensures line { self.new.line ≡ self.old.line }
        ensures fault { IfErr result (λ fault. Overflows (length self.old.tokens) start fault) }
    {
        if self.tokens.len() == TOKEN_LIMIT as usize {
            return Err(LexFault::TooMany { at: start });
        }
        let kind = kind_of(&mut self.names, text, piece)?;
        self.tokens.push(Token {
            kind,
            start,
            end: start + text.len() as u32,
            line: Line(self.line),
        })?;
        Ok(())
    }

    /// Takes the piece that stands at this place, and gives the place behind it.
    fn take_piece(&mut self, bytes: &'a [u8], at: usize) -> Result<usize, LexFault>
        requires small { length bytes.now < 2 ^ 31 }
        requires left { at < length bytes.now }
        requires read { IsRead bytes.now self.old.tokens self.old.names self.old.line at }
        ensures read { IfOk result (λ end. IsRead bytes.now self.new.tokens self.new.names self.new.line end) }
        ensures further { IfOk result (λ end. at < end) }
        ensures fault { IfErr result (λ fault. Tells bytes.now fault) }
    {
        let start = at as u32;
        let Some((end, piece)) = piece_from(bytes, at) else {
            return Err(LexFault::BadByte { at: start });
        };
        if let Some(fault) = fault_of(piece, start) {
            return Err(fault);
        }
        let text = &bytes[at..end];
        if !is_gap(piece) {
            self.add_token(text, piece, start)?;
        }
        self.line += newlines(text) as u32;
        Ok(end)
    }
}

/// The line of the last byte, where the line behind all bytes is this one.
fn last_line(bytes: &[u8], line: u32) -> u32
    requires { line ≡ line_at bytes.now (length bytes.now) }
    ensures { result ≡ line_at bytes.now (length bytes.now - 1) }
{
    match bytes {
        [.., b'\n'] => line - 1,
        _ => line,
    }
}

/// The tokens of these bytes, the names in them, and the line of the last byte.
pub fn lex(alloc: Global, bytes: &[u8]) -> Result<Lexed, LexFault>
    requires { length bytes.now < 2 ^ 31 }
    // What is answered is what the bytes mean.
    ensures tokens { IfOk result (λ lexed. LexesTo bytes.now lexed) }
    ensures fault { IfErr result (λ fault. Tells bytes.now fault) }
    // Whatever the bytes mean is answered, unless memory was wanted.
    ensures whole { GivesMeaning bytes.now result }
{
    let mut found = Found {
        tokens: Items::new(alloc),
        names: Names::new(alloc),
        line: 1,
    };
    let mut at = 0;
    while at < bytes.len() {
        at = found.take_piece(bytes, at)?;
    }
    let Found {
        tokens,
        names,
        line,
    } = found;
    Ok(Lexed {
        tokens,
        names: names.texts(alloc)?,
        last: Line(last_line(bytes, line)),
    })
}
