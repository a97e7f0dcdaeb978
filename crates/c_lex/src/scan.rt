//! The piece at the front of bytes.
ghost use Rattle.std.specs.Prelude.{◌≡◌, ◌≤◌, length};
ghost use Rattle.std.specs.List.{prefix_len};
ghost use Rattle.c_lex.specs.Bytes.{is_white, is_word_byte};
ghost use Rattle.c_lex.specs.PieceOf.{run_piece};
ghost use Rattle.c_lex.specs.tools.Scanning.{piece_at};

use crate::comment::{block_comment, line_comment_length};
use crate::constant::constant_of;
use crate::mark::mark_at;
use crate::piece::Piece;
use crate::word::word_of;

fn is_white(byte: u8) -> bool
    ensures { result ≡ is_white byte }
{
    byte == b' ' || (9 <= byte && byte <= 13)
}

fn is_word_byte(byte: u8) -> bool
    ensures { result ≡ is_word_byte byte }
{
    byte.is_ascii_alphabetic() || byte == b'_' || byte.is_ascii_digit()
}

/// How many letters, digits and `_` stand at the front.
fn run_length(bytes: &[u8]) -> usize
    ensures length { result ≡ prefix_len is_word_byte bytes.now }
    ensures within { result ≤ length bytes.now }
{
    bytes.iter().take_while(|byte| is_word_byte(**byte)).count()
}

/// What a run of letters, digits and `_` is.
fn run_piece(run: &[u8]) -> Piece
    ensures { result ≡ run_piece run.now }
{
    let [first, ..] = run else {
        return Piece::Name;
    };
    if first.is_ascii_digit() {
        return constant_of(run);
    }
    match word_of(run) {
        None => Piece::Name,
        Some(word) => Piece::Word(word),
    }
}

/// The piece that the bytes begin with, and its length.
#[tactic(auto, unfolding(crate::specs::tools::Scanning::piece_at))]
pub fn piece_at(bytes: &[u8]) -> Option<(usize, Piece)>
    ensures { result ≡ piece_at bytes.now }
{
    let [first, ..] = bytes else {
        return None;
    };
    if is_white(*first) {
        return Some((1, Piece::Gap));
    }
    if is_word_byte(*first) {
        let length = run_length(bytes);
        return Some((length, run_piece(&bytes[..length])));
    }
    if bytes.starts_with(b"//") {
        return Some((line_comment_length(bytes), Piece::Gap));
    }
    if bytes.starts_with(b"/*") {
        return Some(block_comment(bytes));
    }
    let (length, mark) = mark_at(bytes)?;
    Some((length, Piece::Mark(mark)))
}
