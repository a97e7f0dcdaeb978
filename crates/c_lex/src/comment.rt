//! Comments (C99 6.4.9).
ghost use Rattle.std.specs.Prelude.{◌≡◌, ◌≤◌, length, IfSome};
ghost use Rattle.c_lex.specs.tools.Scanning.{close_at, line_comment_length, block_comment};

use crate::piece::Piece;

/// The length of a comment at the front of the bytes that ends with its line, without the newline.
pub fn line_comment_length(bytes: &[u8]) -> usize
    ensures { result ≡ line_comment_length bytes.now }
{
    bytes.iter().take_while(|byte| **byte != b'\n').count()
}

/// How many bytes come before the end of the first `*/`.
#[tactic(auto, unfolding(crate::specs::tools::Scanning::close_at))]
fn close_at(bytes: &[u8]) -> Option<usize>
    ensures place { result ≡ close_at bytes.now }
    ensures within { IfSome result (λ n. n ≤ length bytes.now) }
{
    let mut rest = bytes;
    let mut before = 0;
    while let [_, after @ ..] = rest {
        if rest.starts_with(b"*/") {
            return Some(before + 2);
        }
        rest = after;
        before += 1;
    }
    None
}

/// The comment that the bytes begin with by `/*`, and its length.
#[tactic(auto, unfolding(crate::specs::tools::Scanning::block_comment))]
pub fn block_comment(bytes: &[u8]) -> (usize, Piece)
    requires { 2 ≤ length bytes.now }
    ensures { result ≡ block_comment bytes.now }
{
    match close_at(&bytes[2..]) {
        None => (bytes.len(), Piece::OpenComment),
        Some(inside) => (inside + 2, Piece::Gap),
    }
}
