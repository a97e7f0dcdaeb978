//! The source that a text of the table stands for.

use dfi_base::Memory;
use std::alloc::Global;

// What a hexadecimal digit counts, and 0 for any other byte.
fn digit(byte: u8) -> u8 {
    match byte {
        b'0'..=b'9' => byte - b'0',
        b'a'..=b'f' => byte - b'a' + 10,
        _ => 0,
    }
}

// Two digits, of which the first counts for sixteen.
fn byte_of(high: u8, low: u8) -> u8 {
    (digit(high) << 4) | digit(low)
}

// The byte that the text begins with, and the text behind it.
fn first_byte(text: &[u8]) -> Option<(u8, &[u8])> {
    match text {
        [b'\\', b'x', high, low, rest @ ..] => Some((byte_of(*high, *low), rest)),
        [b'$', rest @ ..] => Some((b'\n', rest)),
        [byte, rest @ ..] => Some((*byte, rest)),
        [] => None,
    }
}

fn push_piece(source: &mut Vec<u8>, piece: &[u8]) -> Result<(), Memory> {
    let mut rest = piece;
    for _ in 0..piece.len() {
        let Some((byte, behind)) = first_byte(rest) else {
            return Ok(());
        };
        source.push(byte)?;
        rest = behind;
    }
    Ok(())
}

fn repeat_piece(source: &mut Vec<u8>, piece: &str, times: u32) -> Result<(), Memory> {
    for _ in 0..times {
        push_piece(source, piece.as_bytes())?;
    }
    Ok(())
}

/// The source that a text stands for, where what is repeated stands so many times.
pub fn source_of(alloc: Global, text: &str, times: u32) -> Result<Vec<u8>, Memory> {
    let mut source = Vec::new(alloc);
    let mut repeated = false;
    for piece in text.split('@') {
        repeat_piece(&mut source, piece, if repeated { times } else { 1 })?;
        repeated = !repeated;
    }
    Ok(source)
}
