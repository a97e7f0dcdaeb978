//! The held text, changed.

use crate::plain::fault;
use dfi_base::Memory;
use module_text::{TextFault, read_module};
use std::alloc::Global;

const BYTES: [u8; 5] = [b'0', b' ', b'\n', b'-', b'x'];

/// Where the bytes are refused, if they are; the limit and the version do not matter here.
pub fn place(alloc: Global, bytes: &[u8]) -> Result<Option<u64>, Memory> {
    match read_module(alloc, bytes) {
        Ok(_) => Ok(None),
        Err(TextFault::At { at }) => Ok(Some(at)),
        Err(TextFault::Memory) => Err(Memory),
        Err(TextFault::Long) | Err(TextFault::Version { .. }) => Ok(Some(u64::MAX)),
    }
}

/// The same, told by the plain reader.
fn plain_place(bytes: &[u8]) -> Option<u64> {
    match fault(bytes) {
        Ok(()) => None,
        Err(at) => Some(at as u64),
    }
}

/// Whether each front of the text is refused at its own length.
pub fn tell_cuts(alloc: Global, held: &[u8]) -> Result<Vec<u8>, Memory> {
    let mut text = String::new(alloc);
    for length in 0..held.len() {
        let answer = place(alloc, &held[..length])?;
        if answer != Some(length as u64) {
            writeln!(text, "cut to {length}: not refused at its end")?;
            return Ok(text.into_bytes());
        }
    }
    writeln!(text, "{} cuts, each refused at its end", held.len())?;
    Ok(text.into_bytes())
}

/// How many texts of modules were found, or the place of a text for which the two readers differ.
fn change_at(alloc: Global, held: &[u8], index: usize) -> Result<Result<u64, u8>, Memory> {
    let mut changed = Vec::from_slice(alloc, held)?;
    let mut modules = 0_u64;
    for byte in BYTES {
        if let Some(place) = changed.get_mut(index) {
            *place = byte;
        }
        let answer = place(alloc, &changed)?;
        if answer != plain_place(&changed) {
            return Ok(Err(byte));
        }
        if answer.is_none() {
            modules = modules.saturating_add(1);
        }
    }
    Ok(Ok(modules))
}

/// Each byte of the text is changed.
pub fn tell_changes(alloc: Global, held: &[u8]) -> Result<Vec<u8>, Memory> {
    let mut text = String::new(alloc);
    let mut modules = 0_u64;
    for index in 0..held.len() {
        match change_at(alloc, held, index)? {
            Ok(more) => modules = modules.saturating_add(more),
            Err(byte) => {
                writeln!(text, "byte {byte} at {index}: the two readers differ")?;
                return Ok(text.into_bytes());
            }
        }
    }
    let texts = held.len().saturating_mul(5);
    writeln!(text, "{texts} texts read alike, {modules} of modules")?;
    Ok(text.into_bytes())
}
