ghost use Rattle.std.specs.Prelude.{◌≡◌, ◌++◌, ◌∷◌, [], IfOk, codes};

use dfi_base::Memory;
use dfi_top::Ended;
use std::alloc::Global;

/// How the text of a call is shown.
#[derive(Clone, Copy)]
pub enum Shown {
    Text,
    Length,
}

/// A line that is no order.
pub fn tell_unknown(alloc: Global, line: &str) -> Result<Vec<u8>, Memory>
    ensures { IfOk result (λ text. text.items ≡ codes "unknown line: " ++ line.now ++ 10 ∷ []) }
{
    let mut text = String::new(alloc);
    writeln!(text, "unknown line: {line}")?;
    Ok(text.into_bytes())
}

// Ends a text that has no newline at its end, and says so.
fn end_line(text: &mut Vec<u8>) -> Result<(), Memory> {
    match text.last() {
        None | Some(b'\n') => Ok(()),
        Some(_) => {
            text.extend_from_slice(b"\n(no newline)\n")?;
            Ok(())
        }
    }
}

fn tell_length(alloc: Global, bytes: &[u8]) -> Result<Vec<u8>, Memory> {
    let mut text = String::new(alloc);
    writeln!(text, "length {}", bytes.len())?;
    Ok(text.into_bytes())
}

fn tell_bytes(alloc: Global, bytes: &[u8]) -> Result<Vec<u8>, Memory> {
    let mut text = Vec::from_slice(alloc, bytes)?;
    end_line(&mut text)?;
    Ok(text)
}

/// What a call wrote, its status and the number of its events.
pub fn tell_call(
    alloc: Global,
    written: &[u8],
    shown: Shown,
    ended: &Ended,
) -> Result<Vec<u8>, Memory> {
    let mut text = match shown {
        Shown::Text => tell_bytes(alloc, written)?,
        Shown::Length => tell_length(alloc, written)?,
    };
    let mut last = String::new(alloc);
    let entries = ended.journal.entries.len();
    writeln!(last, "status {}, entries {entries}", ended.status)?;
    text.extend_from_slice(last.as_bytes())?;
    Ok(text)
}
