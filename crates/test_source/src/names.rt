//! Names as text.

use dfi_base::{Line, Memory, Text};

/// Writes each byte as the letter of its number.
pub fn push_bytes(text: &mut String, bytes: &[u8]) -> Result<(), Memory> {
    for byte in bytes {
        text.push(char::from(*byte))?;
    }
    Ok(())
}

/// Writes the names in the order of their numbers, and the line of the last byte.
pub fn write_names(text: &mut String, names: &[Text], last: Line) -> Result<(), Memory> {
    text.push_str("names")?;
    for name in names {
        text.push(' ')?;
        push_bytes(text, name.bytes())?;
    }
    write!(text, " last {}", last.0)?;
    Ok(())
}
