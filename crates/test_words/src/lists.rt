//! Lists of numbers.

ghost use Rattle.std.specs.Prelude.{◌≤◌, IfOk, length};

use dfi_base::{Memory, Name};
use number_lists::{ListFault, read_input, read_names};
use std::alloc::Global;
use test_base::Halt;

/// The greatest length of a list of the table, in bytes.
const LONGEST: usize = 4096;

// The byte that a byte of the table stands for.
fn byte_of(byte: u8) -> u8 {
    match byte {
        b'$' => b'\n',
        b'~' => b'\t',
        b'^' => b'\r',
        b'#' => 0x0b,
        other => other,
    }
}

// The bytes of a list.
fn bytes_of(alloc: Global, rest: &str) -> Result<Vec<u8>, Memory> {
    let mut bytes = Vec::new(alloc);
    for byte in rest.as_bytes() {
        bytes.push(byte_of(*byte))?;
    }
    Ok(bytes)
}

// The same, where the list is not too long for the table.
fn short_bytes(alloc: Global, rest: &str) -> Result<Vec<u8>, Halt>
    ensures { IfOk result (λ bytes. length bytes.items ≤ 4096) }
{
    let bytes = bytes_of(alloc, rest)?;
    if bytes.len() > LONGEST {
        return Err(Halt::Long);
    }
    Ok(bytes)
}

// Where a list is refused.
fn tell_fault(alloc: Global, fault: &ListFault) -> Result<Vec<u8>, Memory> {
    match fault {
        ListFault::Refused { at } => {
            let mut text = String::new(alloc);
            writeln!(text, "refused at {at}")?;
            Ok(text.into_bytes())
        }
        ListFault::Memory => Err(Memory),
    }
}

fn tell_numbers(alloc: Global, numbers: &[i32]) -> Result<Vec<u8>, Memory> {
    let mut text = String::new(alloc);
    write!(text, "numbers")?;
    for number in numbers {
        write!(text, " {number}")?;
    }
    writeln!(text)?;
    Ok(text.into_bytes())
}

/// The numbers of an input.
pub fn tell_input(alloc: Global, rest: &str) -> Result<Vec<u8>, Halt> {
    let bytes = short_bytes(alloc, rest)?;
    match read_input(alloc, &bytes) {
        Ok(numbers) => Ok(tell_numbers(alloc, &numbers)?),
        Err(fault) => Ok(tell_fault(alloc, &fault)?),
    }
}

fn tell_list(alloc: Global, names: &[Name]) -> Result<Vec<u8>, Memory> {
    let mut text = String::new(alloc);
    write!(text, "names")?;
    for name in names {
        write!(text, " {}", name.0)?;
    }
    writeln!(text)?;
    Ok(text.into_bytes())
}

/// The names of a list.
pub fn tell_names(alloc: Global, rest: &str) -> Result<Vec<u8>, Halt> {
    let bytes = short_bytes(alloc, rest)?;
    match read_names(alloc, &bytes) {
        Ok(names) => Ok(tell_list(alloc, &names)?),
        Err(fault) => Ok(tell_fault(alloc, &fault)?),
    }
}
