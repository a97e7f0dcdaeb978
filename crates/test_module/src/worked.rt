//! Texts that are read and written again, and worked modules.

use dfi_base::Memory;
use module_text::{TextFault, WriteFault, read_module, write_module};
use std::alloc::{AllocError, Global};
use tac_ir::Module;
use test_samples::{branches, calls, nests, stops, stores};

/// The text of the module, and none where it is too long.
fn text_of(alloc: Global, module: &Module) -> Result<Option<Vec<u8>>, Memory> {
    match write_module(alloc, module) {
        Ok(bytes) => Ok(Some(bytes)),
        Err(WriteFault::Long) => Ok(None),
        Err(WriteFault::Memory) => Err(Memory),
    }
}

/// What comes of writing the module that was read from the bytes.
fn tell_again(alloc: Global, bytes: &[u8], module: &Module) -> Result<Vec<u8>, Memory> {
    let again = text_of(alloc, module)?;
    let words = match &again {
        None => "read, and too long to be written",
        Some(other) if other.as_slice() == bytes => "read, and written the same",
        Some(_other) => "read, and written in another way",
    };
    let mut text = String::new(alloc);
    writeln!(text, "{words}")?;
    Ok(text.into_bytes())
}

fn tell_fault(alloc: Global, fault: TextFault) -> Result<Vec<u8>, Memory> {
    let mut text = String::new(alloc);
    match fault {
        TextFault::Long => writeln!(text, "too long")?,
        TextFault::Version { found } => writeln!(text, "version {found}")?,
        TextFault::At { at } => writeln!(text, "refused at {at}")?,
        TextFault::Memory => return Err(Memory),
    }
    Ok(text.into_bytes())
}

/// Reads the bytes, and writes what was read.
pub fn tell_read(alloc: Global, bytes: &[u8]) -> Result<Vec<u8>, Memory> {
    match read_module(alloc, bytes) {
        Ok(module) => tell_again(alloc, bytes, &module),
        Err(fault) => tell_fault(alloc, fault),
    }
}

/// The worked module of this name.
fn worked(alloc: Global, name: &str) -> Option<Result<Module, AllocError>> {
    match name {
        "branching" => Some(branches::branching(alloc)),
        "deepening" => Some(branches::deepening(alloc)),
        "sharing" => Some(branches::sharing(alloc)),
        "looping" => Some(calls::looping(alloc)),
        "working" => Some(calls::working(alloc)),
        "endless" => Some(calls::endless(alloc)),
        "endless_large" => Some(calls::endless_large(alloc)),
        "overrun" => Some(calls::overrun(alloc)),
        "diverted" => Some(calls::diverted(alloc)),
        "fourteen" => Some(nests::fourteen(alloc)),
        "fifteen" => Some(nests::fifteen(alloc)),
        "neighbour" => Some(stops::neighbour(alloc)),
        "wild" => Some(stops::wild(alloc)),
        "freeing" => Some(stops::freeing(alloc)),
        "dividing" => Some(stops::dividing(alloc)),
        "unset" => Some(stores::unset(alloc)),
        "reusing" => Some(stores::reusing(alloc)),
        "reading" => Some(stores::reading(alloc)),
        _ => None,
    }
}

/// Writes the module, and reads it.
fn tell_module(alloc: Global, module: &Module) -> Result<Vec<u8>, Memory> {
    match text_of(alloc, module)? {
        Some(bytes) => tell_read(alloc, &bytes),
        None => Ok(Vec::from_slice(alloc, b"too long\n")?),
    }
}

/// Writes the worked module of this name, and reads it.
pub fn tell_worked(alloc: Global, name: &str) -> Result<Vec<u8>, Memory> {
    match worked(alloc, name) {
        Some(Ok(module)) => tell_module(alloc, &module),
        Some(Err(_)) => Err(Memory),
        None => Ok(Vec::from_slice(alloc, b"no such module\n")?),
    }
}
