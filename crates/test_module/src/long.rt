//! Texts at the limit of length.

use dfi_base::Memory;
use module_text::{TextFault, WriteFault, read_module, write_module};
use sqlite_items::Items;
use std::alloc::Global;
use tac_ir::{Classes, Code, Module, Points, Sets, Size};

/// What reading so many zero bytes behind the front answers.
pub fn tell_long(alloc: Global, front: &[u8], length: usize) -> Result<Vec<u8>, Memory> {
    let mut bytes = Vec::from_slice(alloc, front)?;
    bytes.resize(length, 0)?;
    let mut text = String::new(alloc);
    match read_module(alloc, &bytes) {
        Ok(_) => writeln!(text, "read")?,
        Err(TextFault::Long) => writeln!(text, "too long")?,
        Err(TextFault::Version { found }) => writeln!(text, "version {found}")?,
        Err(TextFault::At { at }) => writeln!(text, "refused at {at}")?,
        Err(TextFault::Memory) => return Err(Memory),
    }
    Ok(text.into_bytes())
}

fn no_code(alloc: Global) -> Code {
    Code {
        shapes: Items::new(alloc),
        globals: Items::new(alloc),
        sites: Items::new(alloc),
        main: 0,
        funs: Items::new(alloc),
    }
}

/// A module with nothing but so many classes.
fn of_classes(alloc: Global, class: u32, count: usize) -> Result<Module, Memory> {
    Ok(Module {
        size: Size::Small,
        code: no_code(alloc),
        classes: Classes {
            list: Items::from_vec(vec![in alloc; class; count]?),
        },
        sets: Sets {
            lists: Items::new(alloc),
        },
        removed: Items::new(alloc),
        points: Points {
            rows: Items::new(alloc),
        },
        reach: Items::new(alloc),
    })
}

/// How long the text of a module with so many classes is.
pub fn tell_classes(alloc: Global, class: u32, count: usize) -> Result<Vec<u8>, Memory> {
    let module = of_classes(alloc, class, count)?;
    let mut text = String::new(alloc);
    match write_module(alloc, &module) {
        Ok(bytes) => writeln!(text, "{} bytes", bytes.len())?,
        Err(WriteFault::Long) => writeln!(text, "too long")?,
        Err(WriteFault::Memory) => return Err(Memory),
    }
    Ok(text.into_bytes())
}
