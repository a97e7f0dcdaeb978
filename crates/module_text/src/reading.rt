//! Bytes are read as a module.

ghost use Rattle.module_text.specs.Reading.{IsReading};

use crate::fault::TextFault;
use crate::modules::read_text;
use dfi_base::limits::FILE_LIMIT;
use std::alloc::Global;
use tac_ir::Module;

/// The module whose text the bytes are, or why there is none.
pub fn read_module(alloc: Global, bytes: &[u8]) -> Result<Module, TextFault>
    ensures { IsReading bytes.now result }
{
    if bytes.len() as u64 > FILE_LIMIT {
        return Err(TextFault::Long);
    }
    if bytes.starts_with(b"dfimod 1\n") {
        return Err(TextFault::Version { found: 1 });
    }
    read_text(alloc, bytes)
}
