//! The line that tells why a source has no module.
#![tactic(auto)]

mod lines;

ghost use Rattle.std.specs.Prelude.{◌≡◌, IfOk};
ghost use Rattle.dfi_build.specs.Builds.{IsFaultOf};
ghost use Rattle.fault_text.specs.FaultText.{text_of};

use crate::lines::{lex_line, lower_line, parse_line, type_line};
use dfi_base::Memory;
use dfi_build::BuildFault;
use std::alloc::Global;

/// The text of a fault of this source.
pub fn fault_text(alloc: Global, source: &[u8], fault: &BuildFault) -> Result<Vec<u8>, Memory>
    requires { IsFaultOf source.now fault.now }
    ensures { IfOk result (λ text. text.items ≡ text_of source.now fault.now) }
{
    match fault {
        BuildFault::Lex(fault) => lex_line(alloc, source, fault),
        BuildFault::Parse(fault) => parse_line(alloc, fault),
        BuildFault::Types(fault) => type_line(alloc, fault),
        BuildFault::Lower(fault) => lower_line(alloc, fault),
        BuildFault::Memory => Err(Memory),
    }
}
