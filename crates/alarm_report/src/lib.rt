//! The text of a run: the numbers that it put out, and its end.
#![tactic(auto)]

ghost use Rattle.std.specs.Prelude.{◌≡◌, IfOk};
ghost use Rattle.tac_ir.specs.Text.{text_of};
ghost use Rattle.code_layout.specs.LaidOut.{IsLaidOut};

mod alarms;
mod classes;
mod definitions;
mod ends;
mod outputs;
mod writers;

use crate::ends::push_end;
use crate::outputs::push_outputs;
use dfi_base::Memory;
use std::alloc::Global;
use tac_ir::{Journal, Module};

/// The lines of a run of this module: each number that it put out, and then its end.
pub fn report(alloc: Global, m: &Module, j: &Journal) -> Result<Vec<u8>, Memory>
    requires { IsLaidOut m.now.code }
    ensures { IfOk result (λ text. text.items ≡ text_of m.now j.now) }
{
    let mut text = String::new(alloc);
    push_outputs(&mut text, j.entries.as_slice())?;
    push_end(alloc, &mut text, m, j)?;
    Ok(text.into_bytes())
}
