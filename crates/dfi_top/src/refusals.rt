//! Refusals, and the texts that need no run.

ghost use Rattle.std.specs.Prelude.{◌≡◌, ◌≤◌, ◌++◌, ◌∷◌, [], IfOk};
ghost use Rattle.std.specs.Fmt.{decimal};
ghost use Rattle.dfi_build.specs.Builds.{IsFaultOf, Tells};
ghost use Rattle.dfi_top.specs.Reply.{RefusesLoad, said_by, Says};
ghost use Rattle.dfi_top.specs.Texts.{input_text, name_bytes_text, names_text, usage_text};
ghost use Rattle.fault_text.specs.FaultText.{text_of as fault_text_of};
ghost use Rattle.gen_prog.specs.Program.{text_of as program_text};

use crate::reply::Reply;
use crate::saying::say;
use dfi_base::Memory;
use dfi_build::BuildFault;
use dfi_io::LoadFault;
use fault_text::fault_text;
use gen_prog::generate;
use std::alloc::Global;

/// The refusal of words that ask for nothing.
pub fn refuse_words(alloc: Global) -> Result<Reply, Memory>
    ensures { IfOk result (λ r. Says 2 usage_text (said_by r)) }
{
    let usage =
        b"use: dfi build SRC | check MOD | sets SRC | replay FILE INPUT [NAMES] | run FILE INPUT | gen N | trial N\n";
    let text = Vec::from_slice(alloc, usage)?;
    Ok(say(alloc, 2, text))
}

// A line that ends in a name.
fn line_of(alloc: Global, start: &[u8], name: &[u8]) -> Result<Vec<u8>, Memory>
    ensures { IfOk result (λ line. line.items ≡ start.now ++ name.now ++ 10 ∷ []) }
{
    let mut line = Vec::from_slice(alloc, start)?;
    line.extend_from_slice(name)?;
    line.push(b'\n')?;
    Ok(line)
}

/// The refusal of a load of this name.
pub fn refuse_load(alloc: Global, name: &[u8], fault: LoadFault) -> Result<Reply, Memory>
    ensures { IfOk result (λ r. RefusesLoad name.now fault (said_by r)) }
{
    let start = match fault {
        LoadFault::Failed => b"load: failed ".as_slice(),
        LoadFault::Long => b"load: long ",
        LoadFault::Memory => return Err(Memory),
    };
    let text = line_of(alloc, start, name)?;
    Ok(say(alloc, 6, text))
}

/// The first fault of a source.
pub fn refuse_source(alloc: Global, source: &[u8], fault: &BuildFault) -> Result<Reply, Memory>
    requires { Tells source.now fault.now }
    ensures { IfOk result (λ r. IsFaultOf source.now fault.now
        × Says 1 (fault_text_of source.now fault.now) (said_by r)) }
{
    match fault {
        BuildFault::Memory => Err(Memory),
        _ => {
            let text = fault_text(alloc, source, fault)?;
            Ok(say(alloc, 1, text))
        }
    }
}

/// An input that is no list of numbers from this byte on.
pub fn refuse_input(alloc: Global, at: u64) -> Result<Reply, Memory>
    ensures { IfOk result (λ r. Says 1 (input_text at) (said_by r)) }
{
    let mut text = String::new(alloc);
    writeln!(text, "input: refused at {at}")?;
    Ok(say(alloc, 1, text.into_bytes()))
}

/// Names that are no list of numbers from this byte on.
pub fn refuse_name_bytes(alloc: Global, at: u64) -> Result<Reply, Memory>
    ensures { IfOk result (λ r. Says 1 (name_bytes_text at) (said_by r)) }
{
    let mut text = String::new(alloc);
    writeln!(text, "names: bytes refused at {at}")?;
    Ok(say(alloc, 1, text.into_bytes()))
}

/// Names that no run goes along, by the number of the first that none goes on by.
pub fn refuse_names(alloc: Global, k: u64) -> Result<Reply, Memory>
    ensures { IfOk result (λ r. Says 1 (names_text k) (said_by r)) }
{
    let mut text = String::new(alloc);
    writeln!(text, "names: refused at {k}")?;
    Ok(say(alloc, 1, text.into_bytes()))
}

/// The generated program of a size.
pub fn write_program(alloc: Global, n: u32) -> Result<Reply, Memory>
    requires least { 1 ≤ n }
    requires most { n ≤ 200 }
    ensures { IfOk result (λ r. Says 0 (program_text n) (said_by r)) }
{
    let text = generate(alloc, n)?;
    Ok(say(alloc, 0, text))
}
