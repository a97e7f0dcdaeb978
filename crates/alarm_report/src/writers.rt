ghost use Rattle.std.specs.Prelude.{◌≡◌, IfOk, nat_lt, position, reverse};
ghost use Rattle.std.specs.Option.{option_map};
ghost use Rattle.tac_ir.specs.Layout.{globals_from};
ghost use Rattle.tac_ir.specs.Last.{last_write, starting, write_to};
ghost use Rattle.code_layout.specs.LaidOut.{IsLaidOut};
ghost use Rattle.alarm_report.specs.Writers.{writer_in};

use code_layout::global_starts;
use dfi_base::Memory;
use std::alloc::Global;
use tac_ir::{Answer, Code, Entry, Op};

/// The definition of the last write of a word, and 0 where it has none. Global `g` starts with definition `g + 1`.
pub(crate) fn last_writer(
    alloc: Global,
    code: &Code,
    entries: &[Entry],
    word: u32,
) -> Result<usize, Memory>
    requires { IsLaidOut code.now }
    ensures { IfOk result (λ def. def ≡ (last_write code.now (reverse entries.now) word).def) }
{
    match writer_among(entries, word) {
        Some(def) => Ok(def),
        None => starting_definition(alloc, code, word),
    }
}

// Searches from the last entry back.
fn writer_among(entries: &[Entry], word: u32) -> Option<usize>
    ensures { result ≡ writer_in (reverse entries.now) word }
{
    let mut rest = entries;
    while let Some((entry, before)) = rest.split_last() {
        match definition_at(entry, word) {
            Some(def) => return Some(def),
            None => rest = before,
        }
    }
    None
}

// The definition by which an entry writes a word.
fn definition_at(entry: &Entry, word: u32) -> Option<usize>
    ensures { result ≡ option_map (λ written. written.def) (write_to word entry.now.op entry.now.answer) }
{
    match (entry.op, entry.answer) {
        (Op::Write { def, word: at, .. }, Answer::Unit) if at == word => Some(usize::from(def.0)),
        _ => None,
    }
}

// The definition with which a word starts: that of its global.
fn starting_definition(alloc: Global, code: &Code, word: u32) -> Result<usize, Memory>
    requires { IsLaidOut code.now }
    ensures { IfOk result
        (λ def. def ≡ (starting code.now code.now.globals 0 globals_from word).def) }
{
    let starts = global_starts(alloc, code)?;
    Ok(first_above(starts.as_slice(), word).unwrap_or(0))
}

fn first_above(starts: &[u32], word: u32) -> Option<usize>
    ensures { result ≡ position (λ start. nat_lt word start) starts.now }
{
    starts.iter().position(|start| word < *start)
}
