ghost use Rattle.std.specs.Prelude.{◌≡◌, ◌++◌, OnOk, reverse, codes};
ghost use Rattle.std.specs.Fmt.{decimal};
ghost use Rattle.std.specs.String.{string_bytes};
ghost use Rattle.tac_ir.specs.Text.{end_lines, trap_lines, at_line, at_word, limit_name, line_of_text};
ghost use Rattle.code_layout.specs.LaidOut.{IsLaidOut};

use crate::alarms::push_alarm;
use crate::definitions::line_at;
use dfi_base::Memory;
use std::alloc::Global;
use tac_ir::{Answer, End, Entry, Journal, Limit, Module, Op, Stop};

/// Adds the lines of the end of a run.
pub(crate) fn push_end(
    alloc: Global,
    text: &mut String,
    m: &Module,
    j: &Journal,
) -> Result<(), Memory>
    requires { IsLaidOut m.now.code }
    ensures { OnOk result (string_bytes text.new
        ≡ string_bytes text.old ++ end_lines m.now (reverse j.now.entries) j.now.end) }
{
    let entries = j.entries.as_slice();
    match j.end {
        End::Done(value) => writeln!(text, "end {value}")?,
        End::Alarm => push_alarm(alloc, text, m, entries)?,
        End::Trap => push_trap(text, m, entries)?,
        End::Limit(limit) => push_limit(text, limit)?,
        End::Cut => push_cut(text, entries.len())?,
        End::NoRun => {}
    }
    Ok(())
}

fn push_trap(text: &mut String, m: &Module, entries: &[Entry]) -> Result<(), Memory>
    ensures { OnOk result (string_bytes text.new
        ≡ string_bytes text.old ++ end_lines m.now (reverse entries.now) End.Trap) }
{
    match entries.last() {
        Some(last) => push_trap_line(text, m, last),
        None => Ok(()),
    }
}

fn push_trap_line(text: &mut String, m: &Module, entry: &Entry) -> Result<(), Memory>
    ensures { OnOk result (string_bytes text.new
        ≡ string_bytes text.old ++ trap_lines m.now entry.now entry.now.answer) }
{
    match entry.answer {
        Answer::Stop(stop) => push_stop(text, m, entry, stop),
        _ => Ok(()),
    }
}

fn push_stop(text: &mut String, m: &Module, entry: &Entry, stop: Stop) -> Result<(), Memory>
    ensures { OnOk result (string_bytes text.new
        ≡ string_bytes text.old ++ trap_lines m.now entry.now (Answer.Stop stop)) }
{
    match stop {
        Stop::Divide => {
            write!(text, "trap divide")?;
            push_line(text, m, entry)?;
            writeln!(text)?;
        }
        Stop::Address => {
            write!(text, "trap address")?;
            push_line(text, m, entry)?;
            push_word(text, entry.op)?;
        }
        Stop::Free => {
            write!(text, "trap free")?;
            push_line(text, m, entry)?;
            push_word(text, entry.op)?;
        }
        _ => {}
    }
    Ok(())
}

// Adds the line of a step.
fn push_line(text: &mut String, m: &Module, entry: &Entry) -> Result<(), Memory>
    ensures { OnOk result (string_bytes text.new ≡ string_bytes text.old ++ at_line m.now entry.now) }
{
    let line = line_at(&m.code, entry.point);
    write!(text, " line {line}")?;
    Ok(())
}

// Adds the word of a step, where it has one, and ends the line.
fn push_word(text: &mut String, op: Op) -> Result<(), Memory>
    ensures { OnOk result (string_bytes text.new ≡ string_bytes text.old ++ line_of_text (at_word op)) }
{
    match op {
        Op::Read { word, .. } | Op::Write { word, .. } | Op::Free { word } => {
            writeln!(text, " word {word}")?;
        }
        _ => writeln!(text)?,
    }
    Ok(())
}

fn push_limit(text: &mut String, limit: Limit) -> Result<(), Memory>
    ensures { OnOk result (string_bytes text.new
        ≡ string_bytes text.old ++ line_of_text (codes "limit " ++ limit_name limit)) }
{
    let name = name_of_limit(limit);
    writeln!(text, "limit {name}")?;
    Ok(())
}

fn name_of_limit(limit: Limit) -> &'static str
    ensures { result.now ≡ limit_name limit }
{
    match limit {
        Limit::Stack => "stack",
        Limit::Heap => "heap",
        Limit::Depth => "depth",
        Limit::Share => "share",
        Limit::Budget => "budget",
    }
}

fn push_cut(text: &mut String, steps: usize) -> Result<(), Memory>
    ensures { OnOk result (string_bytes text.new
        ≡ string_bytes text.old ++ line_of_text (codes "cut " ++ decimal steps)) }
{
    writeln!(text, "cut {steps}")?;
    Ok(())
}
