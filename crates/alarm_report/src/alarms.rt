ghost use Rattle.std.specs.Prelude.{◌≡◌, ◌++◌, ◌∷◌, OnOk, reverse, codes};
ghost use Rattle.std.specs.Fmt.{decimal};
ghost use Rattle.std.specs.List.{flat_map};
ghost use Rattle.std.specs.String.{string_bytes};
ghost use Rattle.tac_ir.specs.declared.run.End.{End};
ghost use Rattle.tac_ir.specs.Last.{last_write};
ghost use Rattle.tac_ir.specs.Answers.{set_of};
ghost use Rattle.tac_ir.specs.Text.{end_lines, alarm_lines, found_line, allowed_line, allowed_words, line_of_text};
ghost use Rattle.code_layout.specs.LaidOut.{IsLaidOut};

use crate::classes::{class_of, classes_of_set, set_of_read};
use crate::definitions::{line_at, line_of_definition};
use crate::writers::last_writer;
use dfi_base::{Memory, ReadNo};
use std::alloc::Global;
use tac_ir::{Entry, Module, Op};

/// Adds the lines of an alarm at the last of these entries.
pub(crate) fn push_alarm(
    alloc: Global,
    text: &mut String,
    m: &Module,
    entries: &[Entry],
) -> Result<(), Memory>
    requires { IsLaidOut m.now.code }
    ensures { OnOk result (string_bytes text.new
        ≡ string_bytes text.old ++ end_lines m.now (reverse entries.now) End.Alarm) }
{
    match entries.split_last() {
        Some((last, before)) => push_alarm_lines(alloc, text, m, before, last),
        None => Ok(()),
    }
}

fn push_alarm_lines(
    alloc: Global,
    text: &mut String,
    m: &Module,
    before: &[Entry],
    last: &Entry,
) -> Result<(), Memory>
    requires { IsLaidOut m.now.code }
    ensures { OnOk result (string_bytes text.new
        ≡ string_bytes text.old ++ alarm_lines m.now (reverse before.now) last.now last.now.op) }
{
    let Op::Read { read, word } = last.op else {
        return Ok(());
    };
    let line = line_at(&m.code, last.point);
    push_read(text, read, line, word)?;
    push_found(alloc, text, m, before, word)?;
    push_allowed(alloc, text, m, read)?;
    Ok(())
}

fn push_read(text: &mut String, read: ReadNo, line: u32, word: u32) -> Result<(), Memory>
    ensures { OnOk result (string_bytes text.new ≡ string_bytes text.old
        ++ line_of_text (codes "alarm read " ++ decimal read.0 ++ codes " line " ++ decimal line
        ++ codes " word " ++ decimal word)) }
{
    let number = read.0;
    writeln!(text, "alarm read {number} line {line} word {word}")?;
    Ok(())
}

// Adds the line of the last writer of a word.
fn push_found(
    alloc: Global,
    text: &mut String,
    m: &Module,
    before: &[Entry],
    word: u32,
) -> Result<(), Memory>
    requires { IsLaidOut m.now.code }
    ensures { OnOk result (string_bytes text.new
        ≡ string_bytes text.old ++ found_line m.now (last_write m.now.code (reverse before.now) word).def) }
{
    let def = last_writer(alloc, &m.code, before, word)?;
    push_definition(text, m, def)
}

fn push_definition(text: &mut String, m: &Module, def: usize) -> Result<(), Memory>
    ensures { OnOk result (string_bytes text.new ≡ string_bytes text.old ++ found_line m.now def) }
{
    if def == 0 {
        writeln!(text, "found class 0 no definition")?;
    } else {
        let class = class_of(m, def);
        let line = line_of_definition(&m.code, def);
        push_writer(text, class, def, line)?;
    }
    Ok(())
}

fn push_writer(text: &mut String, class: u32, def: usize, line: u32) -> Result<(), Memory>
    ensures { OnOk result (string_bytes text.new ≡ string_bytes text.old
        ++ line_of_text (codes "found class " ++ decimal class ++ codes " definition " ++ decimal def
        ++ codes " line " ++ decimal line)) }
{
    writeln!(text, "found class {class} definition {def} line {line}")?;
    Ok(())
}

// Adds the line of the classes that a read allows.
fn push_allowed(alloc: Global, text: &mut String, m: &Module, read: ReadNo) -> Result<(), Memory>
    ensures { OnOk result (string_bytes text.new
        ≡ string_bytes text.old ++ allowed_line m.now (set_of m.now read.0)) }
{
    let classes = classes_of_set(alloc, m, set_of_read(m, read))?;
    push_allowed_classes(text, classes.as_slice())
}

fn push_allowed_classes(text: &mut String, classes: &[usize]) -> Result<(), Memory>
    ensures { OnOk result (string_bytes text.new
        ≡ string_bytes text.old ++ line_of_text (codes "allowed" ++ allowed_words classes.now)) }
{
    write!(text, "allowed")?;
    if classes.is_empty() {
        write!(text, " none")?;
    }
    push_classes(text, classes)?;
    writeln!(text)?;
    Ok(())
}

fn push_classes(text: &mut String, classes: &[usize]) -> Result<(), Memory>
    ensures { OnOk result (string_bytes text.new
        ≡ string_bytes text.old ++ flat_map (λ class. 32 ∷ decimal class) classes.now) }
{
    for class in classes {
        write!(text, " {class}")?;
    }
    Ok(())
}
