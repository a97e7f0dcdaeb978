ghost use Rattle.std.specs.Prelude.{IfOk};
ghost use Rattle.word_table.specs.Tables.{CanRun};
ghost use Rattle.flat_core.specs.Runs.{IsShort};

use crate::journal::Written;
use crate::row::Row;
use crate::written::written_module;
use alarm_report::report;
use dfi_base::{Memory, Name};
use flat_core::{RunFault, Turns, run};
use std::alloc::Global;
use tac_ir::{Entry, Journal, Module};
use test_base::Halt;

// The most numbers of an input, and the most names.
const MOST: usize = 100;

impl test_base::Row for Row {
    fn text(&self, alloc: Global) -> Result<Vec<u8>, Halt> {
        let title = self.title;
        let mut text = format!(in alloc; "-- {title}\n")?.into_bytes();
        text.extend_from_slice(&told_by(alloc, self)?)?;
        Ok(text)
    }
}

impl test_base::Row for Written {
    fn text(&self, alloc: Global) -> Result<Vec<u8>, Halt> {
        let title = self.title;
        let mut text = format!(in alloc; "-- {title}\n")?.into_bytes();
        let module = written_module(alloc)?;
        let journal = self.journal(alloc)?;
        text.extend_from_slice(&report(alloc, &module, &journal)?)?;
        Ok(text)
    }
}

fn told_by(alloc: Global, row: &Row) -> Result<Vec<u8>, Halt> {
    if row.input.len() > MOST {
        return Err(Halt::Long);
    }
    let module = row.sample.module(alloc)?;
    let turns = turns_of(alloc, row.names)?;
    let outcome = run(alloc, &module, row.input, &turns, row.budget);
    Ok(text_of_outcome(alloc, &module, &outcome)?)
}

fn turns_of(alloc: Global, names: Option<&[Name]>) -> Result<Turns, Halt>
    ensures { IfOk result IsShort }
{
    match names {
        None => Ok(Turns::Least),
        Some(names) if names.len() <= MOST => Ok(Turns::Given(Vec::from_slice(alloc, names)?)),
        Some(_) => Err(Halt::Long),
    }
}

fn text_of_outcome(
    alloc: Global,
    m: &Module,
    outcome: &Result<Journal, RunFault>,
) -> Result<Vec<u8>, Memory>
    requires { CanRun m.now }
{
    match outcome {
        Ok(journal) => text_of_run(alloc, m, journal),
        Err(RunFault::Names { k }) => text_of_refusal(alloc, *k),
        Err(RunFault::Memory) => Err(Memory),
    }
}

fn text_of_refusal(alloc: Global, k: u64) -> Result<Vec<u8>, Memory> {
    Ok(format!(in alloc; "names: refused at {k}\n")?.into_bytes())
}

fn text_of_run(alloc: Global, m: &Module, journal: &Journal) -> Result<Vec<u8>, Memory>
    requires { CanRun m.now }
{
    let mut text = summary_of(alloc, journal.entries.as_slice())?.into_bytes();
    text.extend_from_slice(&report(alloc, m, journal)?)?;
    Ok(text)
}

// How many entries there are, and the last one.
fn summary_of(alloc: Global, entries: &[Entry]) -> Result<String, Memory> {
    let mut text = String::new(alloc);
    let count = entries.len();
    writeln!(text, "entries {count}")?;
    if let Some(last) = entries.last() {
        push_entry(&mut text, last)?;
    }
    Ok(text)
}

fn push_entry(text: &mut String, entry: &Entry) -> Result<(), Memory> {
    let (name, op, answer) = (entry.name.0, entry.op, entry.answer);
    writeln!(text, "thread {name}: {op:?}, {answer:?}")?;
    Ok(())
}
