ghost use Rattle.std.specs.Prelude.{IfOk};
ghost use Rattle.word_table.specs.Tables.{CanRun};

use crate::guests::log_of;
use crate::row::{Row, row_of};
use dfi_base::Name;
use flat_core::{RunFault, Turns, run};
use guest_log::Stamped;
use merge_law::{Rest, journal_at_rest};
use std::alloc::Global;
use tac_ir::{End, Entry, Journal, Limit, Module};
use test_base::{Halt, Orders};

// The most names of a run.
const MOST: usize = 100;

/// The table, whose rows leave nothing behind.
#[derive(Drop)]
pub struct Rows;

impl Orders for Rows {
    fn take_line(&mut self, alloc: Global, line: &str) -> Result<Vec<u8>, Halt> {
        let answer = match row_of(alloc, line)? {
            None => format!(in alloc; "no row")?,
            Some(row) => told(alloc, &row)?,
        };
        Ok(format!(in alloc; "{line}: {answer}\n")?.into_bytes())
    }
}

fn told(alloc: Global, row: &Row) -> Result<String, Halt> {
    let module = row.sample.module(alloc)?;
    told_of(alloc, &module, row)
}

fn told_of(alloc: Global, m: &Module, row: &Row) -> Result<String, Halt>
    requires { CanRun m.now }
{
    match run_along(alloc, m, &row.names, row.budget)? {
        None => Ok(format!(in alloc; "refused")?),
        Some(run) => told_of_run(alloc, m, row, &run),
    }
}

fn told_of_run(alloc: Global, m: &Module, row: &Row, run: &Journal) -> Result<String, Halt>
    requires { CanRun m.now }
{
    let Some(rest) = rest_of(run.end) else {
        return Ok(format!(in alloc; "not at rest")?);
    };
    match entries_behind(alloc, m, row)? {
        None => Ok(format!(in alloc; "refused behind")?),
        Some(behind) => told_of_entries(alloc, run, rest, &behind),
    }
}

fn told_of_entries(
    alloc: Global,
    run: &Journal,
    rest: Rest,
    behind: &[Entry],
) -> Result<String, Halt> {
    let mut entries = Vec::from_slice(alloc, run.entries.as_slice())?;
    entries.extend_from_slice(behind)?;
    match log_of(alloc, &entries)? {
        None => Ok(format!(in alloc; "no log")?),
        Some(log) => told_of_log(alloc, run, rest, log.items()),
    }
}

fn told_of_log(alloc: Global, run: &Journal, rest: Rest, log: &[Stamped]) -> Result<String, Halt> {
    let journal = journal_at_rest(alloc, log, rest)?;
    text_of(alloc, log.len(), &journal, run)
}

fn text_of(alloc: Global, count: usize, journal: &Journal, run: &Journal) -> Result<String, Halt> {
    let (kept, end) = (journal.entries.len(), journal.end);
    let is_run = journal.entries.as_slice() == run.entries.as_slice() && end == run.end;
    let compared = if is_run {
        "as the run"
    } else {
        "not as the run"
    };
    Ok(format!(in alloc; "{kept} of {count} entries, {end:?}, {compared}")?)
}

// How thread 1 came to rest in a run with this end.
fn rest_of(end: End) -> Option<Rest> {
    match end {
        End::Done(value) => Some(Rest::Returned(value)),
        End::Limit(Limit::Budget) => Some(Rest::LeftOff),
        End::Alarm | End::Trap | End::Limit(_) => Some(Rest::Stopped),
        End::Cut | End::NoRun => None,
    }
}

// The run by these names, where there is one.
fn run_along(
    alloc: Global,
    m: &Module,
    names: &[Name],
    budget: u64,
) -> Result<Option<Journal>, Halt>
    requires { CanRun m.now }
{
    if names.len() > MOST {
        return Err(Halt::Long);
    }
    let turns = Turns::Given(Vec::from_slice(alloc, names)?);
    match run(alloc, m, &[], &turns, budget) {
        Ok(journal) => Ok(Some(journal)),
        Err(RunFault::Names { .. }) => Ok(None),
        Err(RunFault::Memory) => Err(Halt::Memory),
    }
}

// The entries that stand behind the run of a row.
fn entries_behind(alloc: Global, m: &Module, row: &Row) -> Result<Option<Vec<Entry>>, Halt>
    requires { CanRun m.now }
{
    let Some((_, before)) = row.names.split_last() else {
        return Ok(Some(Vec::new(alloc)));
    };
    let mut names = Vec::from_slice(alloc, before)?;
    names.extend_from_slice(&row.behind)?;
    let Some(run) = run_along(alloc, m, &names, names.len() as u64)? else {
        return Ok(None);
    };
    let entries = run.entries.as_slice().get(before.len()..).unwrap_or(&[]);
    Ok(Some(Vec::from_slice(alloc, entries)?))
}
