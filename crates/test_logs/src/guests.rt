use crate::tickets::{differ, is_newer};
use dfi_base::Memory;
use guest_log::{Log, Stamped};
use std::alloc::Global;
use std::collections::BTreeMap;
use tac_ir::Entry;

/// The log of thread 1: each thread has kept its own entries, and those of its branches were merged in. The ticket of an entry is its place.
pub fn log_of(alloc: Global, entries: &[Entry]) -> Result<Option<Log>, Memory> {
    let mut logs = BTreeMap::new(alloc);
    for (place, entry) in entries.iter().enumerate() {
        let name = entry.name.0;
        if !logs.contains_key(&name) {
            logs.insert(name, Log::new(alloc))?;
        }
        let Some(log) = logs.get_mut(&name) else {
            return Ok(None);
        };
        put(log, place as u64, *entry)?;
    }
    merged(logs)
}

// A thread puts an entry behind its log.
fn put(log: &mut Log, ticket: u64, entry: Entry) -> Result<(), Memory> {
    if is_newer(ticket, log.items()) {
        log.reserve(1)?;
        log.push(Stamped { ticket, entry });
    }
    Ok(())
}

// Each log is merged into that of the parent, the last names first.
fn merged(logs: BTreeMap<u64, Log>) -> Result<Option<Log>, Memory> {
    let mut logs = logs;
    for _ in 0..logs.len() {
        let Some((name, log)) = logs.pop_last() else {
            return Ok(None);
        };
        match logs.get_mut(&(name / 16)) {
            Some(parent) => merge(parent, log)?,
            None => return Ok(Some(log)),
        }
    }
    Ok(None)
}

fn merge(parent: &mut Log, log: Log) -> Result<(), Memory> {
    if differ(parent.items(), log.items()) {
        parent.reserve(log.items().len() as u64)?;
        parent.merge(log);
    }
    Ok(())
}
