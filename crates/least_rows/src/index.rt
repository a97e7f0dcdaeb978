ghost use Rattle.std.specs.Prelude.{◌≡◌, ℕ, ◌<◌, ◌^◌, [], ◌∷◌, All, Contains, IsTrue, IfOk, OnOk, length, replicate, slice_index_or};
ghost use Rattle.dfi_base.specs.Bits.{has};
ghost use Rattle.least_rows.specs.Rules.{row_has, IsFittingRule};
ghost use Rattle.least_rows.specs.tools.Reads.{reads_of};
ghost use Rattle.least_rows.specs.tools.Growing.{ReadersAre, loads_from};

use crate::rules::{Rule, System};
use dfi_base::{Bits, Memory};
use sqlite_items::Items;
use std::alloc::Global;

/// A rule that loads, with the row of its sources.
#[derive(Clone, Copy)]
pub struct Loading {
    pub rule: u32,
    pub sources: u32,
}

/// Which rules to wake when a row has grown: those that read it whatever the table is, and the loads, which read
/// it where it is among their sources.
#[derive(Drop)]
pub struct Index {
    pub readers: Vec<Items<u32>>,
    pub loads: Vec<Loading>,
}

/// Wakes these rules.
pub fn wake_readers(waiting: &mut Bits, readers: &[u32])
    requires { All (λ i. i < length waiting.old) readers.now }
    ensures long { length waiting.new ≡ length waiting.old }
    ensures kept { (i : ℕ) → IsTrue (has waiting.old i) → IsTrue (has waiting.new i) }
    ensures woken { (i : ℕ) → Contains readers.now i → IsTrue (has waiting.new i) }
{
    for i in readers {
        waiting.put(*i, true);
    }
}

/// Wakes the loads that have the row among their sources.
pub fn wake_loads(waiting: &mut Bits, loads: &[Loading], rows: &[Bits], row: u32)
    requires { All (λ l. (l.rule < length waiting.old) × (l.sources < length rows.now)) loads.now }
    ensures long { length waiting.new ≡ length waiting.old }
    ensures kept { (i : ℕ) → IsTrue (has waiting.old i) → IsTrue (has waiting.new i) }
    ensures woken { (i sources : ℕ) → Contains loads.now (record { rule = i; sources = sources }) → IsTrue (row_has rows.now sources row) → IsTrue (has waiting.new i) }
{
    for load in loads {
        if has_member(&rows[load.sources as usize], row) {
            waiting.put(load.rule, true);
        }
    }
}

/// Whether a row has a member, which may be past its end.
pub fn has_member(row: &Bits, member: u32) -> bool
    ensures { result ≡ has row.now member }
{
    member < row.len() && row.get(member)
}

/// The rules by the rows that they read whatever the table is.
pub fn readers_of(alloc: Global, system: &System, rows: usize) -> Result<Vec<Items<u32>>, Memory>
    requires few { length system.now.rules < 2 ^ 32 }
    requires fits { All (IsFittingRule system.now.width (length system.now.masks) rows) system.now.rules }
    ensures long { IfOk result (λ lists. length lists.items ≡ rows) }
    ensures within { IfOk result (λ lists. All (All (λ i. i < length system.now.rules)) lists.items) }
    ensures readers { IfOk result (λ lists. ReadersAre system.now (length system.now.rules) lists.items) }
{
    let mut readers = no_readers(alloc, rows)?;
    for (i, rule) in system.rules.as_slice().iter().enumerate() {
        let reads = reads_of(alloc, rule)?;
        add_reader(&mut readers, &reads, i as u32)?;
    }
    Ok(readers)
}

fn no_readers(alloc: Global, rows: usize) -> Result<Vec<Items<u32>>, Memory>
    ensures { IfOk result (λ lists. lists.items ≡ replicate rows []) }
{
    let mut readers = Vec::new(alloc);
    for _ in 0..rows {
        readers.push(Items::new(alloc))?;
    }
    Ok(readers)
}

fn reads_of(alloc: Global, rule: &Rule) -> Result<Vec<u32>, Memory>
    ensures { IfOk result (λ reads. reads.items ≡ reads_of rule.now) }
{
    let reads = match rule {
        Rule::Has { .. } => Vec::new(alloc),
        Rule::Flow { from, .. } => Vec::from_slice(alloc, &[*from])?,
        Rule::Shift { from, .. } => Vec::from_slice(alloc, &[*from])?,
        Rule::Meet { first, rest, .. } => meet_reads(alloc, *first, rest.as_slice())?,
        Rule::Guard { test, from, .. } => Vec::from_slice(alloc, &[*test, *from])?,
        Rule::Store { targets, from } => Vec::from_slice(alloc, &[*targets, *from])?,
        Rule::Load { sources, .. } => Vec::from_slice(alloc, &[*sources])?,
    };
    Ok(reads)
}

fn meet_reads(alloc: Global, first: u32, rest: &[u32]) -> Result<Vec<u32>, Memory>
    ensures { IfOk result (λ reads. reads.items ≡ first ∷ rest.now) }
{
    let mut reads = Vec::from_slice(alloc, &[first])?;
    reads.extend_from_slice(rest)?;
    Ok(reads)
}

// Enters a rule at each row that it reads.
fn add_reader(readers: &mut Vec<Items<u32>>, reads: &[u32], rule: u32) -> Result<(), Memory>
    requires { All (λ r. r < length readers.old.items) reads.now }
    ensures long { length readers.new.items ≡ length readers.old.items }
    ensures within { (n : ℕ) → rule < n → All (All (λ i. i < n)) readers.old.items → All (All (λ i. i < n)) readers.new.items }
    ensures kept { OnOk result ((r i : ℕ) → Contains (slice_index_or readers.old.items r []) i → Contains (slice_index_or readers.new.items r []) i) }
    ensures added { OnOk result ((r : ℕ) → Contains reads.now r → Contains (slice_index_or readers.new.items r []) rule) }
{
    for r in reads {
        readers[*r as usize].push(rule)?;
    }
    Ok(())
}

/// The rules that load, with their sources.
pub fn loads_of(alloc: Global, system: &System) -> Result<Vec<Loading>, Memory>
    requires few { length system.now.rules < 2 ^ 32 }
    ensures { IfOk result (λ loads. loads.items ≡ loads_from 0 system.now.rules) }
{
    let mut loads = Vec::new(alloc);
    for (i, rule) in system.rules.as_slice().iter().enumerate() {
        if let Rule::Load { sources, .. } = rule {
            loads.push(Loading {
                rule: i as u32,
                sources: *sources,
            })?;
        }
    }
    Ok(loads)
}
