ghost use Rattle.std.specs.Prelude.{◌≡◌, ◌≤◌, ◌<◌, [], None, length, IfOk, OnOk};
ghost use Rattle.guest_log.specs.Shared.{Shared};
ghost use Rattle.tac_ir.specs.Tables.{CanRun};
ghost use Rattle.stripe_rule.specs.Kids.{Has};
ghost use Rattle.stripe_table.specs.Passes.{knows, IsPassOf};
ghost use Rattle.test_stripes.specs.Stays.{IsOf, IsFamily, IsTaken};

use crate::orders::{STRIPES, free, run_one};
use crate::row::{Order, Program, Row, Who};
use dfi_base::Memory;
use guest_log::Log;
use std::alloc::{AllocError, Global};
use std::fmt::Write;
use std::string::String;
use stripe_table::{Closed, Pass, SharedMem};
use tac_ir::{Module, Size};
use test_base::Halt;
use test_samples::stops::neighbour;
use test_samples::stores::reusing;

const MOST: u64 = 4_000_000;

const LONGEST: usize = 8;

// How many entries a pass of a row may make.
const SPARE: u64 = 10;

/// Thread 1 and its two branches.
#[derive(Drop)]
pub struct Family {
    pub root: Pass,
    pub first: Pass,
    pub second: Pass,
}

/// The title of a row, and what comes of it.
pub fn text_of(alloc: Global, row: &Row) -> Result<String, Halt> {
    let title = row.title;
    let mut text = format!(in alloc; "-- {title}\n")?;
    let module = in_memory(program_of(alloc, row.program)?, row.large);
    let closed = play(alloc, &module, row, &mut text)?;
    tell_log(closed.log(), &mut text)?;
    Ok(text)
}

fn program_of(alloc: Global, program: Program) -> Result<Module, AllocError>
    ensures { IfOk result CanRun }
{
    match program {
        Program::Neighbour => neighbour(alloc),
        Program::Reusing => reusing(alloc),
    }
}

// The module, for one of the memories.
fn in_memory(mut m: Module, large: bool) -> Module
    requires { CanRun m }
    ensures { CanRun result }
{
    if large {
        m.size = Size::Large;
    }
    m
}

// What the steps of a row leave: a log that one memory served.
fn play(alloc: Global, m: &Module, row: &Row, text: &mut String) -> Result<Closed, Halt>
    requires { CanRun m.now }
    ensures shared { IfOk result (λ closed. Shared m.now row.now.input.now closed.items) }
    ensures most { IfOk result (λ closed. length closed.items ≤ row.now.budget) }
{
    if row.budget > MOST || row.input.len() > LONGEST {
        return Err(Halt::Long);
    }
    let (memory, root) = SharedMem::new(alloc, m, row.input, STRIPES, row.budget)?;
    let mut passes = split_all(&memory, root)?;
    run_all(&memory, m, &mut passes, row.steps, text)?;
    let root = reunite(&memory, passes)?;
    Ok(memory.close(root))
}

/// Thread 1 with two branches, each with room for some entries.
pub fn split_all(memory: &SharedMem<'_>, mut root: Pass) -> Result<Family, Memory>
    requires pass { IsPassOf memory.now root }
    requires alone { (root.name ≡ 1) × (root.held ≡ None) × ((knows root).kids ≡ []) }
    ensures { IfOk result (λ f. IsFamily memory.now f) }
{
    root.reserve(SPARE)?;
    let mut first = memory.split(&mut root, 1);
    let mut second = memory.split(&mut root, 2);
    first.reserve(SPARE)?;
    second.reserve(SPARE)?;
    Ok(Family {
        root,
        first,
        second,
    })
}

fn run_all(
    memory: &SharedMem<'_>,
    m: &Module,
    passes: &mut Family,
    steps: &[(Who, Order)],
    text: &mut String,
) -> Result<(), Halt>
    requires memory { IsOf m.now memory.now }
    requires passes { IsFamily memory.now passes.old }
    ensures { IsFamily memory.now passes.new }
{
    for step in steps {
        take_step(memory, m, passes, step.0, step.1, text)?;
    }
    Ok(())
}

fn take_step(
    memory: &SharedMem<'_>,
    m: &Module,
    passes: &mut Family,
    who: Who,
    order: Order,
    text: &mut String,
) -> Result<(), Halt>
    requires memory { IsOf m.now memory.now }
    requires passes { IsFamily memory.now passes.old }
    ensures { IsFamily memory.now passes.new }
{
    match who {
        Who::Root => run_one(memory, m, &mut passes.root, order, text),
        Who::First => run_one(memory, m, &mut passes.first, order, text),
        Who::Second => run_one(memory, m, &mut passes.second, order, text),
    }
}

// Thread 1, with its branches taken in, and no lock.
fn reunite(memory: &SharedMem<'_>, passes: Family) -> Result<Pass, Memory>
    requires { IsFamily memory.now passes }
    ensures { IfOk result (λ root. IsPassOf memory.now root × (root.name ≡ 1) × (root.held ≡ None) × ((knows root).kids ≡ [])) }
{
    let Family {
        mut root,
        mut first,
        mut second,
    } = passes;
    free(memory, &mut root);
    free(memory, &mut first);
    free(memory, &mut second);
    take_in(memory, &mut root, first)?;
    take_in(memory, &mut root, second)?;
    Ok(root)
}

// Takes in the pass of a branch, once there is room for its log.
fn take_in(memory: &SharedMem<'_>, pass: &mut Pass, child: Pass) -> Result<(), Memory>
    requires passes { IsPassOf memory.now pass.old × IsPassOf memory.now child }
    requires kid { Has child.name (knows pass.old).kids × (child.held ≡ None) × ((knows child).kids ≡ []) }
    ensures { OnOk result (IsTaken memory.now child pass.old pass.new) }
{
    pass.reserve(child.log().items().len() as u64)?;
    memory.join(pass, child);
    Ok(())
}

/// The tickets of a log, and the names of those who drew them.
pub fn tell_log(log: &Log, text: &mut String) -> Result<(), Halt> {
    let items = log.items();
    let count = items.len();
    writeln!(text, "entries {count}")?;
    for stamped in items {
        let (ticket, name) = (stamped.ticket, stamped.entry.name.0);
        writeln!(text, "{ticket}: {name}")?;
    }
    Ok(())
}
