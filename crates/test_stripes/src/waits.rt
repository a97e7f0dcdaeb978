//! A pass waits for a lock that another pass frees.
ghost use Rattle.std.specs.Prelude.{◌≡◌, ◌<◌, None};
ghost use Rattle.std.specs.Thread.{IsSync};
ghost use Rattle.tac_ir.specs.Tables.{CanRun};
ghost use Rattle.stripe_table.specs.Passes.{IsPassOf};

use crate::orders::{HERE, STRIPES, free, hold};
use crate::scene::{Family, split_all, tell_log};
use std::alloc::Global;
use std::fmt::Write;
use std::string::String;
use std::sync::Wait;
use std::thread::{Threads, join, yield_now};
use stripe_table::{AccessFault, Pass, SharedMem};
use tac_ir::{Entry, Module, Op};
use test_base::Halt;
use test_samples::stores::reusing;

const YIELDS: u32 = 1_000;

const BUDGET: u64 = 10;

/// A pass, and what its access was answered.
#[derive(Drop)]
struct Waited {
    pass: Pass,
    answer: Result<Entry, AccessFault>,
}

/// What 18 is answered, which takes a block while 17 holds the desk and frees it after some yields.
pub fn text_of_wait<R: Threads + Wait + Sync>(rt: &R, alloc: Global) -> Result<String, Halt> {
    let mut text = format!(in alloc; "-- a pass waits for the desk\n")?;
    let module = reusing(alloc)?;
    let waited = play(rt, alloc, &module, &mut text)?;
    tell_waited(&mut text, &waited)?;
    tell_log(waited.pass.log(), &mut text)?;
    Ok(text)
}

fn play<R: Threads + Wait + Sync>(
    rt: &R,
    alloc: Global,
    m: &Module,
    text: &mut String,
) -> Result<Waited, Halt>
    requires { CanRun m.now }
{
    let (memory, root) = SharedMem::new(alloc, m, &[], STRIPES, BUDGET)?;
    let Family {
        mut first,
        mut second,
        ..
    } = split_all(&memory, root)?;
    hold(&memory, &mut first, STRIPES, text)?;
    free(&memory, &mut second);
    if second.log().spare() == 0 {
        return Err(Halt::Long);
    }
    Ok(both(rt, &memory, first, second))
}

// One frees and one waits. Where no thread can be made, the one that waits is run last.
fn both<R: Threads + Wait + Sync>(
    rt: &R,
    memory: &SharedMem<'_>,
    first: Pass,
    second: Pass,
) -> Waited
    requires first { IsPassOf memory.now first }
    requires second { IsPassOf memory.now second × (second.held ≡ None) × (0 < second.log.spare) }
{
    let (waited, _) = join(
        rt,
        move || -> Waited
            requires { IsSync R.row × IsPassOf memory.now second × (second.held ≡ None) × (0 < second.log.spare) }
        { wait(rt, memory, second) },
        move || -> bool
            requires { IsPassOf memory.now first }
        { free_late(memory, first) },
    );
    waited
}

// Frees the lock after some yields.
fn free_late(memory: &SharedMem<'_>, mut pass: Pass) -> bool
    requires { IsPassOf memory.now pass }
{
    for _ in 0..YIELDS {
        yield_now();
    }
    free(memory, &mut pass);
    true
}

fn wait<R: Wait>(rt: &R, memory: &SharedMem<'_>, mut pass: Pass) -> Waited
    requires { IsPassOf memory.now pass × (pass.held ≡ None) × (0 < pass.log.spare) }
{
    let op = Op::New { site: 0, count: 1 };
    let answer = memory.access(rt, &mut pass, HERE, &op);
    Waited { pass, answer }
}

fn tell_waited(text: &mut String, waited: &Waited) -> Result<(), Halt> {
    let name = waited.pass.name().0;
    match &waited.answer {
        Ok(entry) => {
            let answer = entry.answer;
            writeln!(text, "{name}: {answer:?}")?;
        }
        Err(fault) => writeln!(text, "{name}: {fault:?}")?,
    }
    Ok(())
}
