ghost use Rattle.std.specs.Prelude.{◌≡◌, ◌<◌, true};
ghost use Rattle.stripe_rule.specs.declared.plan.Terms.{Terms};
ghost use Rattle.stripe_events.specs.Accesses.{IsAccess};
ghost use Rattle.stripe_table.specs.Passes.{plan_of, IsPassOf};
ghost use Rattle.test_stripes.specs.Stays.{IsOf, Stays, IsFree};

use crate::row::Order;
use dfi_base::{DefNo, Point, ReadNo};
use std::fmt::Write;
use std::string::String;
use stripe_table::{Pass, SharedMem, TickFault, TryFault};
use tac_ir::{Answer, Entry, Module, Op};
use test_base::Halt;

/// How many stripes each memory has.
pub const STRIPES: u32 = 16;

pub const HERE: Point = Point { fun: 0, at: 0 };

/// Does an order by a pass, and tells what it was answered.
pub fn run_one(
    memory: &SharedMem<'_>,
    m: &Module,
    pass: &mut Pass,
    order: Order,
    text: &mut String,
) -> Result<(), Halt>
    requires memory { IsOf m.now memory.now }
    requires pass { IsPassOf memory.now pass.old }
    ensures { Stays memory.now pass.old pass.new }
{
    match order {
        Order::Out { value } => tick(memory, pass, value, text),
        Order::Hold { lock } => hold(memory, pass, lock, text),
        Order::Release => {
            free(memory, pass);
            Ok(())
        }
        _ => serve(memory, m, pass, op_of(order), text),
    }
}

fn op_of(order: Order) -> Op {
    match order {
        Order::Write { def, word, value } => Op::Write {
            def: DefNo(def),
            word,
            value,
        },
        Order::Read { read, word } => Op::Read {
            read: ReadNo(read),
            word,
        },
        Order::New { count } => Op::New { site: 0, count },
        Order::Free { word } => Op::Free { word },
        Order::In => Op::In,
        Order::Left => Op::Left,
        _ => Op::Turn,
    }
}

// Whether the memory serves an event.
fn is_access(m: &Module, op: Op) -> bool
    ensures { (p : Terms) → p.md ≡ m.now → result ≡ true → IsAccess p op }
{
    match op {
        Op::Read { word, .. } | Op::Write { word, .. } => word < m.size.memory_words(),
        Op::New { .. } | Op::Free { .. } | Op::In | Op::Left => true,
        _ => false,
    }
}

fn serve(
    memory: &SharedMem<'_>,
    m: &Module,
    pass: &mut Pass,
    op: Op,
    text: &mut String,
) -> Result<(), Halt>
    requires memory { IsOf m.now memory.now }
    requires pass { IsPassOf memory.now pass.old }
    ensures { Stays memory.now pass.old pass.new }
{
    if pass.log().spare() == 0 || pass.held().is_some() || !is_access(m, op) {
        return Err(Halt::Long);
    }
    let answer = memory.try_access(pass, HERE, &op);
    tell(text, pass, op, &answer)
}

fn tick(memory: &SharedMem<'_>, pass: &mut Pass, value: i32, text: &mut String) -> Result<(), Halt>
    requires pass { IsPassOf memory.now pass.old }
    ensures { Stays memory.now pass.old pass.new }
{
    if pass.log().spare() == 0 {
        return Err(Halt::Long);
    }
    let op = Op::Out { value };
    let answer = memory.tick(pass, HERE, &op, Answer::Unit);
    tell_tick(text, pass, op, &answer)
}

/// Takes a lock, and tells whether it was free.
pub fn hold(
    memory: &SharedMem<'_>,
    pass: &mut Pass,
    lock: u32,
    text: &mut String,
) -> Result<(), Halt>
    requires stripes { (plan_of memory.now).stripes ≡ 16 }
    requires pass { IsPassOf memory.now pass.old }
    ensures { Stays memory.now pass.old pass.new }
{
    if pass.held().is_some() || lock > STRIPES {
        return Err(Halt::Long);
    }
    let name = pass.name().0;
    match memory.try_hold(pass, lock) {
        Ok(()) => writeln!(text, "{name}: holds {lock}")?,
        Err(busy) => writeln!(text, "{name}: {busy:?}")?,
    }
    Ok(())
}

/// Frees the lock that a pass holds.
pub fn free(memory: &SharedMem<'_>, pass: &mut Pass)
    requires { IsPassOf memory.now pass.old }
    ensures { IsFree memory.now pass.old pass.new }
{
    if pass.held().is_some() {
        memory.release(pass);
    }
}

fn tell(
    text: &mut String,
    pass: &Pass,
    op: Op,
    answer: &Result<Entry, TryFault>,
) -> Result<(), Halt> {
    let name = pass.name().0;
    match answer {
        Ok(entry) => {
            let answer = entry.answer;
            writeln!(text, "{name}: {op:?}, {answer:?}")?;
        }
        Err(fault) => writeln!(text, "{name}: {op:?}, {fault:?}")?,
    }
    Ok(())
}

fn tell_tick(
    text: &mut String,
    pass: &Pass,
    op: Op,
    answer: &Result<Entry, TickFault>,
) -> Result<(), Halt> {
    let name = pass.name().0;
    match answer {
        Ok(entry) => {
            let answer = entry.answer;
            writeln!(text, "{name}: {op:?}, {answer:?}")?;
        }
        Err(fault) => writeln!(text, "{name}: {op:?}, {fault:?}")?,
    }
    Ok(())
}
