ghost use Rattle.std.specs.Prelude.{◌≡◌, Some, IsTrue, IfSome, OnOk};
ghost use Rattle.code_layout.specs.LayoutOf.{IsLayoutOf};
ghost use Rattle.tac_ir.specs.GoodForm.{GoodForm};
ghost use Rattle.tac_thread.specs.declared.want.Want.{Want};
ghost use Rattle.tac_thread.specs.Answered.{IsReplyTo};
ghost use Rattle.tac_thread.specs.Flat.{flat_meaning};
ghost use Rattle.tac_thread.specs.Threads.{life_in, next_in, IsTree};

use crate::desk::Desk;
use crate::log::Log;
use crate::row::{Room, Shown};
use crate::stacks::{called, shares};
use code_layout::Layout;
use dfi_base::{Memory, Name};
use std::alloc::Global;
use tac_ir::Code;
use tac_thread::{FlatStack, FlatWords, Reply, ReplyOf, Tree, Want};

/// Where main's frame begins.
const START: u32 = 100;

/// An answer of the kind that an event has, with this value where it has one; calls and forks have others.
fn reply_to(want: Want<u32>, value: u32) -> Option<Reply<FlatWords>>
    ensures { IfSome result (λ reply. (c : _) → IsReplyTo flat_meaning c want reply) }
{
    match want {
        Want::Read { .. }
        | Want::Same { .. }
        | Want::New { .. }
        | Want::In
        | Want::Left
        | Want::Pop { .. } => Some(ReplyOf::Value(value)),
        Want::Write { .. }
        | Want::Free { .. }
        | Want::Out { .. }
        | Want::Ret
        | Want::Turn
        | Want::Push { .. } => Some(ReplyOf::Unit),
        Want::Call { .. }
        | Want::Fork { .. }
        | Want::Zero
        | Want::Bad
        | Want::Waits
        | Want::Ended(_) => None,
    }
}

fn fork(
    alloc: Global,
    tree: &mut Tree<FlatWords>,
    c: &Code,
    l: &Layout,
    name: Name,
    branches: u32,
) -> Result<(), Memory>
    requires form { GoodForm c.now }
    requires laid { IsLayoutOf c.now l.now }
    requires tree { IsTree flat_meaning c.now (life_in tree.old) }
    requires next { next_in flat_meaning c.now (life_in tree.old) name.0 ≡ Some (Want.Fork branches) }
    ensures { OnOk result (IsTree flat_meaning c.now (life_in tree.new)) }
{
    let Some(at) = tree.at(name) else {
        return Ok(());
    };
    let Some(stack) = tree.stack(name) else {
        return Ok(());
    };
    let stacks = shares(alloc, c, l, at.fun, &stack, branches)?;
    if stacks.len() != branches as usize {
        return Ok(());
    }
    tree.fork(c, l, name, stacks.as_slice())
}

fn call(
    tree: &mut Tree<FlatWords>,
    c: &Code,
    l: &Layout,
    name: Name,
    fun: u32,
) -> Result<(), Memory>
    requires form { GoodForm c.now }
    requires laid { IsLayoutOf c.now l.now }
    requires tree { IsTree flat_meaning c.now (life_in tree.old) }
    requires next { next_in flat_meaning c.now (life_in tree.old) name.0 ≡ Some (Want.Call fun) }
    ensures { OnOk result (IsTree flat_meaning c.now (life_in tree.new)) }
{
    let Some(stack) = tree.stack(name) else {
        return Ok(());
    };
    match called(c, l, &stack, fun) {
        None => Ok(()),
        Some(callee) => tree.feed(c, l, name, ReplyOf::Stack(callee)),
    }
}

/// Answers the next event of a thread. What has no room, or ends the run, is left as it is.
fn turn(
    alloc: Global,
    tree: &mut Tree<FlatWords>,
    c: &Code,
    l: &Layout,
    name: Name,
    want: Want<u32>,
    desk: &mut Desk,
) -> Result<(), Memory>
    requires form { GoodForm c.now }
    requires laid { IsLayoutOf c.now l.now }
    requires tree { IsTree flat_meaning c.now (life_in tree.old) }
    requires next { next_in flat_meaning c.now (life_in tree.old) name.0 ≡ Some want }
    ensures { OnOk result (IsTree flat_meaning c.now (life_in tree.new)) }
{
    if let Want::Fork { branches } = want {
        return fork(alloc, tree, c, l, name, branches);
    }
    if let Want::Call { fun } = want {
        return call(tree, c, l, name, fun);
    }
    let value = desk.value(want)?;
    match reply_to(want, value) {
        None => Ok(()),
        Some(reply) => tree.feed(c, l, name, reply),
    }
}

// The events of the least runnable threads in turn, at most so many, and main's value.
fn run(
    alloc: Global,
    tree: &mut Tree<FlatWords>,
    c: &Code,
    l: &Layout,
    desk: &mut Desk,
    log: &mut Log<u32>,
    limit: u64,
) -> Result<Option<u32>, Memory>
    requires form { GoodForm c.now }
    requires laid { IsLayoutOf c.now l.now }
    requires tree { IsTree flat_meaning c.now (life_in tree.old) }
{
    'turns: for _ in 0..limit {
        let Some(name) = tree.least() else {
            break;
        };
        let Some(want) = tree.next(c, l, name) else {
            break;
        };
        log.take(name, want)?;
        turn(alloc, tree, c, l, name, want, desk)?;
    }
    Ok(tree.done())
}

fn run_in(
    alloc: Global,
    c: &Code,
    l: &Layout,
    stack: FlatStack,
    desk: &mut Desk,
    log: &mut Log<u32>,
    limit: u64,
) -> Result<Option<u32>, Memory>
    requires form { GoodForm c.now }
    requires laid { IsLayoutOf c.now l.now }
    requires frame { IsTrue (flat_meaning.has_frame c.now c.now.main stack) }
{
    let mut tree = Tree::<FlatWords>::new(alloc, c, l, stack)?;
    run(alloc, &mut tree, c, l, desk, log, limit)
}

/// Main's frame from word 100 on, and the room behind it up to this word.
fn main_stack(c: &Code, l: &Layout, end: u32) -> Option<FlatStack>
    requires form { GoodForm c.now }
    requires laid { IsLayoutOf c.now l.now }
    ensures { IfSome result (λ stack. IsTrue (flat_meaning.has_frame c.now c.now.main stack)) }
{
    let room = FlatStack {
        base: START,
        top: START,
        end,
    };
    called(c, l, &room, c.main)
}

/// Adds main's stack, the events of its threads, and main's value.
pub fn play(
    alloc: Global,
    text: String,
    c: &Code,
    room: Room,
    limit: u64,
    shown: Shown,
) -> Result<String, Memory>
    requires { GoodForm c.now }
{
    let layout = Layout::of(alloc, c)?;
    let Some(stack) = main_stack(c, &layout, room.end) else {
        return Ok(text);
    };
    let text = with_stack(text, &stack)?;
    let mut log = Log::new(text, shown);
    let mut desk = Desk::new(alloc, room.wrong);
    let done = run_in(alloc, c, &layout, stack, &mut desk, &mut log, limit)?;
    log.into_text(done)
}

fn with_stack(text: String, stack: &FlatStack) -> Result<String, Memory> {
    let mut text = text;
    writeln!(
        text,
        "main at {} to {} of {}",
        stack.base, stack.top, stack.end
    )?;
    Ok(text)
}
