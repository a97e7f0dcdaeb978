ghost use Rattle.std.specs.Prelude.{◌≡◌, Some, IfSome, OnOk};
ghost use Rattle.code_layout.specs.LayoutOf.{IsLayoutOf};
ghost use Rattle.tac_ir.specs.GoodForm.{GoodForm};
ghost use Rattle.tac_thread.specs.Answered.{IsReplyTo};
ghost use Rattle.tac_thread.specs.Threads.{life_in, next_in, IsTree};
ghost use Rattle.test_threads.specs.Bytes.{bytes_meaning};

use crate::bytes::Bytes;
use crate::log::Log;
use crate::row::Shown;
use code_layout::Layout;
use dfi_base::{Memory, Name};
use std::alloc::Global;
use tac_ir::Code;
use tac_thread::{Reply, ReplyOf, Tree, Want};

/// What each event with a value is answered.
const ANSWER: u8 = 9;

/// An answer of the kind that an event has; forks have others.
fn reply_to(want: Want<u8>) -> Option<Reply<Bytes>>
    ensures { IfSome result (λ reply. (c : _) → IsReplyTo bytes_meaning c want reply) }
{
    match want {
        Want::Read { .. }
        | Want::Same { .. }
        | Want::New { .. }
        | Want::In
        | Want::Left
        | Want::Pop { .. } => Some(ReplyOf::Value(ANSWER)),
        Want::Call { .. } => Some(ReplyOf::Stack(0)),
        Want::Write { .. }
        | Want::Free { .. }
        | Want::Out { .. }
        | Want::Ret
        | Want::Turn
        | Want::Push { .. } => Some(ReplyOf::Unit),
        Want::Fork { .. } | Want::Zero | Want::Bad | Want::Waits | Want::Ended(_) => None,
    }
}

/// Answers the next event of a thread. What ends the run is left as it is.
fn turn(
    alloc: Global,
    tree: &mut Tree<Bytes>,
    c: &Code,
    l: &Layout,
    name: Name,
    want: Want<u8>,
) -> Result<(), Memory>
    requires form { GoodForm c.now }
    requires laid { IsLayoutOf c.now l.now }
    requires tree { IsTree bytes_meaning c.now (life_in tree.old) }
    requires next { next_in bytes_meaning c.now (life_in tree.old) name.0 ≡ Some want }
    ensures { OnOk result (IsTree bytes_meaning c.now (life_in tree.new)) }
{
    if let Want::Fork { branches } = want {
        let stacks = vec![in alloc; 0u8; branches as usize]?;
        return tree.fork(c, l, name, stacks.as_slice());
    }
    match reply_to(want) {
        None => Ok(()),
        Some(reply) => tree.feed(c, l, name, reply),
    }
}

// The events of the least runnable threads in turn, at most so many, and main's value.
fn run(
    alloc: Global,
    tree: &mut Tree<Bytes>,
    c: &Code,
    l: &Layout,
    log: &mut Log<u8>,
    limit: u64,
) -> Result<Option<u8>, Memory>
    requires form { GoodForm c.now }
    requires laid { IsLayoutOf c.now l.now }
    requires tree { IsTree bytes_meaning c.now (life_in tree.old) }
{
    'turns: for _ in 0..limit {
        let Some(name) = tree.least() else {
            break;
        };
        let Some(want) = tree.next(c, l, name) else {
            break;
        };
        log.take(name, want)?;
        turn(alloc, tree, c, l, name, want)?;
    }
    Ok(tree.done())
}

fn run_from_start(
    alloc: Global,
    c: &Code,
    l: &Layout,
    log: &mut Log<u8>,
    limit: u64,
) -> Result<Option<u8>, Memory>
    requires form { GoodForm c.now }
    requires laid { IsLayoutOf c.now l.now }
{
    let mut tree = Tree::<Bytes>::new(alloc, c, l, 0)?;
    run(alloc, &mut tree, c, l, log, limit)
}

/// Adds the events of the threads, and main's value.
pub fn play(
    alloc: Global,
    text: String,
    c: &Code,
    limit: u64,
    shown: Shown,
) -> Result<String, Memory>
    requires { GoodForm c.now }
{
    let mut log = Log::new(text, shown);
    let layout = Layout::of(alloc, c)?;
    let done = run_from_start(alloc, c, &layout, &mut log, limit)?;
    log.into_text(done)
}
