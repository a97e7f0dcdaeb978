// The desk: the blocks of the heap, and the input.
ghost use Rattle.std.specs.Prelude.{◌≡◌, ◌<◌, IfOk, OnErr};
ghost use Rattle.tac_ir.specs.declared.run.Op.{Op};
ghost use Rattle.tac_ir.specs.Words.{word_of};
ghost use Rattle.heap_desk.specs.Replies.{first_of};
ghost use Rattle.stripe_rule.specs.declared.content.Content.{Content};
ghost use Rattle.stripe_rule.specs.Terms.{terms_of};
ghost use Rattle.stripe_rule.specs.Locks.{lock_of};
ghost use Rattle.stripe_rule.specs.Holds.{Sometime};
ghost use Rattle.stripe_rule.specs.Serving.{desk_before, desk_after};
ghost use Rattle.stripe_events.specs.Tables.{AreTablesOf};
ghost use Rattle.stripe_events.specs.Accesses.{IsAccess, TakesBlock};
ghost use Rattle.stripe_events.specs.Prepared.{IsPrepared};

use crate::tables::Tables;
use dfi_base::Memory;
use heap_desk::{Desk, TakeFault};
use stripe_rule::Plan;
use tac_ir::{Answer, Op, Stop};

// Takes a block of so many items of a site.
fn take_block(
    desk: &mut Desk,
    plan: &Plan<'_>,
    tables: &Tables,
    site: u16,
    count: i32,
) -> Result<Answer, Memory>
    requires tables { AreTablesOf plan.now.md.now tables.now }
    ensures ok { IfOk result (λ a. IsPrepared (terms_of plan.now) (Op.New site count) a (Content.Desk desk.old) (Content.Desk desk.new)) }
    ensures err { OnErr result (desk.new ≡ desk.old) }
{
    desk.heap_law();
    let words = tables.item_words(plan.md, site);
    match desk.take(count, words) {
        Ok(at) => Ok(Answer::Value(at)),
        Err(TakeFault::NoRoom) => Ok(Answer::Stop(Stop::Heap)),
        Err(TakeFault::Memory) => Err(Memory),
    }
}

// The number of the input that comes next, as a word.
fn coming(desk: &Desk) -> u32
    ensures { result ≡ word_of (first_of desk.now.rest) }
{
    desk.coming().cast_unsigned()
}

fn can_free(desk: &Desk, plan: &Plan<'_>, word: u32) -> Answer
    ensures { IsPrepared (terms_of plan.now) (Op.Free word) result (Content.Desk desk.now) (Content.Desk desk.now) }
{
    if desk.can_give(word) {
        Answer::Unit
    } else {
        Answer::Stop(Stop::Free)
    }
}

/// The answer of an event of the heap or the input. The room of a block is taken, and all else stays.
pub(crate) fn prepare(
    desk: &mut Desk,
    plan: &Plan<'_>,
    tables: &Tables,
    op: Op,
) -> Result<Answer, Memory>
    requires tables { AreTablesOf plan.now.md.now tables.now }
    requires some { 0 < plan.now.stripes }
    requires access { IsAccess (terms_of plan.now) op }
    requires held { Sometime (terms_of plan.now) (lock_of (terms_of plan.now) op) (Content.Desk desk.old) }
    ensures ok { IfOk result (λ a. IsPrepared (terms_of plan.now) op a (Content.Desk desk.old) (Content.Desk desk.new)) }
    ensures err { OnErr result (desk.new ≡ desk.old) }
    ensures cause { OnErr result (TakesBlock op) }
{
    match op {
        Op::New { site, count } => take_block(desk, plan, tables, site, count),
        Op::Free { word } => Ok(can_free(desk, plan, word)),
        Op::In => Ok(Answer::Value(coming(desk))),
        Op::Left => Ok(Answer::Value(desk.left())),
        _ => unreachable!(),
    }
}

/// Gives back the room that was taken for an answer.
pub(crate) fn undo(desk: &mut Desk, op: Op, answer: Answer)
    ensures { desk.new ≡ desk_before op answer desk.old }
{
    if let (Op::New { .. }, Answer::Value(at)) = (op, answer) {
        let _ = desk.give(at);
    }
}

/// Gives back a block, or takes a number of the input.
pub(crate) fn finish(desk: &mut Desk, op: Op)
    ensures { desk.new ≡ desk_after op desk.old }
{
    match op {
        Op::Free { word } => {
            let _ = desk.give(word);
        }
        Op::In => {
            let _ = desk.next_int();
        }
        _ => {}
    }
}
