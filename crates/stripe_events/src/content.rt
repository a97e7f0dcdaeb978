ghost use Rattle.std.specs.Prelude.{◌≡◌, ◌<◌, IfOk, OnErr};
ghost use Rattle.stripe_rule.specs.Terms.{terms_of};
ghost use Rattle.stripe_rule.specs.Locks.{lock_of};
ghost use Rattle.stripe_rule.specs.Holds.{Sometime};
ghost use Rattle.stripe_rule.specs.Serving.{content_before, content_after};
ghost use Rattle.stripe_events.specs.Tables.{AreTablesOf};
ghost use Rattle.stripe_events.specs.Accesses.{IsAccess, TakesBlock};
ghost use Rattle.stripe_events.specs.Prepared.{IsHere, IsPrepared};

use crate::tables::Tables;
use crate::{desk, words};
use dfi_base::Memory;
use stripe_rule::{Content, Plan};
use tac_ir::{Answer, Op};

/// The answer of an event to what lies under its lock. The room of a block is taken, and all else stays.
pub fn prepare(
    content: &mut Content,
    plan: &Plan<'_>,
    tables: &Tables,
    op: Op,
) -> Result<Answer, Memory>
    requires tables { AreTablesOf plan.now.md.now tables.now }
    requires some { 0 < plan.now.stripes }
    requires access { IsAccess (terms_of plan.now) op }
    requires held { Sometime (terms_of plan.now) (lock_of (terms_of plan.now) op) content.old }
    ensures ok { IfOk result (λ a. IsPrepared (terms_of plan.now) op a content.old content.new) }
    ensures err { OnErr result (content.new ≡ content.old) }
    ensures cause { OnErr result (TakesBlock op) }
{
    match content {
        Content::Words(words) => Ok(words::answer_of(words, plan, tables, op)),
        Content::Desk(desk) => desk::prepare(desk, plan, tables, op),
    }
}

/// Takes an answer back.
pub fn undo(content: &mut Content, op: Op, answer: Answer)
    ensures { content.new ≡ content_before op answer content.old }
{
    if let Content::Desk(desk) = content {
        desk::undo(desk, op, answer);
    }
}

/// Does what is left to be done of an event.
pub fn finish(content: &mut Content, plan: &Plan<'_>, tables: &Tables, op: Op)
    requires tables { AreTablesOf plan.now.md.now tables.now }
    requires here { IsHere op content.old }
    ensures { content.new ≡ content_after (terms_of plan.now) op content.old }
{
    match content {
        Content::Words(words) => words::finish(words, plan, op),
        Content::Desk(desk) => desk::finish(desk, op),
    }
}
