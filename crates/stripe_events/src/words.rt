// The words of a stripe.
ghost use Rattle.std.specs.Prelude.{◌≡◌, ◌<◌};
ghost use Rattle.word_table.specs.tools.Classes.{AreShort};
ghost use Rattle.stripe_rule.specs.declared.content.Content.{Content};
ghost use Rattle.stripe_rule.specs.Terms.{terms_of};
ghost use Rattle.stripe_rule.specs.Locks.{lock_of};
ghost use Rattle.stripe_rule.specs.Holds.{Sometime};
ghost use Rattle.stripe_rule.specs.Serving.{content_after};
ghost use Rattle.stripe_events.specs.Tables.{AreTablesOf};
ghost use Rattle.stripe_events.specs.Accesses.{IsAccess};
ghost use Rattle.stripe_events.specs.Prepared.{IsHere, IsPrepared};

use crate::tables::Tables;
use stripe_rule::Plan;
use tac_ir::{Answer, Op};
use word_table::StripeTable;

/// The answer of a read or write of one of the words.
pub(crate) fn answer_of(words: &StripeTable, plan: &Plan<'_>, tables: &Tables, op: Op) -> Answer
    requires tables { AreTablesOf plan.now.md.now tables.now }
    requires some { 0 < plan.now.stripes }
    requires access { IsAccess (terms_of plan.now) op }
    requires held { Sometime (terms_of plan.now) (lock_of (terms_of plan.now) op) (Content.Words words.now) }
    ensures { IsPrepared (terms_of plan.now) op result (Content.Words words.now) (Content.Words words.now) }
{
    match op {
        Op::Read { read, word } => words.read(plan.md, &tables.rows, read, word),
        Op::Write { word, .. } => words.can_write(word),
        _ => unreachable!(),
    }
}

/// Writes the word of a write.
pub(crate) fn finish(words: &mut StripeTable, plan: &Plan<'_>, op: Op)
    requires short { AreShort plan.now.md.now }
    requires here { IsHere op (Content.Words words.old) }
    ensures { Content.Words words.new ≡ content_after (terms_of plan.now) op (Content.Words words.old) }
{
    if let Op::Write { def, word, value } = op {
        words.write(plan.md, def, word, value);
    }
}
