ghost use Rattle.std.specs.Prelude.{◌≡◌, ◌+◌, ◌<◌, ◌^◌};
ghost use Rattle.stripe_rule.specs.Terms.{terms_of};
ghost use Rattle.stripe_events.specs.Tables.{AreTablesOf};

use atomic_table::Table;
use std::alloc::Global;
use stripe_events::Tables;
use stripe_rule::{Content, Law, Plan, View};

/// The locks of a memory that threads share, its clock and its halt word, and what lies under the locks. There is a lock for each stripe of its words, and one
/// for the desk. No step of it is but those of this crate.
#[derive(Drop)]
pub struct Steps<'m> {
    pub(crate) table: Table<Content, View, Plan<'m>, Law, Global>,
    pub plan: Plan<'m>,
    pub(crate) tables: Tables,
    ghost planned: { terms_of table.shared.key ≡ terms_of plan },
    ghost sized: { (table.shared.table_id.words ≡ plan.stripes + 3) × (table.shared.table_id.slots ≡ plan.stripes + 1) },
    ghost limits: { (0 < plan.stripes) × (plan.stripes < 2 ^ 31) × (plan.budget < 2 ^ 62) },
    ghost answering: { AreTablesOf plan.md.now tables },
}
