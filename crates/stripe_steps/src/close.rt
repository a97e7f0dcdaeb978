ghost use Rattle.std.specs.Prelude.{◌≡◌, ◌<◌, []};
ghost use Rattle.stripe_rule.specs.Terms.{terms_of};
ghost use Rattle.stripe_rule.specs.Laws.{IsClosed};

use crate::steps::Steps;
use atomic_table::Seat;
use stripe_rule::{Content, View};

impl<'m> Steps<'m> {
    /// Ends all steps. The seat is that of thread 1, into which all others were joined.
    pub fn close(self, root: Seat<Content, View>)
        requires table { root.table_id ≡ self.table.shared.table_id }
        requires root { (root.me.0.name ≡ 1) × (root.me.0.kids ≡ []) × (0 < root.me.0.parts) }
        ensures { IsClosed (terms_of self.entry.plan) root.me.0 }
    {
        let Steps { table, .. } = self;
        let mut closed = table.close_with(root);
        let mut i = 0;
        while i < closed.slot_count() {
            drop(closed.take(i));
            i += 1;
        }
        closed.free();
    }
}
