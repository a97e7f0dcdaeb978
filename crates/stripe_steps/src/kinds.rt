// The kinds of step, one function each.
ghost use Rattle.std.specs.Prelude.{◌≡◌, ◌+◌, ◌*◌, ◌<◌, [], ◌∷◌, true, false};
ghost use mathlib.Core.Option.{none};
ghost use Rattle.atomic_table.specs.Table.{step};
ghost use Rattle.dfi_base.specs.Names.{depth_of};
ghost use Rattle.stripe_rule.specs.Terms.{terms_of};
ghost use Rattle.stripe_rule.specs.Kids.{Has};
ghost use Rattle.stripe_rule.specs.Views.{parent, child, joined};
ghost use Rattle.stripe_rule.specs.Steps.{Takes, Looks, Draws, Tells, Hears, Halts, Gives, IsOwn, Serves};
ghost use Rattle.stripe_rule.specs.tools.Logs.{HasStop};

use crate::steps::Steps;
use atomic_table::Seat;
use stripe_rule::{
    Content, Draw, Drawn, Fork, Give, Halt, Hear, Look, Merge, Named, Take, Tell, View,
};
use tac_ir::Entry;

impl<'m> Steps<'m> {
    /// Takes a lock whose word is 0, with what lies under it. Gives the word that was found.
    pub fn take(&self, seat: &mut Seat<Content, View>, lock: usize, name: u64) -> u64
        requires table { seat.old.table_id ≡ self.now.table.shared.table_id }
        requires lock { lock < self.now.plan.stripes + 1 }
        requires free { (seat.old.me.0.holds ≡ false) × (seat.old.me.0.name ≡ name) × (0 < name) × (0 < seat.old.me.0.parts) }
        ensures table { (seat.new.table_id ≡ seat.old.table_id) × (seat.new.id ≡ seat.old.id) }
        ensures took { Takes (step (self.now.plan.stripes + 1) lock 0 name none) seat.old.me result seat.new.me }
    {
        self.table
            .shared
            .compare_exchange::<Take>(seat, lock, 0, name)
    }

    /// Loads the clock.
    pub fn look(&self, seat: &mut Seat<Content, View>) -> u64
        requires table { seat.old.table_id ≡ self.now.table.shared.table_id }
        requires live { 0 < seat.old.me.0.parts }
        ensures table { (seat.new.table_id ≡ seat.old.table_id) × (seat.new.id ≡ seat.old.id) }
        ensures looked { Looks (step (self.now.plan.stripes + 1) (self.now.plan.stripes + 1) 0 0 none) seat.old.me result seat.new.me }
    {
        self.table.shared.load::<Look>(seat, self.plan.stripes + 1)
    }

    /// Draws a ticket for an entry.
    pub fn draw<E: Drawn>(&self, seat: &mut Seat<Content, View>, entry: Entry) -> u64
        requires table { seat.old.table_id ≡ self.now.table.shared.table_id }
        requires entry { entry ≡ E.entry }
        requires ready { (seat.old.me.0.ready ≡ 1) × (0 < seat.old.me.0.parts) }
        requires own { IsOwn (terms_of self.now.plan) seat.old.me.0 entry }
        requires serves { Serves (terms_of self.now.plan) seat.old.me.0 entry E.next }
        ensures table { (seat.new.table_id ≡ seat.old.table_id) × (seat.new.id ≡ seat.old.id) }
        ensures drew { Draws entry E.next (step (self.now.plan.stripes + 1) (self.now.plan.stripes + 1) 1 0 none) seat.old.me result seat.new.me }
    {
        self.table
            .shared
            .fetch_add::<Draw<E>>(seat, self.plan.stripes + 1, 1)
    }

    /// Frees the lock, and gives back what lies under it.
    pub fn give(&self, seat: &mut Seat<Content, View>, lock: usize)
        requires table { seat.old.table_id ≡ self.now.table.shared.table_id }
        requires held { (seat.old.me.0.holds ≡ true) × (seat.old.me.0.stripe ≡ lock) × (lock < self.now.plan.stripes + 1) }
        requires slot { seat.old.me.1 ≡ (lock, seat.old.me.0.content) ∷ [] }
        ensures table { (seat.new.table_id ≡ seat.old.table_id) × (seat.new.id ≡ seat.old.id) }
        ensures gave { Gives (step (self.now.plan.stripes + 1) lock 0 0 none) seat.old.me 0 seat.new.me }
    {
        self.table.shared.store::<Give>(seat, lock, 0)
    }

    /// Makes a seat for a branch of this name.
    pub fn cut<C: Named>(&self, seat: &mut Seat<Content, View>, name: u64) -> Seat<Content, View>
        requires table { seat.old.table_id ≡ self.now.table.shared.table_id }
        requires name { name ≡ C.name }
        requires live { (0 < seat.old.me.0.parts) × (0 < seat.old.me.0.name) × (depth_of seat.old.me.0.name < 14) }
        requires fresh { (seat.old.me.0.name * 16 < name) × (name < seat.old.me.0.name * 16 + 16) × ¬ (Has name seat.old.me.0.kids) }
        ensures table { (seat.new.table_id ≡ seat.old.table_id) × (seat.new.id ≡ seat.old.id) × (result.table_id ≡ seat.old.table_id) }
        ensures old { seat.new.me ≡ (parent name seat.old.me.0, seat.old.me.1) }
        ensures new { result.me ≡ (child name seat.old.me.0, []) }
    {
        self.table.shared.split_seat::<Fork<C>>(seat)
    }

    /// Takes in the seat of a branch.
    pub fn unite(&self, seat: &mut Seat<Content, View>, other: Seat<Content, View>)
        requires table { (seat.old.table_id ≡ self.now.table.shared.table_id) × (other.table_id ≡ self.now.table.shared.table_id) }
        requires live { (0 < seat.old.me.0.parts) × (0 < other.me.0.parts) × (0 < seat.old.me.0.name) }
        requires kid { Has other.me.0.name seat.old.me.0.kids }
        requires free { (other.me.1 ≡ []) × (other.me.0.holds ≡ false) × (other.me.0.kids ≡ []) }
        ensures table { (seat.new.table_id ≡ seat.old.table_id) × (seat.new.id ≡ seat.old.id) }
        ensures both { seat.new.me ≡ (joined seat.old.me.0 other.me.0, seat.old.me.1) }
    {
        self.table.shared.join_seat::<Merge>(seat, other);
    }

    /// Loads a word for what the rule tells of the pass.
    pub fn tell(&self, seat: &mut Seat<Content, View>) -> u64
        requires table { seat.old.table_id ≡ self.now.table.shared.table_id }
        ensures table { (seat.new.table_id ≡ seat.old.table_id) × (seat.new.id ≡ seat.old.id) }
        ensures told { Tells (step (self.now.plan.stripes + 1) 0 0 0 none) seat.old.me result seat.new.me }
    {
        self.table.shared.load::<Tell>(seat, 0)
    }

    /// Loads the halt word.
    pub fn hear(&self, seat: &mut Seat<Content, View>) -> u64
        requires table { seat.old.table_id ≡ self.now.table.shared.table_id }
        ensures table { (seat.new.table_id ≡ seat.old.table_id) × (seat.new.id ≡ seat.old.id) }
        ensures heard { Hears (step (self.now.plan.stripes + 1) (self.now.plan.stripes + 2) 0 0 none) seat.old.me result seat.new.me }
    {
        self.table.shared.load::<Hear>(seat, self.plan.stripes + 2)
    }

    /// Sets the halt word.
    pub fn halt(&self, seat: &mut Seat<Content, View>)
        requires table { seat.old.table_id ≡ self.now.table.shared.table_id }
        requires stop { HasStop seat.old.me.0.log }
        ensures table { (seat.new.table_id ≡ seat.old.table_id) × (seat.new.id ≡ seat.old.id) }
        ensures halted { Halts (step (self.now.plan.stripes + 1) (self.now.plan.stripes + 2) 1 0 none) seat.old.me 1 seat.new.me }
    {
        self.table
            .shared
            .store::<Halt>(seat, self.plan.stripes + 2, 1)
    }
}
