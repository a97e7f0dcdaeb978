use crate::content::Content;
use crate::plan::Plan;
use crate::view::View;
use atomic_table::{Join, Play, Split, TableRule};
use std::marker::{Brand, PhantomData};

/// The rule of the table.
pub struct Law;

impl<'m> TableRule<Content, View, Plan<'m>> for Law {
    ghost use Rattle.stripe_rule.specs.Terms.{terms_of};
    ghost use Rattle.stripe_rule.specs.Views.{root};
    ghost use Rattle.stripe_rule.specs.Kept.{Kept};

    ghost holds = { λ k. Kept (terms_of k) };

    ghost first = { λ k. root (terms_of k) };
}

/// Takes a lock, and what lies under it.
pub struct Take;

impl Play<Content, View> for Take {
    ghost use Rattle.stripe_rule.specs.Steps.{Takes};

    ghost then = { Takes };
}

/// Loads the clock.
pub struct Look;

impl Play<Content, View> for Look {
    ghost use Rattle.stripe_rule.specs.Steps.{Looks};

    ghost then = { Looks };
}

/// Loads a word, whatever it is.
pub struct Tell;

impl Play<Content, View> for Tell {
    ghost use Rattle.stripe_rule.specs.Steps.{Tells};

    ghost then = { Tells };
}

/// Loads the halt word.
pub struct Hear;

impl Play<Content, View> for Hear {
    ghost use Rattle.stripe_rule.specs.Steps.{Hears};

    ghost then = { Hears };
}

/// Sets the halt word.
pub struct Halt;

impl Play<Content, View> for Halt {
    ghost use Rattle.stripe_rule.specs.Steps.{Halts};

    ghost then = { Halts };
}

/// Frees a lock, and gives back what lies under it.
pub struct Give;

impl Play<Content, View> for Give {
    ghost use Rattle.stripe_rule.specs.Steps.{Gives};

    ghost then = { Gives };
}

/// The entry that a ticket is drawn for, and what is held then. Each call picks them.
pub trait Drawn {
    ghost use Rattle.tac_ir.specs.declared.run.Entry.{Entry};
    ghost use Rattle.stripe_rule.specs.declared.content.Content.{Content};

    ghost entry: { Entry };

    ghost next: { Content };
}

impl Drawn for Brand {
    ghost use Rattle.stripe_rule.specs.Views.{no_entry, nothing};

    ghost entry = { no_entry };

    ghost next = { nothing };
}

/// Draws a ticket.
pub struct Draw<E: Drawn> {
    of: PhantomData<E>,
}

impl<E: Drawn> Play<Content, View> for Draw<E> {
    ghost use Rattle.stripe_rule.specs.Steps.{Draws};

    ghost then = { Draws E.entry E.next };
}

/// The name of a new pass. Each call picks it.
pub trait Named {
    ghost use Rattle.std.specs.Prelude.{ℕ};

    ghost name: { ℕ };
}

impl Named for Brand {
    ghost name = { 0 };
}

/// Makes a pass for a branch.
pub struct Fork<C: Named> {
    of: PhantomData<C>,
}

impl<C: Named> Split<View> for Fork<C> {
    ghost use Rattle.stripe_rule.specs.Views.{parent, child};

    ghost left = { parent C.name };

    ghost right = { child C.name };
}

/// Takes the pass of a branch in.
pub struct Merge;

impl Join<View> for Merge {
    ghost use Rattle.stripe_rule.specs.Views.{joined, nobody};

    ghost both = { joined };

    ghost spent = { nobody };
}
