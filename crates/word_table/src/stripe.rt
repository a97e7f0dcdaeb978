ghost use Rattle.std.specs.Prelude.{◌≡◌, ◌*◌, ◌/◌, ◌-◌, ◌+◌, ◌<◌, ◌≤◌, ◌^◌, ℕ, List, ◌∷◌, IfOk, length};
ghost use Rattle.tac_ir.specs.declared.run.Entry.{Entry};
ghost use Rattle.tac_ir.specs.declared.run.Op.{Op};
ghost use Rattle.tac_ir.specs.Answers.{class_of, read_answer, write_answer};
ghost use Rattle.tac_ir.specs.Module.{Module};
ghost use Rattle.word_table.specs.Decides.{DecideReads};
ghost use Rattle.word_table.specs.tools.Classes.{AreShort};
ghost use Rattle.word_table.specs.Stripes.{HoldsStripe, IsIn, IsStripeOf, WholeIsOneStripe, StripeOfWhole, OtherStripesStay, with_word, words_of};
ghost use Rattle.word_table.specs.tools.Picked.{IsPicked};
ghost use Rattle.word_table.specs.tools.Deciding.{decided};

use crate::classes::class_of;
use crate::rows::ReadRows;
use crate::table::found_by;
use dfi_base::{DefNo, Memory, ReadNo};
use std::alloc::Global;
use std::marker::Model;
use tac_ir::{Answer, Module, Stop};

/// The part of a memory whose words leave `stripe` when divided by `stripes`: word `w` stands at `w / stripes`.
#[derive(Drop)]
pub struct StripeTable {
    stripe: u32,
    stripes: u32,
    values: Vec<u32>,
    classes: Vec<u16>,
}

impl Model for StripeTable {
    ghost use Rattle.std.specs.Prelude.{◌<◌};
    ghost use Rattle.word_table.specs.Stripes.{Stripe};

    ghost Value = { Stripe };

    ghost view = { λ t. record { stripe = t.stripe; stripes = t.stripes; values = t.values.items; classes = t.classes.items } };

    ghost invariant = { λ t. t.stripe < t.stripes };
}

impl StripeTable {
    /// The stripe of a memory with these values and classes.
    pub fn of(
        alloc: Global,
        values: &[u32],
        classes: &[u16],
        stripe: u32,
        stripes: u32,
    ) -> Result<StripeTable, Memory>
        requires own { stripe < stripes }
        requires few { (length values.now < 2 ^ 31) × (length classes.now < 2 ^ 31) }
        ensures { IfOk result (λ t. IsStripeOf values.now classes.now stripe stripes t) }
    {
        let values = picked(alloc, values, stripe as usize, stripes as usize)?;
        let classes = picked(alloc, classes, stripe as usize, stripes as usize)?;
        Ok(StripeTable {
            stripe,
            stripes,
            values,
            classes,
        })
    }

    /// The answer of a read of a word of the stripe.
    pub fn read(&self, m: &Module, rows: &ReadRows, read: ReadNo, word: u32) -> Answer
        requires rows { DecideReads m.now rows.now.rows.items }
        requires own { IsIn self.now word }
        ensures { (h : List Entry) → HoldsStripe m.now h self.now → result ≡ read_answer m.now h read.0 word }
    {
        self.decide(m, rows, u32::from(read.0), self.place_of(word))
    }

    /// The answer of a write of a word of the stripe.
    pub fn can_write(&self, word: u32) -> Answer
        requires own { IsIn self.now word }
        ensures { (m : Module) (h : List Entry) → HoldsStripe m h self.now → result ≡ write_answer m word }
    {
        if self.place_of(word) < self.values.len() {
            Answer::Unit
        } else {
            Answer::Stop(Stop::Address)
        }
    }

    /// Writes a value with the class of the definition, where there is such a word.
    pub fn write(&mut self, m: &Module, def: DefNo, word: u32, value: u32)
        requires short { AreShort m.now }
        requires own { IsIn self.old word }
        ensures after { self.new ≡ with_word self.old (class_of m.now def.0) (word / self.old.stripes) value }
        ensures holds { (h : List Entry) (e : Entry) → HoldsStripe m.now h self.old → e.op ≡ Op.Write def word value
            → e.answer ≡ write_answer m.now word → HoldsStripe m.now (e ∷ h) self.new }
    {
        let class = class_of(m, u32::from(def.0));
        let at = self.place_of(word);
        self.put(at, value, class);
    }

    // Where a word of the stripe stands.
    fn place_of(&self, word: u32) -> usize
        ensures place { result ≡ word / self.now.stripes }
        ensures own { self.now.stripe < self.now.stripes }
    {
        (word / self.stripes) as usize
    }

    fn decide(&self, m: &Module, rows: &ReadRows, read: u32, at: usize) -> Answer
        ensures { result ≡ decided m.now (words_of self.now rows.now.rows.items) read at }
    {
        match (self.values.get(at), self.classes.get(at)) {
            (Some(value), Some(class)) => {
                found_by(m, rows.rows.as_slice(), read, *value, *class)
            }
            _ => Answer::Stop(Stop::Address),
        }
    }

    fn put(&mut self, at: usize, value: u32, class: u16)
        ensures { self.new ≡ with_word self.old class at value }
    {
        if at < self.values.len() && at < self.classes.len() {
            self.values[at] = value;
            self.classes[at] = class;
        }
    }
}

/// What holds of stripes: the whole memory is the one stripe of 1, a stripe of a memory's words holds after the same history, and a
/// write to another stripe leaves it.
pub fn stripes_of_a_memory()
    ensures whole { WholeIsOneStripe }
    ensures part { StripeOfWhole }
    ensures others { OtherStripesStay }
{}

// Each step-th cell, from the first on.
#[tactic(auto, using(crate::proofs::Picks::counted, crate::proofs::Picks::counts_all))]
fn picked<T: Copy>(alloc: Global, cells: &[T], first: usize, step: usize) -> Result<Vec<T>, Memory>
    requires first { first < step }
    requires few { (length cells.now < 2 ^ 31) × (step < 2 ^ 32) }
    ensures { IfOk result (λ picked. IsPicked cells.now first step picked.items) }
{
    let count = (cells.len() + step - 1 - first) / step;
    let mut picked = Vec::new(alloc);
    for k in 0..count {
        picked.push(cells[k * step + first])?;
    }
    Ok(picked)
}
