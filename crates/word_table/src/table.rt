ghost use Rattle.std.specs.Prelude.{◌≡◌, ◌<◌, ◌^◌, ℕ, List, [], ◌∷◌, IfOk, length};
ghost use Rattle.tac_ir.specs.declared.run.Entry.{Entry};
ghost use Rattle.tac_ir.specs.declared.run.Op.{Op};
ghost use Rattle.tac_ir.specs.Answers.{read_answer, write_answer};
ghost use Rattle.tac_ir.specs.Module.{Module};
ghost use Rattle.word_table.specs.Tables.{CanRun};
ghost use Rattle.word_table.specs.Holds.{HoldsAfter};
ghost use Rattle.word_table.specs.Stripes.{IsStripeOf};
ghost use Rattle.word_table.specs.tools.Deciding.{found_by, decided, written};

use crate::areas::{areas_of, classes_of, values_of};
use crate::bits::Bits;
use crate::classes::{class_of, is_checked};
use crate::rows::{row_has, rows_of, width_of};
use crate::stripe::StripeTable;
use code_layout::shape_sizes;
use dfi_base::{DefNo, Memory, ReadNo};
use std::alloc::Global;
use std::marker::Model;
use tac_ir::{Answer, Module, Stop};

/// The value of each word, the class of its last writer, and the classes that each read allows.
#[derive(Drop)]
pub struct WordTable {
    values: Vec<u32>,
    classes: Vec<u16>,
    rows: Vec<Bits>,
}

impl Model for WordTable {
    ghost use Rattle.word_table.specs.Words.{Words};

    ghost Value = { Words };

    ghost view = { λ t. record { values = t.values.items; classes = t.classes.items; rows = t.rows.items } };
}

impl WordTable {
    /// The words before the first step: globals have their starting values and the classes of their starting definitions.
    pub fn new(alloc: Global, m: &Module) -> Result<WordTable, Memory>
        requires { CanRun m.now }
        ensures { IfOk result (λ t. HoldsAfter m.now [] t) }
    {
        let sizes = shape_sizes(alloc, &m.code)?;
        let areas = areas_of(alloc, m, &sizes)?;
        let size = m.size.memory_words();
        let values = values_of(alloc, size, &areas)?;
        let classes = classes_of(alloc, size, &areas)?;
        let width = width_of(m.classes.list.as_slice());
        let rows = rows_of(alloc, m, m.sets.lists.as_slice(), width)?;
        Ok(WordTable {
            values,
            classes,
            rows,
        })
    }

    /// The words of one stripe.
    pub fn stripe(&self, alloc: Global, stripe: u32, stripes: u32) -> Result<StripeTable, Memory>
        requires own { stripe < stripes }
        requires few { (length self.now.values < 2 ^ 31) × (length self.now.classes < 2 ^ 31) }
        ensures { IfOk result (λ t. IsStripeOf self.now.values self.now.classes stripe stripes t) }
    {
        StripeTable::of(alloc, &self.values, &self.classes, stripe, stripes)
    }

    /// The answer of a read: a class decides it as the last write and the set of the read do.
    pub fn read(&self, m: &Module, read: ReadNo, word: u32) -> Answer
        requires { CanRun m.now }
        ensures { (h : List Entry) → HoldsAfter m.now h self.now → result ≡ read_answer m.now h read.0 word }
    {
        self.decide(m, u32::from(read.0), word)
    }

    /// The answer of a write.
    pub fn can_write(&self, word: u32) -> Answer
        ensures { (m : Module) (h : List Entry) → HoldsAfter m h self.now → result ≡ write_answer m word }
    {
        if (word as usize) < self.values.len() {
            Answer::Unit
        } else {
            Answer::Stop(Stop::Address)
        }
    }

    /// Writes a value with the class of the definition, where there is such a word.
    pub fn write(&mut self, m: &Module, def: DefNo, word: u32, value: u32)
        requires { CanRun m.now }
        ensures { (h : List Entry) (e : Entry) → HoldsAfter m.now h self.old → e.op ≡ Op.Write def word value
            → e.answer ≡ write_answer m.now word → HoldsAfter m.now (e ∷ h) self.new }
    {
        let class = class_of(m, u32::from(def.0));
        self.put(word as usize, value, class);
    }

    fn decide(&self, m: &Module, read: u32, word: u32) -> Answer
        ensures { result ≡ decided m.now self.now read word }
    {
        match (
            self.values.get(word as usize),
            self.classes.get(word as usize),
        ) {
            (Some(value), Some(class)) => found_by(m, &self.rows, read, *value, *class),
            _ => Answer::Stop(Stop::Address),
        }
    }

    fn put(&mut self, at: usize, value: u32, class: u16)
        ensures { self.new ≡ written self.old class at value }
    {
        if at < self.values.len() && at < self.classes.len() {
            self.values[at] = value;
            self.classes[at] = class;
        }
    }
}

/// A read that finds this value and class.
pub fn found_by(m: &Module, rows: &[Bits], read: u32, value: u32, class: u16) -> Answer
    ensures { result ≡ found_by m.now rows.now read value class }
{
    if is_checked(m, read) && !row_has(rows, read, class) {
        return Answer::Stop(Stop::Alarm { found: class });
    }
    Answer::Value(value)
}
