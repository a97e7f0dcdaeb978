ghost use Rattle.std.specs.Prelude.{◌≡◌, ◌<◌, ◌^◌, ℕ, ℤ, List, [], ◌∷◌, Ok, IfOk, OnErr, length, true};
ghost use Rattle.tac_ir.specs.declared.run.Entry.{Entry};
ghost use Rattle.tac_ir.specs.declared.run.Op.{Op};
ghost use Rattle.tac_ir.specs.declared.run.Answer.{Answer};
ghost use Rattle.tac_ir.specs.Answers.{IsAnswer, free_answer};
ghost use Rattle.tac_ir.specs.Module.{Module};
ghost use Rattle.heap_desk.specs.Replies.{after_give, first_of};
ghost use Rattle.tac_ir.specs.Words.{word_of};
ghost use Rattle.code_layout.specs.LayoutOf.{IsLayoutOf};
ghost use Rattle.tac_ir.specs.Desk.{item_words};
ghost use Rattle.word_table.specs.Tables.{CanRun};
ghost use Rattle.flat_core.specs.Store.{IsStore, IsTaken, is_plain};

use code_layout::Layout;
use dfi_base::Memory;
use heap_desk::{Desk, TakeFault};
use std::alloc::Global;
use tac_ir::{Answer, Module, Op, Stop};
use word_table::WordTable;

/// What threads share: the words with their classes, the heap and the input, and the layout of the code.
#[derive(Drop)]
pub struct Store {
    pub words: WordTable,
    pub desk: Desk,
    pub layout: Layout,
}

impl Store {
    /// What the threads of a module share before the first step.
    pub fn new(alloc: Global, m: &Module, input: &[i32]) -> Result<Store, Memory>
        requires can_run { CanRun m.now }
        requires few { length input.now < 2 ^ 31 }
        ensures { IfOk result (λ store. IsStore m.now input.now [] store) }
    {
        let layout = Layout::of(alloc, &m.code)?;
        let words = WordTable::new(alloc, m)?;
        let desk = Desk::new(alloc, input, m.size)?;
        Ok(Store {
            words,
            desk,
            layout,
        })
    }

    /// The answer of an event that takes no stack and no block.
    pub fn answer(&self, m: &Module, op: Op) -> Answer
        requires { CanRun m.now }
        ensures { (input : List ℤ) (h : List Entry) (n room : ℕ) → is_plain op ≡ true → IsStore m.now input h self.now
            → IsAnswer m.now input h n room op result }
    {
        match op {
            Op::Read { read, word } => self.words.read(m, read, word),
            Op::Write { word, .. } => self.words.can_write(word),
            Op::Same { a, b, ne } => Answer::Value(((a == b) != ne) as u32),
            Op::Free { word } => self.free_answer(word),
            Op::In => Answer::Value(self.coming()),
            Op::Left => Answer::Value(self.desk.left()),
            Op::Zero => Answer::Stop(Stop::Divide),
            _ => Answer::Unit,
        }
    }

    // The number of the input that comes next, as a word.
    fn coming(&self) -> u32
        ensures { result ≡ word_of (first_of self.now.desk.rest) }
    {
        self.desk.coming().cast_unsigned()
    }

    fn free_answer(&self, word: u32) -> Answer
        ensures { (m : Module) (input : List ℤ) (h : List Entry) → IsStore m input h self.now → result ≡ free_answer m h word }
    {
        if self.desk.can_give(word) {
            Answer::Unit
        } else {
            Answer::Stop(Stop::Free)
        }
    }

    /// Does what such an event does to the words, the heap and the input.
    pub fn keep(&mut self, m: &Module, op: Op)
        requires { CanRun m.now }
        ensures { (input : List ℤ) (h : List Entry) (e : Entry) (n room : ℕ) → is_plain op ≡ true → IsStore m.now input h self.old → e.op ≡ op
            → IsAnswer m.now input h n room op e.answer → IsStore m.now input (e ∷ h) self.new }
    {
        match op {
            Op::Write { def, word, value } => self.words.write(m, def, word, value),
            Op::Free { word } => {
                let _ = self.desk.give(word);
            }
            Op::In => {
                let _ = self.desk.next_int();
            }
            _ => {}
        }
    }

    /// Takes a block for so many items of a site. The answer is its first word, or that there is no room.
    pub fn take(&mut self, m: &Module, site: u16, count: i32) -> Result<Answer, Memory>
        ensures answer { IfOk result (λ answer. (input : List ℤ) (h : List Entry) (e : Entry) → IsStore m.now input h self.old
            → e.op ≡ Op.New site count → e.answer ≡ answer → IsTaken m.now input h e self.new) }
        ensures undone { (at : ℕ) → result ≡ Ok (Answer.Value at) → after_give self.new.desk at ≡ self.old.desk }
        ensures others { (self.new.words ≡ self.old.words) × (self.new.layout ≡ self.old.layout) }
        ensures err { OnErr result (self.new ≡ self.old) }
    {
        self.desk.heap_law();
        let words = self.item_words(m, site);
        match self.desk.take(count, words) {
            Ok(at) => Ok(Answer::Value(at)),
            Err(TakeFault::NoRoom) => Ok(Answer::Stop(Stop::Heap)),
            Err(TakeFault::Memory) => Err(Memory),
        }
    }

    /// Gives a block back that was just taken.
    pub fn untake(&mut self, answer: Answer)
        ensures block { (at : ℕ) → answer ≡ Answer.Value at → self.new.desk ≡ after_give self.old.desk at }
        ensures others { (self.new.words ≡ self.old.words) × (self.new.layout ≡ self.old.layout) }
    {
        if let Answer::Value(at) = answer {
            let _ = self.desk.give(at);
        }
    }

    // The words of an item of a site.
    fn item_words(&self, m: &Module, site: u16) -> u32
        ensures { IsLayoutOf m.now.code self.now.layout → result ≡ item_words m.now.code site }
    {
        match m.code.sites.get(site as usize) {
            None => 0,
            Some(s) => self.layout.shape_words(s.shape),
        }
    }
}
