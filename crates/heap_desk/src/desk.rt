ghost use Rattle.std.specs.Prelude.{◌≡◌, ◌<◌, ◌^◌, [], length, IfOk, OnErr, is_ok};

use crate::fault::{NotLive, TakeFault};
use crate::places::Places;
use crate::room::room_for;
use dfi_base::Memory;
use dfi_base::memory_map::HEAP_FROM;
use std::alloc::Global;
use std::marker::Model;
use tac_ir::Size;

/// The live blocks of the heap by their places, and how many numbers of the input were read.
#[derive(Drop)]
pub struct Desk {
    size: Size,
    places: Places,
    input: Vec<i32>,
    read: usize,
}

impl Model for Desk {
    ghost use Rattle.std.specs.Prelude.{◌≤◌, ◌<◌, ◌^◌, length, drop};
    ghost use Rattle.tac_ir.specs.Layout.{stack_from};
    ghost use Rattle.heap_desk.specs.Desk.{Desk};
    ghost use Rattle.heap_desk.specs.tools.Indexed.{IsKept};
    ghost use Rattle.heap_desk.specs.tools.Spans.{blocks_of};

    ghost Value = { Desk };

    ghost view = { λ d. record { size = d.size; blocks = blocks_of d.places.ends.items; rest = drop d.read d.input.items } };

    ghost invariant = { λ d. IsKept (stack_from d.size) d.places
        × (d.read ≤ length d.input.items) × (length d.input.items < 2 ^ 31) };
}

impl Desk {
    ghost use Rattle.std.specs.Prelude.{All};
    ghost use Rattle.tac_ir.specs.Layout.{heap_from, stack_from};
    ghost use Rattle.heap_desk.specs.InOrder.{IsInOrder};
    ghost use Rattle.heap_desk.specs.Heap.{AreInHeap, IsFreeWithout};
    ghost use Rattle.heap_desk.specs.Laws.{GiveUndoesTake};
    ghost use Rattle.heap_desk.specs.Replies.{AnswersRoom, after_room, AnswersTake, after_take, can_give, after_give, first_of, after_next};

    /// The desk of a memory of this size: no live block, and the whole input.
    pub fn new(alloc: Global, input: &[i32], size: Size) -> Result<Desk, Memory>
        requires { length input.now < 2 ^ 31 }
        ensures { IfOk result (λ desk. desk ≡ record { size = size; blocks = []; rest = input.now }) }
    {
        Ok(Desk {
            size,
            places: Places::new(alloc, size)?,
            input: Vec::from_slice(alloc, input)?,
            read: 0,
        })
    }

    /// Takes a block of `count` items of so many words at the least place where there is room. Gives its first word.
    pub fn take(&mut self, count: i32, words: u32) -> Result<u32, TakeFault>
        ensures answer { AnswersTake self.old count words result }
        ensures after { self.new ≡ after_take self.old count words result }
    {
        if count < 0 {
            return Err(TakeFault::NoRoom);
        }
        self.take_room(room_for(count as u32, words))
    }

    /// Gives back the block that begins at this word. Nothing begins at word 0, and giving it back does nothing.
    pub fn give(&mut self, word: u32) -> Result<(), NotLive>
        ensures answer { is_ok result ≡ can_give self.old word }
        ensures after { self.new ≡ after_give self.old word }
        ensures nothing { word ≡ 0 → self.new ≡ self.old }
        ensures refused { OnErr result (self.new ≡ self.old) }
    {
        match self.places.index_of(word) {
            Some(index) => {
                self.places.put(index, 0);
                Ok(())
            }
            None if word == 0 => Ok(()),
            None => Err(NotLive),
        }
    }

    /// Whether `give` takes this word back: word 0, or the first word of a live block.
    pub fn can_give(&self, word: u32) -> bool
        ensures { result ≡ can_give self.now word }
    {
        if word == 0 {
            return true;
        }
        self.places.index_of(word).is_some()
    }

    /// The number that `next_int` will give.
    pub fn coming(&self) -> i32
        ensures { result ≡ first_of self.now.rest }
    {
        match self.input.get(self.read) {
            Some(number) => *number,
            None => 0,
        }
    }

    /// The next number of the input, 0 at its end.
    pub fn next_int(&mut self) -> i32
        ensures answer { result ≡ first_of self.old.rest }
        ensures after { self.new ≡ after_next self.old }
    {
        match self.input.get(self.read) {
            Some(number) => {
                self.read += 1;
                *number
            }
            None => 0,
        }
    }

    /// How many numbers of the input remain.
    pub fn left(&self) -> u32
        ensures { result ≡ length self.now.rest }
    {
        (self.input.len() - self.read) as u32
    }

    /// What holds of every desk: its blocks stand in the order of places, in the heap and apart; where one is given back its
    /// words are free; and giving back undoes taking.
    pub fn heap_law(&self)
        ensures order { IsInOrder heap_from (stack_from self.now.size) self.now.blocks }
        ensures heap { AreInHeap heap_from (stack_from self.now.size) self.now.blocks }
        ensures free_again { All (IsFreeWithout heap_from (stack_from self.now.size) self.now.blocks) self.now.blocks }
        ensures undone { GiveUndoesTake self.now }
    {
        let _ = &self.places;
    }

    fn take_room(&mut self, words: u64) -> Result<u32, TakeFault>
        requires { 0 < words }
        ensures answer { AnswersRoom self.old words result }
        ensures after { self.new ≡ after_room self.old words result }
    {
        let Some(at) = self.places.first_fit(words) else {
            return Err(TakeFault::NoRoom);
        };
        self.places
            .put((at - HEAP_FROM) as usize, at + words as u32);
        Ok(at)
    }
}
