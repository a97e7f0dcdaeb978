use crate::order::{Order, order_of};
use heap_desk::{Desk, TakeFault};
use std::alloc::Global;
use std::string::String;
use test_base::{Halt, Orders};

// An input of a table has fewer numbers than this.
const MANY: usize = 1000;

/// The desk that the lines so far have left.
#[derive(Drop)]
pub struct Table {
    pub desk: Option<Desk>,
}

impl Orders for Table {
    fn take_line(&mut self, alloc: Global, line: &str) -> Result<Vec<u8>, Halt> {
        let order = order_of(alloc, line)?;
        let answer = self.answer(alloc, order)?;
        let text = format!(in alloc; "{line}: {answer}\n")?;
        Ok(text.into_bytes())
    }
}

impl Table {
    fn answer(&mut self, alloc: Global, order: Order) -> Result<String, Halt> {
        if let Order::Begin(size, numbers) = order {
            if numbers.len() >= MANY {
                return Err(Halt::Long);
            }
            self.desk = Some(Desk::new(alloc, numbers.as_slice(), size)?);
            return Ok(format!(in alloc; "a desk")?);
        }
        match self.desk.as_mut() {
            Some(desk) => answer_of(alloc, desk, &order),
            None => Ok(format!(in alloc; "no desk")?),
        }
    }
}

fn answer_of(alloc: Global, desk: &mut Desk, order: &Order) -> Result<String, Halt> {
    match *order {
        Order::Take(count, words) => place_text(alloc, desk.take(count, words)),
        Order::Give(word) => match desk.give(word) {
            Ok(()) => Ok(format!(in alloc; "given")?),
            Err(_) => Ok(format!(in alloc; "not live")?),
        },
        Order::Int => {
            let number = desk.next_int();
            Ok(format!(in alloc; "{number}")?)
        }
        Order::Left => {
            let left = desk.left();
            Ok(format!(in alloc; "{left}")?)
        }
        Order::Fill(count, words) => place_text(alloc, fill(desk, count, words)),
        Order::Pairs(count, word, words) => {
            let stood = pairs(desk, count, word, words);
            Ok(format!(in alloc; "{stood}")?)
        }
        _ => Ok(format!(in alloc; "no order")?),
    }
}

fn place_text(alloc: Global, place: Result<u32, TakeFault>) -> Result<String, Halt> {
    match place {
        Ok(at) => Ok(format!(in alloc; "{at}")?),
        Err(TakeFault::NoRoom) => Ok(format!(in alloc; "no room")?),
        Err(TakeFault::Memory) => Err(Halt::Memory),
    }
}

// The place of the last of so many blocks.
fn fill(desk: &mut Desk, count: u32, words: u32) -> Result<u32, TakeFault> {
    let mut last = Ok(0);
    for _ in 0..count {
        last = desk.take(1, words);
    }
    last
}

// How often a block stood at the word where one was given back.
fn pairs(desk: &mut Desk, count: u32, word: u32, words: u32) -> u32 {
    let mut stood = 0u32;
    for _ in 0..count {
        let _ = desk.give(word);
        if desk.take(1, words) == Ok(word) {
            stood = stood.saturating_add(1);
        }
    }
    stood
}
