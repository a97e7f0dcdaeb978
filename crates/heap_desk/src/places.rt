ghost use Rattle.std.specs.Prelude.{◌≡◌, ◌+◌, ◌-◌, ◌/◌, ◌*◌, ◌<◌, ◌≤◌, ◌^◌, IfOk, [], length, replicate, slice_set};
ghost use Rattle.tac_ir.specs.Layout.{heap_from, stack_from};
ghost use Rattle.heap_desk.specs.tools.Spans.{no_span, span_at, word_at, joined, blocks_of, place_in};
ghost use Rattle.heap_desk.specs.tools.Indexed.{IsIndexed, IsIndexOf, IsPut, IsEmpty};

use crate::scan::{first_gap, first_word, join, join_words};
use crate::span::Span;
use dfi_base::Memory;
use dfi_base::memory_map::HEAP_FROM;
use std::alloc::Global;
use tac_ir::Size;

/// How many words a page has, how many pages a row, and how many rows a top.
const PAGE: usize = 16;

const ROW: usize = 16;

const TOP: usize = 32;

/// The live blocks by their places: the word behind the block that begins at each word of the heap, 0 where none begins, and
/// above the words the spans of pages, rows and tops. A search goes down from the tops, so it costs the same however many live.
#[derive(Drop)]
pub struct Places {
    pub ends: Vec<u32>,
    pub pages: Vec<Span>,
    pub rows: Vec<Span>,
    pub tops: Vec<Span>,
}

impl Places {
    /// A heap without blocks.
    pub fn new(alloc: Global, size: Size) -> Result<Places, Memory>
        ensures { IfOk result (λ places. IsEmpty (stack_from size - heap_from) places) }
    {
        let words = (size.stack_from() - HEAP_FROM) as usize;
        let none = Span::none();
        let ends = repeat(alloc, words, 0u32)?;
        let pages = repeat(alloc, words / PAGE, none)?;
        let rows = repeat(alloc, words / PAGE / ROW, none)?;
        let tops = repeat(alloc, words / PAGE / ROW / TOP, none)?;
        Ok(Places {
            ends,
            pages,
            rows,
            tops,
        })
    }

    /// The least place of so many words.
    pub fn first_fit(&self, words: u64) -> Option<u32>
        requires some { 0 < words }
        requires indexed { IsIndexed self.now }
        ensures { result ≡ place_in heap_from (heap_from + length self.now.ends.items) words (blocks_of self.now.ends.items) }
    {
        let tops = self.tops.as_slice();
        let top = first_gap(tops, 0, tops.len(), HEAP_FROM, words);
        if top.index == tops.len() {
            return self.last_gap(top.from, words);
        }
        let row = first_gap(&self.rows, TOP * top.index, TOP, top.from, words);
        let page = first_gap(&self.pages, ROW * row.index, ROW, row.from, words);
        let word = first_word(&self.ends, PAGE * page.index, PAGE, page.from, words);
        Some(word.from)
    }

    // The gap behind the last block, where it has so many words.
    fn last_gap(&self, from: u32, words: u64) -> Option<u32>
        requires { length self.now.ends.items < 2 ^ 31 }
        ensures { result ≡ place_in from (heap_from + length self.now.ends.items) words [] }
    {
        let limit = HEAP_FROM + self.ends.len() as u32;
        if words <= u64::from(limit.saturating_sub(from)) {
            Some(from)
        } else {
            None
        }
    }

    /// The index of the word at which a block begins, where one begins there.
    pub fn index_of(&self, word: u32) -> Option<usize>
        ensures { IsIndexOf self.now.ends.items word result }
    {
        if word < HEAP_FROM {
            return None;
        }
        let index = (word - HEAP_FROM) as usize;
        match self.ends.get(index) {
            Some(end) if *end != 0 => Some(index),
            _ => None,
        }
    }

    /// Lets the block that begins at the word of this index end before word `end`, or, for 0, lets none begin there.
    pub fn put(&mut self, word: usize, end: u32)
        requires indexed { IsIndexed self.old }
        requires within { word < length self.old.ends.items }
        ensures { IsPut self.old word end self.new }
    {
        let page = word / PAGE;
        let row = page / ROW;
        let top = row / TOP;
        self.ends[word] = end;
        self.pages[page] = join_words(&self.ends, PAGE * page, PAGE);
        self.rows[row] = join(&self.pages, ROW * row, ROW);
        self.tops[top] = join(&self.rows, TOP * top, TOP);
    }
}

// So many copies of a value.
fn repeat<T: Copy>(alloc: Global, count: usize, value: T) -> Result<Vec<T>, Memory>
    requires { count < 2 ^ 31 }
    ensures { IfOk result (λ copies. copies.items ≡ replicate count value) }
{
    let mut copies = Vec::new(alloc);
    copies.resize(count, value)?;
    Ok(copies)
}
