ghost use Rattle.std.specs.Prelude.{◌≡◌, ◌/◌, ◌<◌, IfOk, length, replicate};
ghost use Rattle.word_table.specs.tools.BitRows.{has_bit, with_bit};

use dfi_base::Memory;
use std::alloc::Global;

/// Bits by their numbers, 64 in a word.
#[derive(Drop)]
pub struct Bits {
    pub words: Vec<u64>,
}

impl Bits {
    /// Bits of so many words, none of them set.
    pub fn new(alloc: Global, words: usize) -> Result<Bits, Memory>
        ensures { IfOk result (λ bits. bits.words.items ≡ replicate words 0) }
    {
        Ok(Bits {
            words: vec![in alloc; 0u64; words]?,
        })
    }

    /// Whether a bit is set; none is behind the last word.
    pub fn get(&self, bit: usize) -> bool
        ensures { result ≡ has_bit self.now.words.items bit }
    {
        match self.words.get(bit / 64) {
            Some(word) => (*word >> (bit % 64)) & 1 == 1,
            None => false,
        }
    }

    /// Sets a bit.
    pub fn put(&mut self, bit: usize)
        requires { bit / 64 < length self.old.words.items }
        ensures { self.new.words.items ≡ with_bit self.old.words.items bit }
    {
        let at = bit / 64;
        self.words[at] = self.words[at] | (1u64 << (bit % 64));
    }
}
