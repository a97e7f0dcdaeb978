ghost use Rattle.std.specs.Prelude.{◌≡◌, ◌<◌, ◌↔◌, IfOk, IsTrue, false, length, replicate, slice_set};
ghost use Rattle.dfi_base.specs.Bits.{has, joined, met, IsWithin, IsNext, members};

use crate::bit_words::{
    and_words, is_within_words, is_within_words_under, next_bit, or_words, or_words_under,
    word_with, zero_words,
};
use crate::memory::Memory;
use std::alloc::Global;
use std::marker::Model;

/// A row of bits, 64 in a word.
#[derive(Drop)]
pub struct Bits {
    len: u32,
    words: Vec<u64>,
}

impl Model for Bits {
    ghost use Rattle.std.specs.Prelude.{List, Bool};
    ghost use Rattle.dfi_base.specs.tools.Packed.{bits_of, IsPacked};

    ghost Value = { List Bool };

    ghost view = { λ bits. bits_of bits.len bits.words.items };

    ghost invariant = { λ bits. IsPacked bits.len bits.words.items };
}

impl Bits {
    /// So many bits, none of them set.
    pub fn new(alloc: Global, len: u32) -> Result<Bits, Memory>
        ensures { IfOk result (λ bits. bits ≡ replicate len false) }
    {
        let words = zero_words(alloc, (len as usize + 63) / 64)?;
        Ok(Bits { len, words })
    }

    pub fn len(&self) -> u32
        ensures { result ≡ length self.now }
    {
        self.len
    }

    pub fn get(&self, i: u32) -> bool
        requires { i < length self.now }
        ensures { result ≡ has self.now i }
    {
        (self.words[i as usize / 64] >> (i % 64)) & 1 == 1
    }

    pub fn put(&mut self, i: u32, b: bool)
        requires { i < length self.old }
        ensures { self.new ≡ slice_set self.old i b }
    {
        let at = i as usize / 64;
        self.words[at] = word_with(self.words[at], i % 64, b);
    }

    /// Sets what `other` has. Answers whether a bit changed.
    pub fn or(&mut self, other: &Bits) -> bool
        requires { length self.old ≡ length other.now }
        ensures row { self.new ≡ joined self.old other.now }
        ensures changed { (result ≡ false) ↔ (self.new ≡ self.old) }
    {
        or_words(self.words.as_mut_slice(), other.words.as_slice())
    }

    /// Sets what both `other` and the mask have. Answers whether a bit changed.
    pub fn or_masked(&mut self, other: &Bits, mask: &Bits) -> bool
        requires other { length self.old ≡ length other.now }
        requires mask { length self.old ≡ length mask.now }
        ensures row { self.new ≡ joined self.old (met other.now mask.now) }
        ensures changed { (result ≡ false) ↔ (self.new ≡ self.old) }
    {
        or_words_under(
            self.words.as_mut_slice(),
            other.words.as_slice(),
            mask.words.as_slice(),
        )
    }

    /// Clears what `other` lacks.
    pub fn and(&mut self, other: &Bits)
        requires { length self.old ≡ length other.now }
        ensures { self.new ≡ met self.old other.now }
    {
        and_words(self.words.as_mut_slice(), other.words.as_slice());
    }

    /// Becomes as `other` is.
    pub fn copy_from(&mut self, other: &Bits)
        requires { length self.old ≡ length other.now }
        ensures { self.new ≡ other.now }
    {
        self.words
            .as_mut_slice()
            .copy_from_slice(other.words.as_slice());
    }

    pub fn try_clone(&self, alloc: Global) -> Result<Bits, Memory>
        ensures { IfOk result (λ bits. bits ≡ self.now) }
    {
        Ok(Bits {
            len: self.len,
            words: Vec::from_slice(alloc, self.words.as_slice())?,
        })
    }

    /// Whether `other` has each bit that is set here.
    pub fn is_within(&self, other: &Bits) -> bool
        requires { length self.now ≡ length other.now }
        ensures { IsTrue result ↔ IsWithin self.now other.now }
    {
        is_within_words(self.words.as_slice(), other.words.as_slice())
    }

    /// Whether `other` has each bit that is set here and in the mask.
    pub fn is_within_masked(&self, other: &Bits, mask: &Bits) -> bool
        requires other { length self.now ≡ length other.now }
        requires mask { length self.now ≡ length mask.now }
        ensures { IsTrue result ↔ IsWithin (met self.now mask.now) other.now }
    {
        is_within_words_under(
            self.words.as_slice(),
            other.words.as_slice(),
            mask.words.as_slice(),
        )
    }

    /// The first bit that is set, from this one on.
    pub fn next_member(&self, from: u32) -> Option<u32>
        ensures { IsNext (has self.now) from result }
    {
        next_bit(self.words.as_slice(), from)
    }

    /// The bits that are set, ascending.
    pub fn members(&self, alloc: Global) -> Result<Vec<u32>, Memory>
        ensures { IfOk result (λ list. list.items ≡ members self.now) }
    {
        let mut list = Vec::new(alloc);
        let len = self.len();
        let mut from = 0;
        while from < len {
            let Some(member) = self.next_member(from) else {
                return Ok(list);
            };
            list.push(member)?;
            from = member + 1;
        }
        Ok(list)
    }
}
