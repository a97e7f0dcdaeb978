//! Rows of bits, word by word.

ghost use Rattle.std.specs.Prelude.{◌≡◌, ℕ, ◌+◌, ◌*◌, ◌<◌, ◌≤◌, ◌^◌, ◌↔◌, false, true, length, bit_and, bit_or, slice_index, IsTrue, IfOk, replicate, ◌&&◌, ◌/◌, nat_le};
ghost use Rattle.dfi_base.specs.Bits.{IsNext};
ghost use Rattle.dfi_base.specs.tools.Packed.{bit_of, has_bit};

use crate::memory::Memory;
use std::alloc::Global;

/// Sets what the other words have. Answers whether one changed.
pub fn or_words(words: &mut [u64], other: &[u64]) -> bool
    requires { length words.old ≡ length other.now }
    ensures each { (k : ℕ) → slice_index words.new k ≡ bit_or (slice_index words.old k) (slice_index other.now k) }
    ensures changed { (result ≡ false) ↔ ((k : ℕ) → has_bit words.new k ≡ has_bit words.old k) }
{
    let mut changed = false;
    for i in 0..words.len() {
        let joined = words[i] | other[i];
        if joined != words[i] {
            words[i] = joined;
            changed = true;
        }
    }
    changed
}

/// Sets what both the other words and the mask have. Answers whether one changed.
pub fn or_words_under(words: &mut [u64], other: &[u64], mask: &[u64]) -> bool
    requires other { length words.old ≡ length other.now }
    requires mask { length words.old ≡ length mask.now }
    ensures each { (k : ℕ) → slice_index words.new k ≡ bit_or (slice_index words.old k) (bit_and (slice_index other.now k) (slice_index mask.now k)) }
    ensures changed { (result ≡ false) ↔ ((k : ℕ) → has_bit words.new k ≡ has_bit words.old k) }
{
    let mut changed = false;
    for i in 0..words.len() {
        let joined = words[i] | (other[i] & mask[i]);
        if joined != words[i] {
            words[i] = joined;
            changed = true;
        }
    }
    changed
}

/// Clears what the other words lack.
pub fn and_words(words: &mut [u64], other: &[u64])
    requires { length words.old ≡ length other.now }
    ensures { (k : ℕ) → slice_index words.new k ≡ bit_and (slice_index words.old k) (slice_index other.now k) }
{
    for i in 0..words.len() {
        words[i] = words[i] & other[i];
    }
}

/// Whether the other words have each bit of these.
pub fn is_within_words(words: &[u64], other: &[u64]) -> bool
    requires { length words.now ≡ length other.now }
    ensures { IsTrue result ↔ ((k : ℕ) → IsTrue (has_bit words.now k) → IsTrue (has_bit other.now k)) }
{
    for i in 0..words.len() {
        if words[i] | other[i] != other[i] {
            return false;
        }
    }
    true
}

/// Whether the other words have each bit that these and the mask have.
pub fn is_within_words_under(words: &[u64], other: &[u64], mask: &[u64]) -> bool
    requires other { length words.now ≡ length other.now }
    requires mask { length words.now ≡ length mask.now }
    ensures { IsTrue result ↔ ((k : ℕ) → IsTrue (has_bit words.now k && has_bit mask.now k) → IsTrue (has_bit other.now k)) }
{
    for i in 0..words.len() {
        if (words[i] & mask[i]) | other[i] != other[i] {
            return false;
        }
    }
    true
}

/// So many words, with no bit set.
pub fn zero_words(alloc: Global, count: usize) -> Result<Vec<u64>, Memory>
    ensures { IfOk result (λ words. words.items ≡ replicate count 0) }
{
    Ok(vec![in alloc; 0u64; count]?)
}

/// The first bit that is set, from this one on.
pub fn next_bit(words: &[u64], from: u32) -> Option<u32>
    requires { length words.now ≤ 2 ^ 26 }
    ensures { IsNext (has_bit words.now) from result }
{
    for at in from as usize / 64..words.len() {
        let word = word_from(words, at, from);
        if word != 0 {
            return Some(at as u32 * 64 + word.trailing_zeros());
        }
    }
    None
}

// The bits of a word, without those before this bit of the row.
fn word_from(words: &[u64], at: usize, from: u32) -> u64
    requires within { at < length words.now }
    requires begun { from / 64 ≤ at }
    ensures { (i : ℕ) → i < 64 → bit_of result i ≡ (bit_of (slice_index words.now at) i && nat_le from (64 * at + i)) }
{
    if from as usize / 64 < at {
        return words[at];
    }
    words[at] & (u64::MAX << (from % 64))
}

/// A word with one bit put.
pub fn word_with(word: u64, bit: u32, b: bool) -> u64
    requires { bit < 64 }
    ensures there { bit_of result bit ≡ b }
    ensures elsewhere { (i : ℕ) → i < 64 → (i ≡ bit → ⊥) → bit_of result i ≡ bit_of word i }
{
    if b {
        word | (1u64 << bit)
    } else {
        word & !(1u64 << bit)
    }
}
