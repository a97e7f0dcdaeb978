//! Words of types, counted up to one past the limit of a type.

ghost use Rattle.std.specs.Prelude.{◌≡◌, ◌+◌, ◌*◌};
ghost use Rattle.c_types.specs.tools.Outlines as outlines;

use crate::outline::Outline;
use c_typed::{BaseType, ObjectType};

fn capped(words: u64) -> u32
    ensures { result ≡ outlines.capped words }
{
    if words <= 24576 { words as u32 } else { 24577 }
}

/// The words of so many items.
fn items(count: u32, words: u32) -> u32
    ensures { result ≡ outlines.capped (count * words) }
{
    capped(u64::from(count) * u64::from(words))
}

/// The words of two parts.
pub fn total(left: u32, right: u32) -> u32
    ensures { result ≡ outlines.capped (left + right) }
{
    capped(u64::from(left) + u64::from(right))
}

/// So many words, once for each item of arrays of these lengths.
fn times(words: u32, lengths: &[u32]) -> u32
    ensures { result ≡ outlines.times words lengths.now }
{
    let mut words = words;
    for length in lengths {
        words = items(*length, words);
    }
    words
}

impl Outline {
    fn base_words(&self, base: BaseType) -> u32
        ensures { result ≡ outlines.base_words self.now base }
    {
        match base {
            BaseType::Int => 1,
            BaseType::Struct(k) => match self.shapes.get(k as usize) {
                Some(shape) => shape.words,
                None => 0,
            },
            BaseType::Unknown => 0,
        }
    }

    /// The words of a type.
    pub fn words(&self, object: &ObjectType) -> u32
        ensures { result ≡ outlines.words_of self.now object.now }
    {
        let item = if object.stars > 0 {
            1
        } else {
            self.base_words(object.base)
        };
        times(item, object.lengths.as_slice())
    }
}
