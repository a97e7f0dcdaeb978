ghost use Rattle.std.specs.Prelude.{◌≡◌, ◌+◌, ◌≤◌, ◌+ℤ◌, ◌*ℤ◌, pos};
ghost use Rattle.dfi_base.specs.Words.{int_of};
ghost use Rattle.obj_mem.specs.Values.{word_in, truth_of, has_room, within, part_of, items_of, moved};
ghost use Rattle.obj_mem.specs.Objects.{whole_of, same_obj};

use crate::Maker;

/// An object: a global, a variable of one call, or a block.
#[derive(Clone, Copy, Debug, PartialEq, Eq)]
pub struct Obj {
    /// Its place in the program: the globals have the first numbers, then the variables of each function, then the heap sites.
    pub site: u32,
    pub maker: Maker,
    /// How many words it has.
    pub len: u32,
}

/// What a word of an object holds.
#[derive(Clone, Copy, Debug, PartialEq, Eq)]
pub enum Value {
    Int(i32),
    Null,
    /// Word `off` of an object. Its bounds, from `lo` to before `hi`, are those of the innermost array that it is in.
    Ptr {
        obj: Obj,
        off: i64,
        lo: i64,
        hi: i64,
    },
}

impl Obj {
    /// The pointer to its first word, with the whole object as bounds.
    pub fn whole(self) -> Value
        ensures { result ≡ whole_of self }
    {
        Value::Ptr {
            obj: self,
            off: 0,
            lo: 0,
            hi: i64::from(self.len),
        }
    }
}

/// Whether two objects are the same.
pub(crate) fn is_same(a: Obj, b: Obj) -> bool
    ensures { result ≡ same_obj a b }
{
    a.site == b.site
        && a.maker.thread.0 == b.maker.thread.0
        && a.maker.count == b.maker.count
        && a.len == b.len
}

impl Value {
    /// The number that a word stands for. An operator on numbers goes by way of their words.
    pub fn of_word(word: u32) -> Value
        ensures { result ≡ Value.Int (int_of word) }
    {
        Value::Int(word.cast_signed())
    }

    /// The word of a number.
    pub fn word(self) -> Option<u32>
        ensures { result ≡ word_in self }
    {
        match self {
            Value::Int(k) => Some(k.cast_unsigned()),
            _ => None,
        }
    }

    /// Whether a number is other than 0.
    pub fn truth(self) -> Option<bool>
        ensures { result ≡ truth_of self }
    {
        match self {
            Value::Int(k) => Some(k != 0),
            _ => None,
        }
    }

    /// The part of so many words that begins so many words into a struct of `whole` words.
    pub fn part(self, whole: u32, before: u32, words: u32) -> Option<Value>
        requires { before + words ≤ whole }
        ensures { result ≡ part_of whole before words self }
    {
        match self {
            Value::Ptr { obj, off, lo, hi } if has_room(off, whole, lo, hi) => {
                let first = off + i64::from(before);
                Some(Value::Ptr {
                    obj,
                    off: first,
                    lo: first,
                    hi: off + i64::from(before + words),
                })
            }
            _ => None,
        }
    }

    /// The first item of an array of so many words.
    pub fn items(self, words: u32) -> Option<Value>
        ensures { result ≡ items_of words self }
    {
        match self {
            Value::Ptr { obj, off, lo, hi } if has_room(off, words, lo, hi) => Some(Value::Ptr {
                obj,
                off,
                lo: off,
                hi: off + i64::from(words),
            }),
            _ => None,
        }
    }

    /// The pointer, moved by so many items of so many words.
    pub fn moved(self, by: Value, words: u32) -> Option<Value>
        ensures { result ≡ moved words by self }
    {
        match (self, by) {
            (Value::Ptr { obj, off, lo, hi }, Value::Int(items)) => {
                match moved_within(off, distance(items, words), lo, hi) {
                    Some(at) => Some(Value::Ptr {
                        obj,
                        off: at,
                        lo,
                        hi,
                    }),
                    None => None,
                }
            }
            _ => None,
        }
    }
}

// Whether so many words, from an offset on, lie within the bounds.
fn has_room(off: i64, words: u32, lo: i64, hi: i64) -> bool
    ensures { result ≡ has_room off words lo hi }
{
    match off.checked_add(i64::from(words)) {
        Some(end) => lo <= off && end <= hi,
        None => false,
    }
}

// The words of so many items.
fn distance(items: i32, words: u32) -> i64
    ensures { result ≡ items *ℤ pos words }
{
    i64::from(items) * i64::from(words)
}

// An offset that is moved by so many words, where it stays in the bounds.
fn moved_within(off: i64, by: i64, lo: i64, hi: i64) -> Option<i64>
    ensures { result ≡ within (off +ℤ by) lo hi }
{
    match off.checked_add(by) {
        Some(at) if lo <= at && at <= hi => Some(at),
        _ => None,
    }
}
