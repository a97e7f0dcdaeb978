ghost use Rattle.std.specs.Prelude.{◌≡◌, ◌+◌, ◌*◌, ◌≤◌, ◌⊎◌, true};
ghost use Rattle.tac_ir.specs.Effect.{divides};
ghost use Rattle.tac_ir.specs.Words.{un_of, bin_of};
ghost use Rattle.tac_thread.specs.Flat.{with_frame, with_share};

use crate::domain::Domain;
use code_layout::Layout;
use obj_mem::Maker;
use tac_ir::{BinOp, Code, Place, UnOp};

/// A frame's first word, the first word behind the frames, and the first word behind the region.
#[derive(Clone, Copy, Debug, PartialEq, Eq)]
pub struct FlatStack {
    pub base: u32,
    pub top: u32,
    pub end: u32,
}

/// Integers and pointers as words of 32 bits.
pub struct FlatWords;

impl Domain for FlatWords {
    type Value = u32;

    type Stack = FlatStack;

    ghost use Rattle.tac_thread.specs.Flat.{flat_meaning};

    ghost meaning = { flat_meaning };

    fn int(k: i32) -> u32 {
        k.cast_unsigned()
    }

    fn null() -> u32 {
        0
    }

    fn truth(a: &u32) -> Option<bool> {
        Some(*a != 0)
    }

    fn un(op: UnOp, a: &u32) -> Option<u32> {
        Some(un_word(op, *a))
    }

    fn bin(op: BinOp, a: &u32, b: &u32) -> Option<u32> {
        Some(bin_word(op, *a, *b))
    }

    fn place(c: &Code, l: &Layout, fun: u32, s: &FlatStack, p: &Place) -> u32 {
        // The frame ends before the top, so within 32 bits.
        let _top = s.top;
        l.place_word(c, fun, s.base, p)
    }

    fn field(_c: &Code, l: &Layout, a: &u32, shape: u32, k: u32) -> Option<u32> {
        Some(a.wrapping_add(l.field_offset(shape, k)))
    }

    fn decay(_c: &Code, _l: &Layout, a: &u32, _shape: u32) -> Option<u32> {
        Some(*a)
    }

    fn index(a: &u32, i: &u32, w: u32) -> Option<u32> {
        Some(a.wrapping_add(i.wrapping_mul(w)))
    }

    fn enter(_c: &Code, l: &Layout, s: &FlatStack, fun: u32, _maker: Maker) -> Option<FlatStack> {
        with_frame(l.frame_words(fun), s)
    }

    fn share(s: &FlatStack, n: u32, i: u32) -> Option<FlatStack> {
        with_share(s.end.saturating_sub(s.top) / n, s, i)
    }

    fn link(s: &FlatStack) -> Option<u32> {
        Some(s.base)
    }
}

// So many words from the top on as a new frame.
fn with_frame(words: u32, s: &FlatStack) -> Option<FlatStack>
    ensures { result ≡ with_frame words s.now }
{
    if s.end.saturating_sub(s.top) < words {
        return None;
    }
    Some(FlatStack {
        base: s.top,
        top: s.top + words,
        end: s.end,
    })
}

// The i-th share of so many words each.
fn with_share(words: u32, s: &FlatStack, i: u32) -> Option<FlatStack>
    requires from { 1 ≤ i }
    requires room { words ≡ 0 ⊎ s.now.top + i * words ≤ s.now.«end» }
    ensures { result ≡ with_share words s.now i }
{
    if words == 0 {
        return None;
    }
    Some(FlatStack {
        base: s.base,
        top: s.top + (i - 1) * words,
        end: s.top + i * words,
    })
}

fn un_word(op: UnOp, a: u32) -> u32
    ensures { result ≡ un_of op a }
{
    match op {
        UnOp::Neg => a.wrapping_neg(),
        UnOp::Not => (a == 0) as u32,
        UnOp::Com => !a,
    }
}

// The count of a shift is taken modulo 32.
fn bin_word(op: BinOp, a: u32, b: u32) -> u32
    requires { divides op ≡ true → b ≡ 0 → ⊥ }
    ensures { result ≡ bin_of op a b }
{
    let (x, y) = (a.cast_signed(), b.cast_signed());
    match op {
        BinOp::Add => a.wrapping_add(b),
        BinOp::Sub => a.wrapping_sub(b),
        BinOp::Mul => a.wrapping_mul(b),
        BinOp::And => a & b,
        BinOp::Or => a | b,
        BinOp::Xor => a ^ b,
        BinOp::Shl => a.wrapping_shl(b),
        BinOp::Shr => x.wrapping_shr(b).cast_unsigned(),
        BinOp::Lt => (x < y) as u32,
        BinOp::Gt => (x > y) as u32,
        BinOp::Le => (x <= y) as u32,
        BinOp::Ge => (x >= y) as u32,
        BinOp::Eq => (a == b) as u32,
        BinOp::Ne => (a != b) as u32,
        BinOp::Quo => x.wrapping_div(y).cast_unsigned(),
        BinOp::Rem => x.wrapping_rem(y).cast_unsigned(),
    }
}
