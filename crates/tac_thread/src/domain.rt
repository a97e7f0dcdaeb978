ghost use Rattle.std.specs.Prelude.{◌≡◌, ◌<◌, ◌≤◌, length, false, true, IsTrue};
ghost use Rattle.tac_ir.specs.GoodForm.{GoodForm};
ghost use Rattle.tac_ir.specs.Places.{IsPlace, is_array};
ghost use Rattle.tac_ir.specs.Layout.{parts_of};
ghost use Rattle.code_layout.specs.LayoutOf.{IsLayoutOf};
ghost use Rattle.tac_thread.specs.Meaning.{Meaning, divides_by_zero};

use code_layout::Layout;
use obj_mem::Maker;
use tac_ir::{BinOp, Code, Place, UnOp};

/// The values and stacks of one kind of run. A call that answers `None` has no value to give.
pub trait Domain {
    type Value: Copy;

    type Stack: Copy;

    /// What each call answers.
    ghost meaning: { Meaning Self.Value Self.Stack };

    fn int(k: i32) -> Self::Value
        ensures { result ≡ meaning.int k };

    fn null() -> Self::Value
        ensures { result ≡ meaning.null };

    fn truth(a: &Self::Value) -> Option<bool>
        ensures { result ≡ meaning.truth a.now };

    fn un(op: UnOp, a: &Self::Value) -> Option<Self::Value>
        ensures { result ≡ meaning.un op a.now };

    fn bin(op: BinOp, a: &Self::Value, b: &Self::Value) -> Option<Self::Value>
        requires { divides_by_zero meaning op b.now ≡ false }
        ensures { result ≡ meaning.bin op a.now b.now };

    fn place(c: &Code, l: &Layout, fun: u32, s: &Self::Stack, p: &Place) -> Self::Value
        requires form { GoodForm c.now }
        requires laid { IsLayoutOf c.now l.now }
        requires place { IsPlace c.now fun p.now }
        requires frame { IsTrue (meaning.has_frame c.now fun s.now) }
        ensures { result ≡ meaning.place c.now fun s.now p.now };

    fn field(c: &Code, l: &Layout, a: &Self::Value, shape: u32, k: u32) -> Option<Self::Value>
        requires form { GoodForm c.now }
        requires laid { IsLayoutOf c.now l.now }
        requires part { k < length (parts_of c.now shape) }
        ensures { result ≡ meaning.field c.now a.now shape k };

    fn decay(c: &Code, l: &Layout, a: &Self::Value, shape: u32) -> Option<Self::Value>
        requires form { GoodForm c.now }
        requires laid { IsLayoutOf c.now l.now }
        requires array { is_array c.now shape ≡ true }
        ensures { result ≡ meaning.decay c.now a.now shape };

    fn index(a: &Self::Value, i: &Self::Value, w: u32) -> Option<Self::Value>
        ensures { result ≡ meaning.index a.now i.now w };

    fn enter(c: &Code, l: &Layout, s: &Self::Stack, fun: u32, maker: Maker) -> Option<Self::Stack>
        requires form { GoodForm c.now }
        requires laid { IsLayoutOf c.now l.now }
        requires exists { fun < length c.now.funs }
        ensures { result ≡ meaning.enter c.now s.now fun maker };

    fn share(s: &Self::Stack, n: u32, i: u32) -> Option<Self::Stack>
        requires from { 1 ≤ i }
        requires to { i ≤ n }
        ensures { result ≡ meaning.share s.now n i };

    fn link(s: &Self::Stack) -> Option<u32>
        ensures { result ≡ meaning.link s.now };
}
