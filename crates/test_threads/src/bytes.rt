ghost use Rattle.std.specs.Prelude.{◌≡◌};
ghost use Rattle.test_threads.specs.Bytes.{bytes_meaning};

use code_layout::Layout;
use obj_mem::Maker;
use tac_ir::{BinOp, Code, Place, UnOp};
use tac_thread::Domain;

/// Words of 8 bits, with sums alone, and no return links.
pub struct Bytes;

impl Domain for Bytes {
    type Value = u8;

    type Stack = u8;

    ghost meaning = { bytes_meaning };

    fn int(k: i32) -> u8 {
        (k.cast_unsigned() % 256) as u8
    }

    fn null() -> u8 {
        0
    }

    fn truth(a: &u8) -> Option<bool> {
        Some(*a != 0)
    }

    fn un(_op: UnOp, _a: &u8) -> Option<u8> {
        None
    }

    fn bin(op: BinOp, a: &u8, b: &u8) -> Option<u8> {
        match op {
            BinOp::Add => Some(a.wrapping_add(*b)),
            _ => None,
        }
    }

    fn place(_c: &Code, _l: &Layout, _fun: u32, _s: &u8, _p: &Place) -> u8 {
        0
    }

    fn field(_c: &Code, _l: &Layout, _a: &u8, _shape: u32, _k: u32) -> Option<u8> {
        None
    }

    fn decay(_c: &Code, _l: &Layout, _a: &u8, _shape: u32) -> Option<u8> {
        None
    }

    fn index(_a: &u8, _i: &u8, _w: u32) -> Option<u8> {
        None
    }

    fn enter(_c: &Code, _l: &Layout, s: &u8, _fun: u32, _maker: Maker) -> Option<u8> {
        Some(*s)
    }

    fn share(s: &u8, _n: u32, _i: u32) -> Option<u8> {
        Some(*s)
    }

    fn link(_s: &u8) -> Option<u32> {
        None
    }
}
