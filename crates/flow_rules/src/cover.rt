ghost use Rattle.std.specs.Prelude.{◌≡◌, ◌↔◌, ◌≤◌, IsTrue, length};
ghost use Rattle.tac_ir.specs.GoodModule.{GoodModule, IsPoint};
ghost use Rattle.tac_ir.specs.Layout.{instr_at};
ghost use Rattle.tac_ir.specs.Numbers.{reads_made};
ghost use Rattle.flow_rules.specs.IsMhp.{IsMhp};
ghost use Rattle.flow_rules.specs.Removed.{Covers, IsCovered, Removed};

use crate::mhp::Mhp;
use crate::places::{breaks, is_loud, is_named, is_same};
use crate::points::{instr_at, lines_of};
use crate::reads::{Made, has, is_within, point_of, set_of};
use dfi_base::{Point, ReadNo};
use tac_ir::{Instr, Module, Place};

/// Whether a read may go unchecked.
pub fn elided(md: &Module, m: &Mhp, read: ReadNo) -> bool
    requires form { GoodModule md.now }
    requires parallel { IsMhp md.now.code m.now }
    requires low { 1 ≤ read.0 }
    requires high { read.0 ≤ length (reads_made md.now.code) }
    ensures { IsTrue result ↔ Removed md.now read.0 }
{
    let number = u32::from(read.0);
    match point_of(&md.code, Made::Read(number)) {
        None => false,
        Some(p) => match instr_at(&md.code, p) {
            Instr::Get { place, .. } => {
                m.is_alone(&md.code, p) && is_covered(md, p, place, number)
            }
            _ => false,
        },
    }
}

// Whether an access before this point covers the read of a place there.
fn is_covered(md: &Module, p: Point, place: &Place, read: u32) -> bool
    requires { IsPoint md.now.code p }
    ensures { IsTrue result ↔ IsCovered md.now p.fun p.at read place.now }
{
    let code = lines_of(&md.code, p.fun);
    let mut at = p.at;
    while at > 0 {
        let instr = &code[at as usize - 1].instr;
        if is_named(code, at) || breaks(instr) {
            return false;
        }
        if covers(md, place, read, instr) {
            return true;
        }
        if is_loud(instr) {
            return false;
        }
        at -= 1;
    }
    false
}

// Whether an instruction is an access of the place, and what it leaves there is in the set of the read.
fn covers(md: &Module, place: &Place, read: u32, instr: &Instr) -> bool
    ensures { IsTrue result ↔ Covers md.now place.now read instr.now }
{
    match instr {
        Instr::Get {
            place: other,
            read: earlier,
            ..
        } => is_same(place, other) && is_within(set_of(md, *earlier), set_of(md, read)),
        Instr::Set {
            place: other,
            def,
            ..
        } => is_same(place, other) && has(set_of(md, read), *def),
        _ => false,
    }
}
