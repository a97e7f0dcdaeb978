ghost use Rattle.std.specs.Prelude.{◌≡◌, ◌↔◌, ◌<◌, ◌≤◌, ◌&&◌, ◌||◌, IsTrue, length, nat_eq};
ghost use Rattle.dfi_base.specs.Bits as bits;
ghost use Rattle.tac_ir.specs.GoodForm.{GoodForm};
ghost use Rattle.tac_ir.specs.GoodModule.{IsPoint};
ghost use Rattle.tac_ir.specs.Numbers.{defs_in_code, reads_made};
ghost use Rattle.flow_rules.specs.InSet.{InSet, IsMadeBeside};
ghost use Rattle.flow_rules.specs.IsMhp.{IsMhp};
ghost use Rattle.flow_rules.specs.ReachRows.{ArePointsOf, IsReachOf, reach_rows};
ghost use Rattle.flow_rules.specs.Touches.{touches};
ghost use Rattle.flow_rules.specs.tools.Coming.{SomeComes};

use crate::mhp::Mhp;
use crate::reads::{Made, point_of};
use crate::rows::{row_at, touches};
use dfi_base::{Bits, DefNo, Point, ReadNo};
use tac_ir::{Code, Fact, Points, Reach};

/// Whether a read may find a definition.
pub fn set_has(c: &Code, p: &Points, m: &Mhp, r: &Reach, read: ReadNo, d: DefNo) -> bool
    requires form { GoodForm c.now }
    requires points { ArePointsOf c.now p.now.rows }
    requires parallel { IsMhp c.now m.now }
    requires reach { IsReachOf c.now p.now.rows r.now }
    requires read { 1 ≤ read.0 }
    requires reads { read.0 ≤ length (reads_made c.now) }
    requires def { 1 ≤ d.0 }
    requires defs { d.0 ≤ defs_in_code c.now }
    ensures { IsTrue result ↔ InSet c.now (touches c.now p.now.rows) (reach_rows c.now r.now) read.0 d.0 }
{
    let def = u32::from(d.0);
    match point_of(c, Made::Read(u32::from(read.0))) {
        None => false,
        Some(at) => {
            let beside = is_made_beside(c, m, at, def);
            comes(c, p, r, at, def, beside)
        }
    }
}

// Whether a definition is made at a point parallel to one.
fn is_made_beside(c: &Code, m: &Mhp, at: Point, def: u32) -> bool
    requires form { GoodForm c.now }
    requires point { IsPoint c.now at }
    requires parallel { IsMhp c.now m.now }
    ensures { IsTrue result ↔ IsMadeBeside c.now at def }
{
    match point_of(c, Made::Def(def)) {
        None => false,
        Some(q) => m.meets(c, at, q),
    }
}

// Whether a definition comes to a point, or is made beside it, for a leaf that both may touch.
fn comes(c: &Code, p: &Points, r: &Reach, at: Point, def: u32, beside: bool) -> bool
    requires form { GoodForm c.now }
    requires point { IsPoint c.now at }
    requires reach { IsReachOf c.now p.now.rows r.now }
    ensures { IsTrue result ↔ SomeComes c.now p.now.rows r.now at def beside }
{
    let row = row_at(c, r, at);
    let facts = r.facts.pairs.as_slice();
    for k in 0..row.len() {
        let near = is_near(beside, row, k);
        if comes_by(c, p, facts[k as usize], at, def, near) {
            return true;
        }
    }
    false
}

fn is_near(beside: bool, row: &Bits, k: u32) -> bool
    requires { k < length row.now }
    ensures { result ≡ (beside || bits.has row.now k) }
{
    beside || row.get(k)
}

fn comes_by(c: &Code, p: &Points, fact: Fact, at: Point, def: u32, near: bool) -> bool
    requires form { GoodForm c.now }
    requires point { IsPoint c.now at }
    ensures { result ≡ (nat_eq fact.def def && near && touches c.now p.now.rows at fact.leaf) }
{
    fact.def == def && near && touches(c, p, at, fact.leaf)
}
