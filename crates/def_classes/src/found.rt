//! The sets of all reads.
ghost use Rattle.std.specs.Prelude.{◌≡◌, ◌≤◌, IfOk, length};
ghost use Rattle.tac_ir.specs.GoodForm.{GoodForm};
ghost use Rattle.tac_ir.specs.Numbers.{defs_in_code, reads_made};
ghost use Rattle.flow_rules.specs.InSet.{InSet};
ghost use Rattle.flow_rules.specs.IsMhp.{IsMhp};
ghost use Rattle.flow_rules.specs.ReachRows.{ArePointsOf, IsReachOf, reach_rows};
ghost use Rattle.flow_rules.specs.Touches.{touches};
ghost use Rattle.def_classes.specs.AreSets.{AreSets};
ghost use Rattle.def_classes.specs.tools.Listed.{AreListsOf, IsListOf};

use crate::counts::count_in_code;
use dfi_base::{DefNo, Memory, ReadNo};
use flow_rules::{Mhp, set_has};
use sqlite_items::Items;
use std::alloc::Global;
use tac_ir::{Code, Points, Reach, Sets};

/// The definitions that a read may find, ascending.
fn set_of(
    alloc: Global,
    c: &Code,
    p: &Points,
    m: &Mhp,
    r: &Reach,
    read: ReadNo,
) -> Result<Items<u32>, Memory>
    requires form { GoodForm c.now }
    requires points { ArePointsOf c.now p.now.rows }
    requires parallel { IsMhp c.now m.now }
    requires reach { IsReachOf c.now p.now.rows r.now }
    requires read { 1 ≤ read.0 }
    requires reads { read.0 ≤ length (reads_made c.now) }
    ensures { IfOk result (IsListOf (InSet c.now (touches c.now p.now.rows) (reach_rows c.now r.now) read.0) (defs_in_code c.now)) }
{
    let mut set = Items::new(alloc);
    for def in 0..count_in_code(c).definitions {
        let number = DefNo(def as u16 + 1);
        if set_has(c, p, m, r, read, number) {
            set.push(def + 1)?;
        }
    }
    Ok(set)
}

/// The sets of all reads, from read 1 on.
pub fn sets(alloc: Global, c: &Code, p: &Points, m: &Mhp, r: &Reach) -> Result<Sets, Memory>
    requires form { GoodForm c.now }
    requires points { ArePointsOf c.now p.now.rows }
    requires parallel { IsMhp c.now m.now }
    requires reach { IsReachOf c.now p.now.rows r.now }
    ensures { IfOk result (λ s. AreSets c.now (touches c.now p.now.rows) (reach_rows c.now r.now) s.lists) }
{
    let mut lists = Items::new(alloc);
    for read in 0..count_in_code(c).reads {
        lists.push(set_of(alloc, c, p, m, r, ReadNo(read as u16 + 1))?)?;
    }
    Ok(Sets { lists })
}
