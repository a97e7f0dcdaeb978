//! The module of code with its tables, in which each read is checked.
#![tactic(auto)]

ghost use Rattle.std.specs.Prelude.{◌≡◌, ◌+◌, ◌≤◌, ◌++◌, IfOk, OnOk, drop, false, length, replicate, take};
ghost use Rattle.dfi_base.specs.Bits.{members};
ghost use Rattle.tac_ir.specs.GoodForm.{GoodForm};
ghost use Rattle.tac_ir.specs.Counts.{points_in_code};
ghost use Rattle.flow_rules.specs.ReachRows.{ArePointsOf, IsReachOf};
ghost use Rattle.instrument.specs.Instruments.{AreSetsOf, HasTable, Instruments};
ghost use Rattle.instrument.specs.tools.MadeRows.{row_if, rows_from, rows_of};

use dfi_base::{Bits, Memory, Point};
use sqlite_items::Items;
use std::alloc::Global;
use tac_ir::{Classes, Code, Module, Points, Reach, ReachRow, Sets, Size};

/// Adds the row of a point, where some fact reaches it.
fn add_row(
    alloc: Global,
    made: &mut Items<ReachRow>,
    point: Point,
    row: &Bits,
) -> Result<(), Memory>
    ensures { OnOk result (made.new ≡ made.old ++ row_if point (members row.now)) }
{
    let facts = row.members(alloc)?;
    if facts.is_empty() {
        return Ok(());
    }
    made.push(ReachRow {
        point,
        facts: Items::from_vec(facts),
    })?;
    Ok(())
}

/// Adds those of one function, whose points have the rows from `first` on.
fn add_rows(
    alloc: Global,
    made: &mut Items<ReachRow>,
    fun: u32,
    rows: &[Bits],
    first: usize,
    count: usize,
) -> Result<(), Memory>
    requires within { first + count ≤ length rows.now }
    requires few { length rows.now ≤ 16384 }
    ensures { OnOk result (made.new ≡ made.old ++ rows_of fun 0 (take count (drop first rows.now))) }
{
    for at in 0..count {
        let point = Point { fun, at: at as u32 };
        add_row(alloc, made, point, &rows[first + at])?;
    }
    Ok(())
}

/// The rows of all points that some fact reaches, in the order of the code.
fn reach_rows(alloc: Global, c: &Code, rows: &[Bits]) -> Result<Items<ReachRow>, Memory>
    requires form { GoodForm c.now }
    requires count { length rows.now ≡ points_in_code c.now }
    ensures { IfOk result (λ made. made ≡ rows_from 0 c.now.funs rows.now) }
{
    let funs = c.funs.as_slice();
    let mut made = Items::new(alloc);
    let mut first = 0;
    for fun in 0..funs.len() {
        let count = funs[fun].code.len();
        add_rows(alloc, &mut made, fun as u32, rows, first, count)?;
        first += count;
    }
    Ok(made)
}

/// So many reads, each of them checked.
fn all_checked(alloc: Global, reads: usize) -> Result<Items<bool>, Memory>
    ensures { IfOk result (λ removed. removed ≡ replicate reads false) }
{
    Ok(Items::from_vec(vec![in alloc; false; reads]?))
}

/// The module of this code with these tables.
pub fn instrument(
    alloc: Global,
    c: Code,
    p: Points,
    r: Reach,
    s: Sets,
    k: Classes,
) -> Result<Module, Memory>
    requires form { GoodForm c }
    requires points { ArePointsOf c p.rows }
    requires reach { IsReachOf c p.rows r }
    requires sets { AreSetsOf c s.lists }
    ensures module { IfOk result (Instruments c p.rows r s.lists k.list) }
    ensures table { IfOk result (HasTable c r) }
{
    let reach = reach_rows(alloc, &c, r.rows.as_slice())?;
    let removed = all_checked(alloc, s.lists.len())?;
    Ok(Module {
        size: Size::Small,
        code: c,
        classes: k,
        sets: s,
        removed,
        points: p,
        reach,
    })
}
