//! Which functions can be called from which.

ghost use Rattle.std.specs.Prelude.{◌≡◌, ◌<◌, ◌^◌, ◌&&◌, ◌||◌, ℕ, false, length, replicate, IfOk, OnOk};
ghost use Rattle.dfi_base.specs.Bits.{has};
ghost use Rattle.tac_ir.specs.GoodForm.{GoodForm};
ghost use Rattle.par_interfere.specs.tools.Points.{ArePoints};
ghost use Rattle.par_interfere.specs.tools.Calls.{AreCalls, IsCallTable, IsTable, in_table};
ghost use Rattle.par_interfere.specs.tools.Closing.{IsClosure};

use crate::points::callee;
use dfi_base::{Bits, Memory, Point};
use std::alloc::Global;
use tac_ir::Code;

/// For each function the functions that can be called from it, through any chain of calls.
pub fn call_table(alloc: Global, c: &Code, points: &[Point]) -> Result<Vec<Bits>, Memory>
    requires form { GoodForm c.now }
    requires points { ArePoints c.now points.now }
    ensures { IfOk result (λ table. IsCallTable c.now table.items) }
{
    let mut table = direct_calls(alloc, c, points)?;
    close(alloc, &mut table)?;
    Ok(table)
}

/// So many rows without members.
pub fn empty_rows(alloc: Global, count: u32, width: u32) -> Result<Vec<Bits>, Memory>
    ensures { IfOk result (λ rows. rows.items ≡ replicate count (replicate width false)) }
{
    let mut rows = Vec::new(alloc);
    for _ in 0..count {
        rows.push(Bits::new(alloc, width)?)?;
    }
    Ok(rows)
}

// For each function those that it calls itself.
fn direct_calls(alloc: Global, c: &Code, points: &[Point]) -> Result<Vec<Bits>, Memory>
    requires form { GoodForm c.now }
    requires points { ArePoints c.now points.now }
    ensures shape { IfOk result (λ table. IsTable (length c.now.funs) table.items) }
    ensures calls { IfOk result (λ table. AreCalls c.now points.now (length points.now) table.items) }
{
    let count = c.funs.len() as u32;
    let mut table = empty_rows(alloc, count, count)?;
    for p in points {
        if let Some(fun) = callee(c, *p) {
            table[p.fun as usize].put(fun, true);
        }
    }
    Ok(table)
}

// Adds to each row those of its members, and so on (Warshall, A Theorem on Boolean Matrices, 1962).
fn close(alloc: Global, table: &mut Vec<Bits>) -> Result<(), Memory>
    requires shape { IsTable (length table.old.items) table.old.items }
    requires few { length table.old.items < 2 ^ 32 }
    ensures shape { OnOk result (IsTable (length table.old.items) table.new.items) }
    ensures closed { OnOk result (IsClosure table.old.items table.new.items) }
{
    for middle in 0..table.len() {
        let row = table[middle].try_clone(alloc)?;
        add_where(table, middle as u32, &row);
    }
    Ok(())
}

// Adds a row to each row with this member.
fn add_where(table: &mut Vec<Bits>, member: u32, more: &Bits)
    requires shape { IsTable (length more.now) table.old.items }
    requires member { member < length more.now }
    ensures shape { IsTable (length more.now) table.new.items }
    ensures rows { (f g : ℕ) → in_table table.new.items f g ≡ (in_table table.old.items f g || (in_table table.old.items f member && has more.now g)) }
{
    for at in 0..table.len() {
        if table[at].get(member) {
            table[at].or(more);
        }
    }
}
