//! The branches of forks, each with its region and the functions that are called from there.

ghost use Rattle.std.specs.Prelude.{◌≡◌, ◌<◌, ◌↔◌, ◌++◌, ◌∷◌, [], ℕ, true, length, nat_lt, All, Contains, IsTrue, Some, IfOk, OnOk, slice_get, slice_index};
ghost use Rattle.dfi_base.specs.Bits.{has};
ghost use Rattle.tac_ir.specs.GoodForm.{GoodForm};
ghost use Rattle.tac_ir.specs.GoodModule.{IsPoint};
ghost use Rattle.tac_ir.specs.Layout.{instr_at};
ghost use Rattle.tac_ir.specs.Module.{is_chain};
ghost use Rattle.tac_ir.specs.Regions.{Region, regions_by, regions_of};
ghost use Rattle.par_interfere.specs.tools.Branches.{AreBranches, HasBranch, IsBranch, are_beside, has_point, is_around, is_between};
ghost use Rattle.par_interfere.specs.tools.Calls.{CallsFrom, IsCallTable};
ghost use Rattle.par_interfere.specs.tools.Points.{ArePoints};
ghost use Rattle.par_interfere.specs.tools.Spans.{region_at};

use crate::points::{callee, instr_at};
use dfi_base::{Bits, Memory, Point};
use std::alloc::Global;
use tac_ir::{Code, Instr};

/// A branch of a fork of a function: the indexes of its fork and of the first and last instruction of its region, and the functions that
/// are called from there, through any chain of calls.
#[derive(Drop)]
pub struct Branch {
    pub fun: u32,
    pub fork: u32,
    pub entry: u32,
    pub last: u32,
    pub called: Bits,
}

impl Branch {
    /// Whether a point stands in the region.
    pub fn is_around(&self, p: Point) -> bool
        ensures { result ≡ is_around self.now p }
    {
        is_between(p, self.fun, self.entry, self.last)
    }

    /// Whether a point stands in the region, or in a function that is called from there.
    pub fn has_point(&self, p: Point) -> bool
        requires { p.fun < length self.now.called }
        ensures { result ≡ has_point self.now p }
    {
        self.is_around(p) || self.called.get(p.fun)
    }

    /// Whether the other is another branch of the same fork.
    pub fn is_beside(&self, other: &Branch) -> bool
        ensures { result ≡ are_beside self.now other.now }
    {
        self.fun == other.fun && self.fork == other.fork && self.entry != other.entry
    }
}

/// All branches of code.
pub fn all_branches(
    alloc: Global,
    c: &Code,
    points: &[Point],
    table: &[Bits],
) -> Result<Vec<Branch>, Memory>
    requires form { GoodForm c.now }
    requires points { ArePoints c.now points.now }
    requires table { IsCallTable c.now table.now }
    ensures { IfOk result (λ branches. AreBranches c.now points.now (length points.now) branches.items) }
{
    let mut branches = Vec::new(alloc);
    for p in points {
        add_branches(alloc, c, points, table, *p, &mut branches)?;
    }
    Ok(branches)
}

// Adds those of the fork at a point, if there is one.
fn add_branches(
    alloc: Global,
    c: &Code,
    points: &[Point],
    table: &[Bits],
    p: Point,
    branches: &mut Vec<Branch>,
) -> Result<(), Memory>
    requires form { GoodForm c.now }
    requires points { ArePoints c.now points.now }
    requires table { IsCallTable c.now table.now }
    requires p { IsPoint c.now p }
    requires old { All (IsBranch c.now points.now) branches.old.items }
    ensures new { OnOk result (All (IsBranch c.now points.now) branches.new.items) }
    ensures kept { OnOk result ((f : ℕ) (r : Region) → HasBranch branches.old.items f r → HasBranch branches.new.items f r) }
    ensures added { OnOk result ((r : Region) → Contains (regions_by p.at (instr_at c.now p)) r → HasBranch branches.new.items p.fun r) }
{
    let Instr::Fork { join, entries } = instr_at(c, p) else {
        return Ok(());
    };
    let entries = entries.as_slice();
    for i in 0..entries.len() {
        let last = last_of(*join, entries, i);
        branches.push(Branch {
            fun: p.fun,
            fork: p.at,
            entry: entries[i],
            last,
            called: called_from(alloc, c, points, table, p.fun, entries[i], last)?,
        })?;
    }
    Ok(())
}

// The last instruction of a branch: that before the next branch, or before the join.
fn last_of(join: u32, entries: &[u32], branch: usize) -> u32
    requires branch { branch < length entries.now }
    requires ascends { IsTrue (is_chain nat_lt (entries.now ++ join ∷ [])) }
    ensures { (fork : ℕ) → slice_get (regions_of fork join entries.now) branch ≡ Some (region_at fork (slice_index entries.now branch) result) }
{
    if branch + 1 < entries.len() {
        entries[branch + 1] - 1
    } else {
        join - 1
    }
}

// The functions that are called between two indexes of a function, through any chain of calls.
fn called_from(
    alloc: Global,
    c: &Code,
    points: &[Point],
    table: &[Bits],
    fun: u32,
    first: u32,
    last: u32,
) -> Result<Bits, Memory>
    requires form { GoodForm c.now }
    requires points { ArePoints c.now points.now }
    requires table { IsCallTable c.now table.now }
    ensures long { IfOk result (λ called. length called ≡ length c.now.funs) }
    ensures called { IfOk result (λ called. (g : ℕ) → (has called g ≡ true) ↔ CallsFrom c.now points.now (length points.now) fun first last g) }
{
    let mut called = Bits::new(alloc, c.funs.len() as u32)?;
    for p in points {
        if is_between(*p, fun, first, last) {
            if let Some(callee) = callee(c, *p) {
                called.put(callee, true);
                called.or(&table[callee as usize]);
            }
        }
    }
    Ok(called)
}

// Whether a point stands between two indexes of a function.
fn is_between(p: Point, fun: u32, first: u32, last: u32) -> bool
    ensures { result ≡ is_between p fun first last }
{
    p.fun == fun && first <= p.at && p.at <= last
}
