//! Rows of points that are joined of the bodies of branches.

ghost use Rattle.std.specs.Prelude.{◌≡◌, ◌<◌, ◌^◌, All, false, length, replicate, IfOk};
ghost use Rattle.dfi_base.specs.Bits.{has};
ghost use Rattle.par_interfere.specs.tools.Branches.{are_beside, has_point, is_around};
ghost use Rattle.par_interfere.specs.tools.Calls.{AreRows};
ghost use Rattle.par_interfere.specs.tools.Rows.{AreBesideFuns, AreBesidePoints, AreBodies, AreOthers, IsJoinOf, IsRowOf};

use crate::branches::Branch;
use dfi_base::{Bits, Memory, Point};
use std::alloc::Global;

/// The points in the body of each branch.
pub fn bodies(alloc: Global, points: &[Point], branches: &[Branch]) -> Result<Vec<Bits>, Memory>
    requires few { length points.now < 2 ^ 32 }
    requires called { All (λ b. All (λ p. p.fun < length b.called) points.now) branches.now }
    ensures { IfOk result (λ bodies. AreBodies points.now branches.now bodies.items) }
{
    let mut bodies = Vec::new(alloc);
    for branch in branches {
        bodies.push(body(alloc, points, branch)?)?;
    }
    Ok(bodies)
}

fn body(alloc: Global, points: &[Point], branch: &Branch) -> Result<Bits, Memory>
    requires few { length points.now < 2 ^ 32 }
    requires called { All (λ p. p.fun < length branch.now.called) points.now }
    ensures { IfOk result (IsRowOf (has_point branch.now) points.now) }
{
    let mut body = Bits::new(alloc, points.len() as u32)?;
    for at in 0..points.len() {
        if branch.has_point(points[at]) {
            body.put(at as u32, true);
        }
    }
    Ok(body)
}

/// What is in the bodies of the other branches of the fork of each branch.
pub fn others(
    alloc: Global,
    width: u32,
    branches: &[Branch],
    bodies: &[Bits],
) -> Result<Vec<Bits>, Memory>
    requires { AreRows (length branches.now) width bodies.now }
    ensures { IfOk result (λ others. AreOthers width branches.now bodies.now others.items) }
{
    let mut others = Vec::new(alloc);
    for branch in branches {
        others.push(beside_branch(alloc, width, branch, branches, bodies)?)?;
    }
    Ok(others)
}

fn beside_branch(
    alloc: Global,
    width: u32,
    branch: &Branch,
    branches: &[Branch],
    bodies: &[Bits],
) -> Result<Bits, Memory>
    requires { AreRows (length branches.now) width bodies.now }
    ensures { IfOk result (IsJoinOf (are_beside branch.now) branches.now bodies.now (length branches.now) (replicate width false)) }
{
    let mut row = Bits::new(alloc, width)?;
    for i in 0..branches.len() {
        if branch.is_beside(&branches[i]) {
            row.or(&bodies[i]);
        }
    }
    Ok(row)
}

/// What is beside each function: the others of the branches from which it is called.
pub fn beside_funs(
    alloc: Global,
    count: u32,
    width: u32,
    branches: &[Branch],
    others: &[Bits],
) -> Result<Vec<Bits>, Memory>
    requires others { AreRows (length branches.now) width others.now }
    requires called { All (λ b. length b.called ≡ count) branches.now }
    ensures { IfOk result (λ beside. AreBesideFuns count width branches.now others.now beside.items) }
{
    let mut beside = Vec::new(alloc);
    for fun in 0..count {
        beside.push(beside_fun(alloc, fun, width, branches, others)?)?;
    }
    Ok(beside)
}

fn beside_fun(
    alloc: Global,
    fun: u32,
    width: u32,
    branches: &[Branch],
    others: &[Bits],
) -> Result<Bits, Memory>
    requires others { AreRows (length branches.now) width others.now }
    requires called { All (λ b. fun < length b.called) branches.now }
    ensures { IfOk result (IsJoinOf (λ b. has b.called fun) branches.now others.now (length branches.now) (replicate width false)) }
{
    let mut row = Bits::new(alloc, width)?;
    for i in 0..branches.len() {
        if branches[i].called.get(fun) {
            row.or(&others[i]);
        }
    }
    Ok(row)
}

/// What is beside each point: what is beside its function, and the others of the branches around it.
pub fn beside_points(
    alloc: Global,
    points: &[Point],
    branches: &[Branch],
    others: &[Bits],
    funs: &[Bits],
) -> Result<Vec<Bits>, Memory>
    requires others { AreRows (length branches.now) (length points.now) others.now }
    requires funs { AreBesideFuns (length funs.now) (length points.now) branches.now others.now funs.now }
    requires points { All (λ p. p.fun < length funs.now) points.now }
    ensures { IfOk result (λ rows. AreBesidePoints points.now branches.now others.now rows.items) }
{
    let mut rows = Vec::new(alloc);
    for p in points {
        let mut row = funs[p.fun as usize].try_clone(alloc)?;
        add_around(&mut row, *p, branches, others);
        rows.push(row)?;
    }
    Ok(rows)
}

// Adds to a row the others of the branches around a point.
fn add_around(row: &mut Bits, p: Point, branches: &[Branch], others: &[Bits])
    requires { AreRows (length branches.now) (length row.old) others.now }
    ensures { IsJoinOf (λ b. is_around b p) branches.now others.now (length branches.now) row.old row.new }
{
    for i in 0..branches.len() {
        if branches[i].is_around(p) {
            row.or(&others[i]);
        }
    }
}
