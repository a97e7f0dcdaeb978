ghost use Rattle.std.specs.Prelude.{IfOk, length};
ghost use Rattle.tac_ir.specs.GoodForm.{GoodForm};
ghost use Rattle.flow_rules.specs.IsMhp.{IsMhp, IsSquare};
ghost use Rattle.par_interfere.specs.tools.Branches.{AreBranches};
ghost use Rattle.par_interfere.specs.tools.Points.{ArePoints};

use crate::branches::{Branch, all_branches};
use crate::calls::call_table;
use crate::points::all_points;
use crate::rows::{beside_funs, beside_points, bodies, others};
use dfi_base::{Bits, Memory, Point};
use flow_rules::Mhp;
use std::alloc::Global;
use tac_ir::Code;

/// The parallel points of code. It takes time as the square of the number of points: a step for each point and branch, and a step for 64
/// points of each row.
pub fn mhp(alloc: Global, c: &Code) -> Result<Mhp, Memory>
    requires { GoodForm c.now }
    ensures { IfOk result (IsMhp c.now) }
{
    let points = all_points(alloc, c)?;
    let table = call_table(alloc, c, &points)?;
    let branches = all_branches(alloc, c, &points, &table)?;
    let rows = rows_of(alloc, c, &points, &branches)?;
    Ok(Mhp::of(rows))
}

// For each point those that are parallel to it.
fn rows_of(
    alloc: Global,
    c: &Code,
    points: &[Point],
    branches: &[Branch],
) -> Result<Vec<Bits>, Memory>
    requires form { GoodForm c.now }
    requires points { ArePoints c.now points.now }
    requires branches { AreBranches c.now points.now (length points.now) branches.now }
    ensures rows { IfOk result (λ rows. IsMhp c.now rows.items) }
    ensures square { IfOk result (λ rows. IsSquare rows.items) }
{
    let width = points.len() as u32;
    let bodies = bodies(alloc, points, branches)?;
    let others = others(alloc, width, branches, &bodies)?;
    let funs = beside_funs(alloc, c.funs.len() as u32, width, branches, &others)?;
    let rows = beside_points(alloc, points, branches, &others, &funs)?;
    Ok(rows)
}
