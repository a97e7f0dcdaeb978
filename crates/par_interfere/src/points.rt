//! The points of code as a list, in its order.

ghost use Rattle.std.specs.Prelude.{◌≡◌, ◌+◌, ◌<◌, ◌^◌, length, Some, None, IfOk, OnOk};
ghost use Rattle.tac_ir.specs.Counts.{points_in_code};
ghost use Rattle.tac_ir.specs.Edges.{calls_fun};
ghost use Rattle.tac_ir.specs.GoodForm.{GoodForm};
ghost use Rattle.tac_ir.specs.GoodModule.{IsPoint};
ghost use Rattle.tac_ir.specs.Layout.{instr_at, lines_of};
ghost use Rattle.flow_rules.specs.PointNumber.{entry, point_number};
ghost use Rattle.par_interfere.specs.tools.Points.{AreNumbered, ArePoints, callee};

use dfi_base::{Memory, Point};
use std::alloc::Global;
use tac_ir::{Code, Instr};

/// All points, each at its number.
pub fn all_points(alloc: Global, c: &Code) -> Result<Vec<Point>, Memory>
    requires { GoodForm c.now }
    ensures { IfOk result (λ points. ArePoints c.now points.items) }
{
    let mut points = Vec::new(alloc);
    let funs = c.funs.as_slice();
    for fun in 0..funs.len() {
        add_points(&mut points, c, fun as u32, funs[fun].code.len() as u32)?;
    }
    Ok(points)
}

// Adds the points of a function.
fn add_points(points: &mut Vec<Point>, c: &Code, fun: u32, count: u32) -> Result<(), Memory>
    requires old { AreNumbered c.now points.old.items }
    requires first { length points.old.items ≡ point_number c.now (entry fun) }
    requires count { count ≡ length (lines_of c.now fun) }
    ensures new { OnOk result (AreNumbered c.now points.new.items) }
    ensures more { OnOk result (length points.new.items ≡ length points.old.items + count) }
{
    for at in 0..count {
        points.push(Point { fun, at })?;
    }
    Ok(())
}

/// The instruction at a point.
pub fn instr_at(c: &Code, p: Point) -> &Instr
    requires { IsPoint c.now p }
    ensures { result.now ≡ instr_at c.now p }
{
    &c.funs.as_slice()[p.fun as usize].code.as_slice()[p.at as usize].instr
}

/// The function that is called at a point, if one is.
pub fn callee(c: &Code, p: Point) -> Option<u32>
    requires { IsPoint c.now p }
    ensures { result ≡ callee (instr_at c.now p) }
{
    match instr_at(c, p) {
        Instr::Call { fun, .. } => Some(*fun),
        _ => None,
    }
}
