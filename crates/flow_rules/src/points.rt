ghost use Rattle.std.specs.Prelude.{◌≡◌, ◌+◌, ◌<◌, ◌^◌, Some, None, MatchOption};
ghost use Rattle.tac_ir.specs.Counts.{points_in_code};
ghost use Rattle.tac_ir.specs.GoodModule.{IsPoint};
ghost use Rattle.tac_ir.specs.Layout.{instr_at, lines_of};
ghost use Rattle.flow_rules.specs.PointNumber.{point_number};

use dfi_base::Point;
use tac_ir::{Code, Instr, Lined};

/// How many points stand before this one in the order of the code.
pub(crate) fn point_number(c: &Code, p: Point) -> usize
    requires p { IsPoint c.now p }
    requires fits { points_in_code c.now < 2 ^ 64 }
    ensures { result ≡ point_number c.now p }
{
    let mut before = 0;
    for fun in &c.funs.as_slice()[..p.fun as usize] {
        before += fun.code.len();
    }
    before + p.at as usize
}

/// The instruction at a point.
pub(crate) fn instr_at(c: &Code, p: Point) -> &Instr
    requires { IsPoint c.now p }
    ensures { result.now ≡ instr_at c.now p }
{
    &c.funs.as_slice()[p.fun as usize].code.as_slice()[p.at as usize].instr
}

/// The instructions of a function.
pub(crate) fn lines_of(c: &Code, fun: u32) -> &[Lined]
    ensures { result.now ≡ lines_of c.now fun }
{
    match c.funs.get(fun as usize) {
        None => &[],
        Some(fun) => fun.code.as_slice(),
    }
}
