ghost use Rattle.std.specs.Prelude.{◌↔◌, ◌<◌, IsTrue, length};
ghost use Rattle.tac_ir.specs.GoodForm.{GoodForm};
ghost use Rattle.tac_ir.specs.GoodModule.{IsPoint};
ghost use Rattle.tac_ir.specs.Layout.{instr_at};
ghost use Rattle.tac_ir.specs.Places.{IsLeafPlace};
ghost use Rattle.flow_rules.specs.CanCall.{HasOneFrame};
ghost use Rattle.flow_rules.specs.IsMhp.{IsMhp};
ghost use Rattle.flow_rules.specs.Single.{IsOfOneVariable};
ghost use Rattle.flow_rules.specs.tools.Killed.{IsKilled, IsKilledBySet};

use crate::calls::can_call_itself;
use crate::mhp::Mhp;
use crate::nodes::place_node;
use crate::points::instr_at;
use dfi_base::Point;
use tac_ir::{Code, Instr, Place};

/// The leaf of which the instruction at a point kills what was written before, if there is one.
pub(crate) fn killed_at(c: &Code, m: &Mhp, p: Point) -> Option<u32>
    requires form { GoodForm c.now }
    requires parallel { IsMhp c.now m.now }
    requires point { IsPoint c.now p }
    ensures { IsKilled c.now p.fun (instr_at c.now p) result }
{
    match instr_at(c, p) {
        Instr::Set { place, .. } => killed_by_set(c, m, p.fun, place),
        _ => None,
    }
}

fn killed_by_set(c: &Code, m: &Mhp, fun: u32, place: &Place) -> Option<u32>
    requires form { GoodForm c.now }
    requires parallel { IsMhp c.now m.now }
    requires fun { fun < length c.now.funs }
    requires place { IsLeafPlace c.now fun place.now }
    ensures { IsKilledBySet c.now fun place.now result }
{
    if is_of_one_variable(c, m, fun, place) {
        Some(place_node(c, fun, place))
    } else {
        None
    }
}

// Whether a variable lives once at a time.
fn is_of_one_variable(c: &Code, m: &Mhp, fun: u32, place: &Place) -> bool
    requires form { GoodForm c.now }
    requires parallel { IsMhp c.now m.now }
    requires fun { fun < length c.now.funs }
    ensures { IsTrue result ↔ IsOfOneVariable c.now fun place.now }
{
    match place {
        Place::Global { .. } => true,
        Place::Local { .. } => has_one_frame(c, m, fun),
    }
}

fn has_one_frame(c: &Code, m: &Mhp, fun: u32) -> bool
    requires form { GoodForm c.now }
    requires parallel { IsMhp c.now m.now }
    requires fun { fun < length c.now.funs }
    ensures { IsTrue result ↔ HasOneFrame c.now fun }
{
    let entry = Point { fun, at: 0 };
    !m.meets(c, entry, entry) && !can_call_itself(c, fun)
}
