ghost use Rattle.std.specs.Prelude.{◌≡◌, ◌↔◌, ℕ, true, IfOk};
ghost use Rattle.tac_ir.specs.declared.module.Key.{Key as AKey};
ghost use Rattle.tac_ir.specs.GoodForm.{GoodForm};
ghost use Rattle.flow_rules.specs.Laws.{AreClosed};
ghost use Rattle.flow_rules.specs.PointsTo.{PointsTo};
ghost use Rattle.flow_rules.specs.ReachRows.{ArePointsOf};
ghost use Rattle.flow_rules.specs.Tables.{points_by};

use crate::answer::entries_of;
use crate::row_map::RowMap;
use crate::table::solved_rows;
use dfi_base::Memory;
use std::alloc::Global;
use tac_ir::{Code, Points};

/// What each temporary and each node may point to: the least solution of the rules of points.
pub fn solve_points(alloc: Global, c: &Code) -> Result<Points, Memory>
    requires { GoodForm c.now }
    ensures form { IfOk result (λ p. ArePointsOf c.now p.rows) }
    ensures points { IfOk result (λ p. (key : AKey) (n : ℕ) → (points_by p.rows key n ≡ true) ↔ PointsTo c.now key n) }
    ensures closed { IfOk result (λ p. AreClosed c.now p.rows) }
{
    let map = RowMap::of(alloc, c)?;
    let rows = solved_rows(alloc, c, &map)?;
    let list = entries_of(alloc, c, &map, rows.as_slice())?;
    Ok(Points { rows: list })
}
