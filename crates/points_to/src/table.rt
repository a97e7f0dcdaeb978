ghost use Rattle.std.specs.Prelude.{◌≡◌, ◌↔◌, ℕ, false, All, IfOk, IsTrue, length, replicate};
ghost use Rattle.tac_ir.specs.declared.module.Key.{Key as AKey};
ghost use Rattle.tac_ir.specs.Counts.{nodes_in_code};
ghost use Rattle.tac_ir.specs.GoodForm.{GoodForm};
ghost use Rattle.tac_ir.specs.GoodModule.{IsKey};
ghost use Rattle.least_rows.specs.Rules.{row_has};
ghost use Rattle.flow_rules.specs.PointsTo.{PointsTo};
ghost use Rattle.points_to.specs.Rows.{row_of_key, row_number, row_count};
ghost use Rattle.points_to.specs.tools.RowMaps.{IsRowMapOf};

use crate::masks::empty_rows;
use crate::row_map::RowMap;
use crate::system::system_of;
use dfi_base::{Bits, Memory};
use least_rows::solve;
use std::alloc::Global;
use tac_ir::Code;

/// To which nodes each temporary and each node may point.
pub fn solved_rows(alloc: Global, c: &Code, map: &RowMap) -> Result<Vec<Bits>, Memory>
    requires form { GoodForm c.now }
    requires map { IsRowMapOf c.now map.now }
    ensures long { IfOk result (λ rows. length rows.items ≡ row_count c.now) }
    ensures wide { IfOk result (λ rows. All (λ row. length row ≡ nodes_in_code c.now) rows.items) }
    ensures points { IfOk result (λ rows. (key : AKey) (n : ℕ) → IsKey c.now key
        → IsTrue (row_has rows.items (row_number c.now (row_of_key key)) n) ↔ PointsTo c.now key n) }
{
    let system = system_of(alloc, c, map)?;
    let start = empty_rows(alloc, map.count(c) as usize, map.nodes)?;
    let rows = solve(alloc, &system, start)?;
    Ok(rows)
}
