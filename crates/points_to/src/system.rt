ghost use Rattle.std.specs.Prelude.{◌≡◌, ◌++◌, ◌<◌, IfOk, OnOk, length};
ghost use Rattle.tac_ir.specs.GoodForm.{GoodForm};
ghost use Rattle.tac_ir.specs.Layout.{lines_of};
ghost use Rattle.points_to.specs.Systems.{AreMasks, IsSystemOf, rules_from, rules_in};
ghost use Rattle.points_to.specs.tools.RowMaps.{IsRowMapOf};

use crate::instr_rules::push_rules;
use crate::masks::masks_of;
use crate::row_map::RowMap;
use dfi_base::{Bits, Memory};
use least_rows::{Rule, System};
use sqlite_items::Items;
use std::alloc::Global;
use tac_ir::Code;

/// The rules of all instructions of a code.
pub fn system_of(alloc: Global, c: &Code, map: &RowMap) -> Result<System, Memory>
    requires form { GoodForm c.now }
    requires map { IsRowMapOf c.now map.now }
    ensures { IfOk result (IsSystemOf c.now) }
{
    let masks = masks_of(alloc, c, map.nodes)?;
    let rules = all_rules(alloc, c, map, masks.as_slice())?;
    Ok(System {
        width: map.nodes,
        masks: Items::from_vec(masks),
        rules,
    })
}

fn all_rules(alloc: Global, c: &Code, map: &RowMap, masks: &[Bits]) -> Result<Items<Rule>, Memory>
    requires form { GoodForm c.now }
    requires map { IsRowMapOf c.now map.now }
    requires masks { AreMasks c.now masks.now }
    ensures { IfOk result (λ rules. rules ≡ rules_from c.now 0 c.now.funs) }
{
    let mut rules = Items::new(alloc);
    for fun in 0..c.funs.len() as u32 {
        push_fun(c, map, masks, fun, &mut rules)?;
    }
    Ok(rules)
}

// The rules of a function.
fn push_fun(
    c: &Code,
    map: &RowMap,
    masks: &[Bits],
    fun: u32,
    rules: &mut Items<Rule>,
) -> Result<(), Memory>
    requires form { GoodForm c.now }
    requires map { IsRowMapOf c.now map.now }
    requires masks { AreMasks c.now masks.now }
    requires fun { fun < length c.now.funs }
    ensures { OnOk result (rules.new ≡ rules.old ++ rules_in c.now fun (lines_of c.now fun)) }
{
    for line in c.funs.as_slice()[fun as usize].code.as_slice() {
        push_rules(c, map, masks, fun, &line.instr, rules)?;
    }
    Ok(())
}
