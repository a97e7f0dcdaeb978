ghost use Rattle.std.specs.Prelude.{◌≡◌, ◌+◌, ◌++◌, ◌<◌, IfOk, OnOk, length, map, slice_index_or, []};
ghost use Rattle.std.specs.List.{flat_map, range_with_len};
ghost use Rattle.dfi_base.specs.Bits as bits;
ghost use Rattle.tac_ir.specs.declared.module.Key.{Key as AKey};
ghost use Rattle.tac_ir.specs.Counts.{nodes_in_code, temps_of};
ghost use Rattle.tac_ir.specs.GoodForm.{GoodForm};
ghost use Rattle.points_to.specs.Rows.{row_count};
ghost use Rattle.points_to.specs.tools.Entries.{entry, entry_in, keys_before, keys_of};
ghost use Rattle.points_to.specs.tools.RowMaps.{IsRowMapOf};

use crate::row_map::RowMap;
use dfi_base::{Bits, Memory};
use sqlite_items::Items;
use std::alloc::Global;
use tac_ir::{Code, Key, PointsRow};

/// The rows of temporaries and of nodes that have members, in the order of their keys.
pub fn entries_of(
    alloc: Global,
    c: &Code,
    row_map: &RowMap,
    rows: &[Bits],
) -> Result<Items<PointsRow>, Memory>
    requires form { GoodForm c.now }
    requires row_map { IsRowMapOf c.now row_map.now }
    requires rows { length rows.now ≡ row_count c.now }
    ensures { IfOk result (λ list. list ≡ flat_map (entry_in c.now rows.now) (keys_of c.now)) }
{
    let mut list = Items::new(alloc);
    for fun in 0..c.funs.len() as u32 {
        push_temps(alloc, c, row_map, rows, fun, &mut list)?;
    }
    push_nodes(alloc, c, row_map, rows, &mut list)?;
    Ok(list)
}

fn push_temps(
    alloc: Global,
    c: &Code,
    row_map: &RowMap,
    rows: &[Bits],
    fun: u32,
    list: &mut Items<PointsRow>,
) -> Result<(), Memory>
    requires form { GoodForm c.now }
    requires row_map { IsRowMapOf c.now row_map.now }
    requires rows { length rows.now ≡ row_count c.now }
    requires fun { fun < length c.now.funs }
    ensures { OnOk result (list.new ≡ list.old ++ flat_map (entry_in c.now rows.now) (map (AKey.Temp fun) (range_with_len 0 (temps_of c.now fun)))) }
{
    for temp in 0..row_map.temps_of(c, fun) {
        let row = &rows[row_map.temp(c, fun, temp) as usize];
        push_entry(alloc, Key::Temp { fun, temp }, row, list)?;
    }
    Ok(())
}

fn push_nodes(
    alloc: Global,
    c: &Code,
    row_map: &RowMap,
    rows: &[Bits],
    list: &mut Items<PointsRow>,
) -> Result<(), Memory>
    requires row_map { IsRowMapOf c.now row_map.now }
    requires rows { length rows.now ≡ row_count c.now }
    ensures { OnOk result (list.new ≡ list.old ++ flat_map (entry_in c.now rows.now) (map AKey.Node (range_with_len 0 (nodes_in_code c.now)))) }
{
    for node in 0..row_map.nodes {
        push_entry(alloc, Key::Node(node), &rows[node as usize], list)?;
    }
    Ok(())
}

fn push_entry(
    alloc: Global,
    key: Key,
    row: &Bits,
    list: &mut Items<PointsRow>,
) -> Result<(), Memory>
    ensures { OnOk result (list.new ≡ list.old ++ entry key row.now) }
{
    let nodes = row.members(alloc)?;
    if !nodes.is_empty() {
        list.push(PointsRow {
            key,
            nodes: Items::from_vec(nodes),
        })?;
    }
    Ok(())
}
