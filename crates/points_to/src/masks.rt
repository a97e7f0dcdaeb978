ghost use Rattle.std.specs.Prelude.{◌≡◌, ◌+◌, ◌<◌, ◌^◌, false, IfOk, length, replicate, Some, slice_get};
ghost use Rattle.tac_ir.specs.Counts.{nodes_in_code};
ghost use Rattle.tac_ir.specs.GoodForm.{GoodForm};
ghost use Rattle.tac_ir.specs.Places.{is_leaf};
ghost use Rattle.flow_rules.specs.PointsClosed.{HasShape};
ghost use Rattle.points_to.specs.Systems.{AreMasks};
ghost use Rattle.points_to.specs.tools.Marked.{AreMarked};

use dfi_base::{Bits, Memory};
use flow_rules::shape_of_node;
use std::alloc::Global;
use tac_ir::{Code, Shape};

/// For each shape the nodes that have it, and behind them all leaves.
pub fn masks_of(alloc: Global, c: &Code, nodes: u32) -> Result<Vec<Bits>, Memory>
    requires form { GoodForm c.now }
    requires nodes { nodes ≡ nodes_in_code c.now }
    ensures { IfOk result (λ masks. AreMasks c.now masks.items) }
{
    let mut masks = empty_rows(alloc, c.shapes.len() + 1, nodes)?;
    for node in 0..nodes {
        if let Some(shape) = shape_of_node(c, node) {
            mark_shape(c, node, shape, &mut masks);
            mark_leaf(c, node, shape, &mut masks);
        }
    }
    Ok(masks)
}

/// So many rows without a member.
pub fn empty_rows(alloc: Global, count: usize, nodes: u32) -> Result<Vec<Bits>, Memory>
    ensures { IfOk result (λ rows. rows.items ≡ replicate count (replicate nodes false)) }
{
    let mut rows = Vec::new(alloc);
    for _ in 0..count {
        rows.push(Bits::new(alloc, nodes)?)?;
    }
    Ok(rows)
}

fn mark_shape(c: &Code, node: u32, shape: u32, masks: &mut Vec<Bits>)
    requires node { node < nodes_in_code c.now }
    requires shape { HasShape c.now node shape }
    requires before { AreMarked c.now node node masks.old.items }
    ensures { AreMarked c.now (node + 1) node masks.new.items }
{
    masks[shape as usize].put(node, true);
}

fn mark_leaf(c: &Code, node: u32, shape: u32, masks: &mut Vec<Bits>)
    requires node { node < nodes_in_code c.now }
    requires shape { HasShape c.now node shape }
    requires before { AreMarked c.now (node + 1) node masks.old.items }
    ensures { AreMarked c.now (node + 1) (node + 1) masks.new.items }
{
    if is_leaf(c, shape) {
        masks[c.shapes.len()].put(node, true);
    }
}

fn is_leaf(c: &Code, shape: u32) -> bool
    ensures { result ≡ is_leaf c.now shape }
{
    match c.shapes.get(shape as usize) {
        Some(Shape::Int) => true,
        Some(Shape::Ptr) => true,
        _ => false,
    }
}
