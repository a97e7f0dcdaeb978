ghost use Rattle.std.specs.Prelude.{◌≡◌, length};
ghost use Rattle.tac_ir.specs.Accesses.{is_same_key, leaves_for, nodes_for};
ghost use Rattle.tac_ir.specs.Answers.{has};
ghost use Rattle.tac_ir.specs.Counts.{points_in_code};
ghost use Rattle.tac_ir.specs.GoodForm.{GoodForm};
ghost use Rattle.tac_ir.specs.GoodModule.{IsPoint};
ghost use Rattle.flow_rules.specs.ReachRows.{row_of};
ghost use Rattle.flow_rules.specs.Touches.{touches};

use crate::leaves::is_leaf_node;
use crate::nodes::{link_leaf, place_node};
use crate::points::{instr_at, point_number};
use crate::reads::has;
use dfi_base::{Bits, Point};
use tac_ir::{Code, Instr, Key, Points, Reach};

/// The nodes to which a temporary or a node may point.
pub(crate) fn nodes_for(points: &Points, key: Key) -> &[u32]
    ensures { result.now ≡ nodes_for points.now.rows key }
{
    for row in points.rows.as_slice() {
        if is_same_key(row.key, key) {
            return row.nodes.as_slice();
        }
    }
    &[]
}

fn is_same_key(key: Key, other: Key) -> bool
    ensures { result ≡ is_same_key key other }
{
    match (key, other) {
        (Key::Temp { fun, temp }, Key::Temp { fun: f, temp: t }) => fun == f && temp == t,
        (Key::Node(node), Key::Node(n)) => node == n,
        _ => false,
    }
}

/// Whether the access of the instruction at a point may touch a leaf.
pub(crate) fn touches(c: &Code, points: &Points, p: Point, leaf: u32) -> bool
    requires form { GoodForm c.now }
    requires point { IsPoint c.now p }
    ensures { result ≡ touches c.now points.now.rows p leaf }
{
    match instr_at(c, p) {
        Instr::Set { place, .. } => place_node(c, p.fun, place) == leaf,
        Instr::Get { place, .. } => place_node(c, p.fun, place) == leaf,
        Instr::Store { a, .. } => points_to_leaf(c, points, p.fun, *a, leaf),
        Instr::Load { a, .. } => points_to_leaf(c, points, p.fun, *a, leaf),
        Instr::Call { fun, .. } => link_leaf(c, *fun) == leaf,
        Instr::Ret { read: Some(_), .. } => link_leaf(c, p.fun) == leaf,
        _ => false,
    }
}

// Whether a temporary may point to a leaf.
fn points_to_leaf(c: &Code, points: &Points, fun: u32, temp: u32, leaf: u32) -> bool
    requires { GoodForm c.now }
    ensures { result ≡ has (leaves_for c.now points.now.rows fun temp) leaf }
{
    has(nodes_for(points, Key::Temp { fun, temp }), leaf) && is_leaf_node(c, leaf)
}

/// The facts that reach a point, as a row of bits.
pub(crate) fn row_at<'a>(c: &Code, r: &'a Reach, p: Point) -> &'a Bits
    requires form { GoodForm c.now }
    requires point { IsPoint c.now p }
    requires rows { length r.now.rows ≡ points_in_code c.now }
    ensures { result.now ≡ row_of c.now r.now p }
{
    &r.rows.as_slice()[point_number(c, p)]
}
