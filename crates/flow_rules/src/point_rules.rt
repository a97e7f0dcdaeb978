ghost use Rattle.std.specs.Prelude.{◌≡◌, ◌↔◌, ℕ, true, All, IsTrue, length};
ghost use Rattle.tac_ir.specs.Answers.{has};
ghost use Rattle.tac_ir.specs.GoodForm.{GoodForm, IsGoodCall, NamesExist};
ghost use Rattle.tac_ir.specs.GoodModule.{IsNode, IsPoint};
ghost use Rattle.tac_ir.specs.Layout.{instr_at, lines_of};
ghost use Rattle.tac_ir.specs.declared.module.Key.TheVariants.{Temp};
ghost use Rattle.flow_rules.specs.PointsClosed.{IsWithin, PointsClosedAt};
ghost use Rattle.flow_rules.specs.ReachRows.{ArePointsOf};
ghost use Rattle.flow_rules.specs.Tables.{points_by};
ghost use Rattle.flow_rules.specs.Touches.{touches};
ghost use Rattle.flow_rules.specs.tools.PointRules.{ArgsHold, CallsHold, Direct, ReturnHolds, ReturnsHold, Through, ThroughAll, pointer_of};

use crate::leaves::{is_leaf_node, shape_of_node};
use crate::nodes::{part_node, place_node, site_node};
use crate::points::{instr_at, lines_of};
use crate::reads::{has, is_within};
use crate::rows::nodes_for;
use dfi_base::Point;
use tac_ir::{Code, Instr, Key, Points};

/// Whether the rules of points hold at a point.
pub(crate) fn points_hold(c: &Code, points: &Points, p: Point) -> bool
    requires form { GoodForm c.now }
    requires points { ArePointsOf c.now points.now.rows }
    requires point { IsPoint c.now p }
    ensures { IsTrue result ↔ PointsClosedAt c.now (touches c.now points.now.rows) (points_by points.now.rows) p }
{
    direct_holds(c, points, p) && through_holds(c, points, p)
}

// The rules that name what is to be in a row.
fn direct_holds(c: &Code, points: &Points, p: Point) -> bool
    requires form { GoodForm c.now }
    requires point { IsPoint c.now p }
    ensures { IsTrue result ↔ Direct c.now (points_by points.now.rows) p.fun (instr_at c.now p) }
{
    match instr_at(c, p) {
        Instr::Addr { to, place } => points_to(
            points,
            temp_of(p, *to),
            place_node(c, p.fun, place),
        ),
        Instr::Index { to, a, .. } => goes(points, temp_of(p, *a), temp_of(p, *to)),
        Instr::New { to, site, .. } => points_to(points, temp_of(p, *to), site_node(c, *site)),
        Instr::Call { fun, args, .. } => args_hold(c, points, p.fun, *fun, args.as_slice()),
        Instr::Ret { a, .. } => returns_hold(c, points, p.fun, temp_of(p, *a)),
        Instr::Get { to, place, .. } => {
            goes(
                points,
                Key::Node(place_node(c, p.fun, place)),
                temp_of(p, *to),
            )
        }
        Instr::Set { place, a, .. } => {
            goes(
                points,
                temp_of(p, *a),
                Key::Node(place_node(c, p.fun, place)),
            )
        }
        _ => true,
    }
}

// A temporary of the function of a point.
fn temp_of(p: Point, temp: u32) -> Key
    ensures { result ≡ Temp p.fun temp }
{
    Key::Temp { fun: p.fun, temp }
}

fn points_to(points: &Points, key: Key, node: u32) -> bool
    ensures { result ≡ points_by points.now.rows key node }
{
    has(nodes_for(points, key), node)
}

// Whether all to which one points, the other points to as well.
fn goes(points: &Points, from: Key, to: Key) -> bool
    ensures { IsTrue result ↔ IsWithin (points_by points.now.rows) from to }
{
    is_within(nodes_for(points, from), nodes_for(points, to))
}

// Whether arguments are in the parameters.
fn args_hold(c: &Code, points: &Points, fun: u32, callee: u32, args: &[u32]) -> bool
    requires { IsGoodCall c.now callee args.now }
    ensures { IsTrue result ↔ ArgsHold (points_by points.now.rows) fun callee args.now (length args.now) }
{
    for temp in 0..c.funs.as_slice()[callee as usize].params {
        let from = Key::Temp {
            fun,
            temp: args[temp as usize],
        };
        if !goes(points, from, Key::Temp { fun: callee, temp }) {
            return false;
        }
    }
    true
}

// Whether what a function returns is where each call of it takes it.
fn returns_hold(c: &Code, points: &Points, callee: u32, from: Key) -> bool
    requires { GoodForm c.now }
    ensures { IsTrue result ↔ ReturnsHold c.now (points_by points.now.rows) callee from (length c.now.funs) }
{
    for fun in 0..c.funs.len() as u32 {
        if !calls_hold(c, points, fun, callee, from) {
            return false;
        }
    }
    true
}

fn calls_hold(c: &Code, points: &Points, fun: u32, callee: u32, from: Key) -> bool
    requires { GoodForm c.now }
    ensures { IsTrue result ↔ CallsHold c.now (points_by points.now.rows) fun callee from (length (lines_of c.now fun)) }
{
    for at in 0..lines_of(c, fun).len() as u32 {
        if !call_holds(points, instr_at(c, Point { fun, at }), fun, callee, from) {
            return false;
        }
    }
    true
}

fn call_holds(points: &Points, instr: &Instr, fun: u32, callee: u32, from: Key) -> bool
    ensures { IsTrue result ↔ ReturnHolds (points_by points.now.rows) fun callee from instr.now }
{
    match instr {
        Instr::Call { to, fun: g, .. } => *g != callee
            || goes(points, from, Key::Temp { fun, temp: *to }),
        _ => true,
    }
}

// The rules that go through each node to which a pointer may point.
fn through_holds(c: &Code, points: &Points, p: Point) -> bool
    requires form { GoodForm c.now }
    requires points { ArePointsOf c.now points.now.rows }
    requires point { IsPoint c.now p }
    ensures { IsTrue result ↔ ThroughAll c.now points.now.rows p.fun (instr_at c.now p) }
{
    let instr = instr_at(c, p);
    match pointer_of(instr) {
        None => true,
        Some(temp) => {
            let nodes = nodes_for(points, Key::Temp { fun: p.fun, temp });
            all_through(c, points, p.fun, instr, nodes)
        }
    }
}

fn pointer_of(instr: &Instr) -> Option<u32>
    ensures { result ≡ pointer_of instr.now }
{
    match instr {
        Instr::Field { a, .. } => Some(*a),
        Instr::Decay { a, .. } => Some(*a),
        Instr::Load { a, .. } => Some(*a),
        Instr::Store { a, .. } => Some(*a),
        _ => None,
    }
}

fn all_through(c: &Code, points: &Points, fun: u32, instr: &Instr, nodes: &[u32]) -> bool
    requires form { GoodForm c.now }
    requires names { NamesExist c.now fun instr.now }
    requires nodes { All (IsNode c.now) nodes.now }
    ensures { IsTrue result ↔ ((n : ℕ) → has nodes.now n ≡ true → Through c.now (points_by points.now.rows) fun instr.now n) }
{
    for node in nodes {
        if !through(c, points, fun, instr, *node) {
            return false;
        }
    }
    true
}

fn through(c: &Code, points: &Points, fun: u32, instr: &Instr, node: u32) -> bool
    requires form { GoodForm c.now }
    requires names { NamesExist c.now fun instr.now }
    requires node { IsNode c.now node }
    ensures { IsTrue result ↔ Through c.now (points_by points.now.rows) fun instr.now node }
{
    match instr {
        Instr::Field { to, shape, k, .. } => shape_of_node(c, node) != Some(*shape)
            || points_to(
                points,
                Key::Temp { fun, temp: *to },
                node + part_node(c, *shape, *k),
            ),
        Instr::Decay { to, shape, .. } => shape_of_node(c, node) != Some(*shape)
            || points_to(points, Key::Temp { fun, temp: *to }, node + 1),
        Instr::Load { to, .. } => !is_leaf_node(c, node)
            || goes(points, Key::Node(node), Key::Temp { fun, temp: *to }),
        Instr::Store { b, .. } => !is_leaf_node(c, node)
            || goes(points, Key::Temp { fun, temp: *b }, Key::Node(node)),
        _ => true,
    }
}
