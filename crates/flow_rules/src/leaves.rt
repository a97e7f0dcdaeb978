ghost use Rattle.std.specs.Prelude.{◌≡◌, ◌<◌, ◌≤◌, ◌^◌, [], ◌∷◌, IfSome, length, map, slice_get, sum};
ghost use Rattle.dfi_base.specs.Limits.{node_limit};
ghost use Rattle.tac_ir.specs.Counts.{shape_nodes, shapes_used, vars_in_funs};
ghost use Rattle.tac_ir.specs.GoodForm.{GoodForm};
ghost use Rattle.tac_ir.specs.Layout.{shapes_of_globals};
ghost use Rattle.tac_ir.specs.Nodes.{is_leaf_node, node_shapes};
ghost use Rattle.flow_rules.specs.tools.Spots.{IsSpotAmong, nodes_of};

use crate::nodes::shape_nodes;
use tac_ir::{Code, Shape};

/// Where a node stands among the nodes of some shapes: so far within those of one of them, or so far behind them all.
#[derive(Clone, Copy)]
pub(crate) enum Spot {
    Within { shape: u32, node: u32 },
    Behind { node: u32 },
}

/// Whether a node holds an int or a pointer.
pub(crate) fn is_leaf_node(c: &Code, node: u32) -> bool
    requires { GoodForm c.now }
    ensures { result ≡ is_leaf_node c.now node }
{
    match shape_of_node(c, node) {
        None => false,
        Some(shape) => match c.shapes.get(shape as usize) {
            Some(Shape::Int) => true,
            Some(Shape::Ptr) => true,
            _ => false,
        },
    }
}

/// The shape of a node, if there is such a node.
pub fn shape_of_node(c: &Code, node: u32) -> Option<u32>
    requires { GoodForm c.now }
    ensures shape { result ≡ slice_get (node_shapes c.now) node }
    ensures few { IfSome result (λ s. shape_nodes c.now s ≤ node_limit) }
{
    match spot_of(c, node) {
        Spot::Within { shape, node } => shape_inside(c, shape, node),
        Spot::Behind { .. } => None,
    }
}

// Where a node stands among those of all shapes that the code uses.
fn spot_of(c: &Code, node: u32) -> Spot
    requires { GoodForm c.now }
    ensures { IsSpotAmong c.now (shapes_used c.now) node result }
{
    match spot_in_globals(c, node) {
        Spot::Behind { node } => match spot_in_funs(c, node) {
            Spot::Behind { node } => spot_in_sites(c, node),
            spot => spot,
        },
        spot => spot,
    }
}

fn spot_in_globals(c: &Code, node: u32) -> Spot
    requires { GoodForm c.now }
    ensures { IsSpotAmong c.now (shapes_of_globals c.now) node result }
{
    let mut left = node;
    for global in c.globals.as_slice() {
        match spot_in(c, global.shape, left) {
            Spot::Behind { node } => left = node,
            spot => return spot,
        }
    }
    Spot::Behind { node: left }
}

fn spot_in_funs(c: &Code, node: u32) -> Spot
    requires { GoodForm c.now }
    ensures { IsSpotAmong c.now (vars_in_funs c.now.funs) node result }
{
    let mut left = node;
    for fun in c.funs.as_slice() {
        match spot_among(c, fun.vars.as_slice(), left) {
            Spot::Behind { node } => left = node,
            spot => return spot,
        }
    }
    Spot::Behind { node: left }
}

fn spot_in_sites(c: &Code, node: u32) -> Spot
    requires { GoodForm c.now }
    ensures { IsSpotAmong c.now (map (λ s. s.shape) c.now.sites) node result }
{
    let mut left = node;
    for site in c.sites.as_slice() {
        match spot_in(c, site.shape, left) {
            Spot::Behind { node } => left = node,
            spot => return spot,
        }
    }
    Spot::Behind { node: left }
}

fn spot_among(c: &Code, shapes: &[u32], node: u32) -> Spot
    requires form { GoodForm c.now }
    requires fits { sum (map (shape_nodes c.now) shapes.now) < 2 ^ 32 }
    ensures { IsSpotAmong c.now shapes.now node result }
{
    let mut left = node;
    for shape in shapes {
        match spot_in(c, *shape, left) {
            Spot::Behind { node } => left = node,
            spot => return spot,
        }
    }
    Spot::Behind { node: left }
}

fn spot_in(c: &Code, shape: u32, node: u32) -> Spot
    requires form { GoodForm c.now }
    requires fits { shape_nodes c.now shape < 2 ^ 32 }
    ensures { IsSpotAmong c.now (shape ∷ []) node result }
{
    let nodes = shape_nodes(c, shape);
    if node < nodes {
        Spot::Within { shape, node }
    } else {
        Spot::Behind { node: node - nodes }
    }
}

// The shape of a node of a shape.
fn shape_inside(c: &Code, shape: u32, node: u32) -> Option<u32>
    requires form { GoodForm c.now }
    requires shape { shape < length c.now.shapes }
    requires fits { shape_nodes c.now shape ≤ node_limit }
    ensures shape { result ≡ slice_get (nodes_of c.now shape) node }
    ensures few { IfSome result (λ s. shape_nodes c.now s ≤ node_limit) }
{
    let mut here = shape;
    let mut left = node;
    while left > 0 {
        match c.shapes.get(here as usize) {
            Some(Shape::Array { item, .. }) => {
                here = *item;
                left -= 1;
            }
            Some(Shape::Struct { parts }) => match spot_among(c, parts.as_slice(), left - 1) {
                Spot::Within { shape, node } => {
                    here = shape;
                    left = node;
                }
                Spot::Behind { .. } => return None,
            },
            Some(Shape::Int) => return None,
            Some(Shape::Ptr) => return None,
            None => return None,
        }
    }
    Some(here)
}
