ghost use Rattle.std.specs.Prelude.{◌≡◌, ◌+◌, ◌<◌, ◌≤◌, ◌^◌, All, length, map, sum, take, slice_get, slice_index};
ghost use Rattle.tac_ir.specs.Counts.{shape_nodes, vars_in_funs};
ghost use Rattle.tac_ir.specs.GoodForm.{GoodForm};
ghost use Rattle.tac_ir.specs.Layout.{parts_of, vars_of, shapes_of_globals};
ghost use Rattle.tac_ir.specs.Nodes.{global_node, var_node, site_node, link_leaf, part_node, nodes_along, place_node};
ghost use Rattle.tac_ir.specs.Places.{IsPlace};
ghost use Rattle.flow_rules.specs.tools.EndsSomewhere.{EndsSomewhere};

use tac_ir::{Code, Place, Shape};

/// The node of a place of function `fun`.
pub fn place_node(c: &Code, fun: u32, place: &Place) -> u32
    requires form { GoodForm c.now }
    requires place { IsPlace c.now fun place.now }
    ensures { result ≡ place_node c.now fun place.now }
{
    match place {
        Place::Global { var, path } => {
            let shape = c.globals.as_slice()[*var as usize].shape;
            global_node(c, *var) + nodes_along(c, shape, path.as_slice())
        }
        Place::Local { var, path } => {
            let vars = c.funs.as_slice()[fun as usize].vars.as_slice();
            var_node(c, fun, *var) + nodes_along(c, vars[*var as usize], path.as_slice())
        }
    }
}

/// The node of a global.
pub(crate) fn global_node(c: &Code, var: u32) -> u32
    requires form { GoodForm c.now }
    requires var { var ≤ length c.now.globals }
    ensures { result ≡ global_node c.now var }
{
    let mut node = 0;
    for global in &c.globals.as_slice()[..var as usize] {
        node += shape_nodes(c, global.shape);
    }
    node
}

// The node of a variable of a function.
fn var_node(c: &Code, fun: u32, var: u32) -> u32
    requires form { GoodForm c.now }
    requires fun { fun < length c.now.funs }
    requires var { var < length (vars_of c.now fun) }
    ensures { result ≡ var_node c.now fun var }
{
    let vars = c.funs.as_slice()[fun as usize].vars.as_slice();
    fun_node(c, fun) + nodes_of_all(c, &vars[..var as usize])
}

// Where the nodes of the variables of a function begin.
fn fun_node(c: &Code, fun: u32) -> u32
    requires form { GoodForm c.now }
    requires fun { fun ≤ length c.now.funs }
    ensures { result ≡ var_node c.now fun 0 }
{
    let mut node = global_node(c, c.globals.len() as u32);
    for before in &c.funs.as_slice()[..fun as usize] {
        node += nodes_of_all(c, before.vars.as_slice());
    }
    node
}

/// The first node of a heap site.
pub fn site_node(c: &Code, site: u32) -> u32
    requires form { GoodForm c.now }
    requires site { site ≤ length c.now.sites }
    ensures { result ≡ site_node c.now site }
{
    let mut node = fun_node(c, c.funs.len() as u32);
    for before in &c.sites.as_slice()[..site as usize] {
        node += shape_nodes(c, before.shape);
    }
    node
}

/// The return link of a function, as a leaf.
pub(crate) fn link_leaf(c: &Code, fun: u32) -> u32
    requires form { GoodForm c.now }
    requires fun { fun < length c.now.funs }
    ensures { result ≡ link_leaf c.now fun }
{
    site_node(c, c.sites.len() as u32) + fun
}

/// How far the node of a part of a struct stands behind that of the struct.
pub fn part_node(c: &Code, shape: u32, k: u32) -> u32
    requires form { GoodForm c.now }
    requires fits { shape_nodes c.now shape < 2 ^ 32 }
    requires part { k < length (parts_of c.now shape) }
    ensures { result ≡ part_node c.now shape k }
{
    1 + nodes_of_all(c, &parts_of(c, shape)[..k as usize])
}

// How far the node at the end of a path stands behind that of a shape.
fn nodes_along(c: &Code, shape: u32, path: &[u32]) -> u32
    requires form { GoodForm c.now }
    requires path { EndsSomewhere c.now shape path.now }
    requires fits { shape_nodes c.now shape < 2 ^ 32 }
    ensures { result ≡ nodes_along c.now shape path.now }
{
    let mut node = 0;
    let mut here = shape;
    for k in path {
        let parts = parts_of(c, here);
        node += 1 + nodes_of_all(c, &parts[..*k as usize]);
        here = parts[*k as usize];
    }
    node
}

// The parts of a struct.
fn parts_of(c: &Code, shape: u32) -> &[u32]
    ensures { result.now ≡ parts_of c.now shape }
{
    match c.shapes.get(shape as usize) {
        Some(Shape::Struct { parts }) => parts.as_slice(),
        _ => &[],
    }
}

// The nodes of all these shapes.
#[tactic(auto, using(crate::proofs::ShapeNodes::nodes_with, crate::proofs::ShapeNodes::nodes_more))]
fn nodes_of_all(c: &Code, shapes: &[u32]) -> u32
    requires form { GoodForm c.now }
    requires fits { sum (map (shape_nodes c.now) shapes.now) < 2 ^ 32 }
    ensures { result ≡ sum (map (shape_nodes c.now) shapes.now) }
{
    let mut nodes = 0;
    for shape in shapes {
        nodes += shape_nodes(c, *shape);
    }
    nodes
}

/// How many nodes a shape has; it names earlier ones alone.
pub(crate) fn shape_nodes(c: &Code, shape: u32) -> u32
    requires form { GoodForm c.now }
    requires fits { shape_nodes c.now shape < 2 ^ 32 }
    ensures { result ≡ shape_nodes c.now shape }
{
    match c.shapes.get(shape as usize) {
        None => 0,
        Some(Shape::Int) => 1,
        Some(Shape::Ptr) => 1,
        Some(Shape::Array { item, .. }) => 1 + shape_nodes(c, *item),
        Some(Shape::Struct { parts }) => {
            let mut nodes = 1;
            for part in parts.as_slice() {
                nodes += shape_nodes(c, *part);
            }
            nodes
        }
    }
}
