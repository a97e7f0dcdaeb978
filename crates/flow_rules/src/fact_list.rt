ghost use Rattle.std.specs.Prelude.{◌≡◌, ◌+◌, ◌++◌, ◌<◌, ◌≤◌, OnOk, filter, length};
ghost use Rattle.std.specs.List.{flat_map};
ghost use Rattle.dfi_base.specs.Limits.{fact_limit};
ghost use Rattle.tac_ir.specs.Accesses.{accesses_in, accesses_in_funs, facts_by, facts_of, leaves_defined, starting_accesses};
ghost use Rattle.tac_ir.specs.GoodForm.{GoodForm};
ghost use Rattle.tac_ir.specs.GoodModule.{IsPoint};
ghost use Rattle.tac_ir.specs.Layout.{instr_at, lines_of};
ghost use Rattle.tac_ir.specs.Nodes.{is_leaf_node, leaves_of_global};
ghost use Rattle.tac_ir.specs.Numbers.{new_def};
ghost use Rattle.flow_rules.specs.IsFactsOf.{IsFactsOf};
ghost use Rattle.flow_rules.specs.ReachRows.{ArePointsOf};
ghost use Rattle.flow_rules.specs.tools.Added.{IsAdded, IsWithinLimit, facts_of_instr, facts_with};

use crate::leaves::is_leaf_node;
use crate::nodes::{global_node, link_leaf, place_node, shape_nodes};
use crate::points::{instr_at, lines_of};
use crate::rows::nodes_for;
use crate::rule::FactsFault;
use dfi_base::limits::FACT_LIMIT;
use dfi_base::{Memory, Point};
use sqlite_items::Items;
use std::alloc::Global;
use tac_ir::{Code, Fact, Facts, Instr, Key, Points};

/// The facts of code and of rows of points, which may be at most 32,768.
pub fn facts(alloc: Global, c: &Code, p: &Points) -> Result<Facts, FactsFault>
    requires form { GoodForm c.now }
    requires points { ArePointsOf c.now p.now.rows }
    ensures { IsFactsOf (facts_of c.now p.now.rows) result }
{
    let mut pairs = Items::new(alloc);
    push_starts(c, &mut pairs)?;
    push_funs(c, p, &mut pairs)?;
    Ok(Facts { pairs })
}

// Those of all starting definitions.
fn push_starts(c: &Code, pairs: &mut Items<Fact>) -> Result<(), FactsFault>
    requires form { GoodForm c.now }
    requires few { length pairs.old ≤ fact_limit }
    ensures { IsAdded pairs.old (flat_map facts_by (starting_accesses c.now)) pairs.new result }
{
    for var in 0..c.globals.len() as u32 {
        push_global(c, var, pairs)?;
        keep_within(pairs)?;
    }
    Ok(())
}

// Those of all definitions of instructions.
fn push_funs(c: &Code, p: &Points, pairs: &mut Items<Fact>) -> Result<(), FactsFault>
    requires form { GoodForm c.now }
    requires few { length pairs.old ≤ fact_limit }
    ensures { IsAdded pairs.old (flat_map facts_by (accesses_in_funs new_def (leaves_defined c.now p.now.rows) 0 c.now.funs)) pairs.new result }
{
    for fun in 0..c.funs.len() as u32 {
        push_fun(c, p, fun, pairs)?;
    }
    Ok(())
}

fn push_fun(c: &Code, p: &Points, fun: u32, pairs: &mut Items<Fact>) -> Result<(), FactsFault>
    requires form { GoodForm c.now }
    requires few { length pairs.old ≤ fact_limit }
    ensures { IsAdded pairs.old (flat_map facts_by (accesses_in new_def (leaves_defined c.now p.now.rows) fun (lines_of c.now fun))) pairs.new result }
{
    for at in 0..lines_of(c, fun).len() as u32 {
        push_instr(c, p, Point { fun, at }, pairs)?;
        keep_within(pairs)?;
    }
    Ok(())
}

fn keep_within(pairs: &Items<Fact>) -> Result<(), FactsFault>
    ensures { IsWithinLimit pairs.now result }
{
    if pairs.len() > FACT_LIMIT as usize {
        return Err(FactsFault::Wide {
            facts: FACT_LIMIT + 1,
        });
    }
    Ok(())
}

// Those of the starting definition of a global.
fn push_global(c: &Code, var: u32, pairs: &mut Items<Fact>) -> Result<(), Memory>
    requires form { GoodForm c.now }
    requires var { var < length c.now.globals }
    ensures { OnOk result (pairs.new ≡ pairs.old ++ facts_with (var + 1) (leaves_of_global c.now var)) }
{
    let first = global_node(c, var);
    let end = first + shape_nodes(c, c.globals.as_slice()[var as usize].shape);
    for leaf in first..end {
        if is_leaf_node(c, leaf) {
            pairs.push(Fact { def: var + 1, leaf })?;
        }
    }
    Ok(())
}

// Those of the definition of an instruction.
fn push_instr(c: &Code, points: &Points, p: Point, pairs: &mut Items<Fact>) -> Result<(), Memory>
    requires form { GoodForm c.now }
    requires point { IsPoint c.now p }
    ensures { OnOk result (pairs.new ≡ pairs.old ++ facts_of_instr c.now points.now.rows p.fun (instr_at c.now p)) }
{
    match instr_at(c, p) {
        Instr::Set { place, def, .. } => {
            let leaf = place_node(c, p.fun, place);
            pairs.push(Fact { def: *def, leaf })?;
        }
        Instr::Store { a, def, .. } => {
            let key = Key::Temp {
                fun: p.fun,
                temp: *a,
            };
            push_leaves(c, nodes_for(points, key), *def, pairs)?;
        }
        Instr::Call { fun, def, .. } => {
            let leaf = link_leaf(c, *fun);
            pairs.push(Fact { def: *def, leaf })?;
        }
        _ => {}
    }
    Ok(())
}

// A fact for each leaf among these nodes.
fn push_leaves(c: &Code, nodes: &[u32], def: u32, pairs: &mut Items<Fact>) -> Result<(), Memory>
    requires { GoodForm c.now }
    ensures { OnOk result (pairs.new ≡ pairs.old ++ facts_with def (filter (is_leaf_node c.now) nodes.now)) }
{
    for node in nodes {
        if is_leaf_node(c, *node) {
            pairs.push(Fact { def, leaf: *node })?;
        }
    }
    Ok(())
}
