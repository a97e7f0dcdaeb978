ghost use Rattle.std.specs.Prelude.{◌≡◌, ◌++◌, ◌<◌, ◌≤◌, None, All, OnOk, length};
ghost use Rattle.least_rows.specs.declared.rules.Rule.{Rule as ARule};
ghost use Rattle.tac_ir.specs.declared.code.Instr.{Instr as AnInstr};
ghost use Rattle.tac_ir.specs.Counts.{temps_of};
ghost use Rattle.tac_ir.specs.Layout.{parts_of};
ghost use Rattle.tac_ir.specs.GoodForm.{GoodForm};
ghost use Rattle.flow_rules.specs.PointNumber.{point_at};
ghost use Rattle.points_to.specs.Systems.{AreMasks, arg_rules, has_node, leaf_rule, own_rule, rules_of};
ghost use Rattle.points_to.specs.tools.Here.{IsHere};
ghost use Rattle.points_to.specs.tools.RowMaps.{IsRowMapOf};

use crate::row_map::RowMap;
use dfi_base::{Bits, Memory};
use flow_rules::{part_node, place_node, site_node};
use least_rows::Rule;
use sqlite_items::Items;
use tac_ir::{Code, Instr};

/// Adds the rules of an instruction of a function.
pub fn push_rules(
    c: &Code,
    map: &RowMap,
    masks: &[Bits],
    fun: u32,
    instr: &Instr,
    rules: &mut Items<Rule>,
) -> Result<(), Memory>
    requires form { GoodForm c.now }
    requires map { IsRowMapOf c.now map.now }
    requires masks { AreMasks c.now masks.now }
    requires here { IsHere c.now (point_at fun 0) instr.now }
    ensures { OnOk result (rules.new ≡ rules.old ++ rules_of c.now fun instr.now) }
{
    if let Instr::Load { a, .. } | Instr::Store { a, .. } = instr {
        rules.push(leaf_rule(c, map, fun, *a))?;
    }
    if let Some(rule) = own_rule(c, map, masks, fun, instr) {
        rules.push(rule)?;
    }
    if let Instr::Call {
        fun: callee,
        args,
        ..
    } = instr
    {
        push_args(c, map, fun, *callee, args.as_slice(), rules)?;
    }
    Ok(())
}

// The leaves to which a temporary may point go into a row of their own.
fn leaf_rule(c: &Code, map: &RowMap, fun: u32, pointer: u32) -> Rule
    requires form { GoodForm c.now }
    requires map { IsRowMapOf c.now map.now }
    requires fun { fun < length c.now.funs }
    requires pointer { pointer < temps_of c.now fun }
    ensures { result ≡ leaf_rule c.now fun pointer }
{
    Rule::Flow {
        from: map.temp(c, fun, pointer),
        mask: Some(c.shapes.len() as u32),
        to: map.leaves(c, fun, pointer),
    }
}

// The rule of an instruction beside those of leaves and arguments.
fn own_rule(c: &Code, map: &RowMap, masks: &[Bits], fun: u32, instr: &Instr) -> Option<Rule>
    requires form { GoodForm c.now }
    requires map { IsRowMapOf c.now map.now }
    requires masks { AreMasks c.now masks.now }
    requires here { IsHere c.now (point_at fun 0) instr.now }
    ensures { result ≡ own_rule c.now fun instr.now }
{
    match instr {
        Instr::Addr { to, place } => Some(Rule::Has {
            row: map.temp(c, fun, *to),
            member: place_node(c, fun, place),
        }),
        Instr::New { to, site, .. } => Some(Rule::Has {
            row: map.temp(c, fun, *to),
            member: site_node(c, *site),
        }),
        Instr::Field { to, a, shape, k } => { field_rule(c, map, masks, fun, *to, *a, *shape, *k) },
        Instr::Decay { to, a, shape } => Some(Rule::Shift {
            from: map.temp(c, fun, *a),
            mask: *shape,
            by: 1,
            to: map.temp(c, fun, *to),
        }),
        Instr::Index { to, a, .. } => Some(flow(map.temp(c, fun, *a), map.temp(c, fun, *to))),
        Instr::Call {
            to,
            fun: callee,
            ..
        } => { Some(flow(map.returned(c, *callee), map.temp(c, fun, *to))) }
        Instr::Ret { a, .. } => Some(flow(map.temp(c, fun, *a), map.returned(c, fun))),
        Instr::Get { to, place, .. } => {
            Some(flow(place_node(c, fun, place), map.temp(c, fun, *to)))
        }
        Instr::Set { place, a, .. } => {
            Some(flow(map.temp(c, fun, *a), place_node(c, fun, place)))
        }
        Instr::Load { to, a, .. } => Some(Rule::Load {
            sources: map.leaves(c, fun, *a),
            to: map.temp(c, fun, *to),
        }),
        Instr::Store { a, b, .. } => Some(Rule::Store {
            targets: map.leaves(c, fun, *a),
            from: map.temp(c, fun, *b),
        }),
        _ => None,
    }
}

// That of a field: there is none where no node has the shape of the struct.
fn field_rule(
    c: &Code,
    map: &RowMap,
    masks: &[Bits],
    fun: u32,
    to: u32,
    a: u32,
    shape: u32,
    k: u32,
) -> Option<Rule>
    requires form { GoodForm c.now }
    requires map { IsRowMapOf c.now map.now }
    requires masks { AreMasks c.now masks.now }
    requires fun { fun < length c.now.funs }
    requires to { to < temps_of c.now fun }
    requires a { a < temps_of c.now fun }
    requires part { k < length (parts_of c.now shape) }
    ensures { result ≡ own_rule c.now fun (AnInstr.Field to a shape k) }
{
    if !has_node(c, masks, shape) {
        return None;
    }
    Some(Rule::Shift {
        from: map.temp(c, fun, a),
        mask: shape,
        by: part_node(c, shape, k),
        to: map.temp(c, fun, to),
    })
}

// Whether some node has a shape.
fn has_node(c: &Code, masks: &[Bits], shape: u32) -> bool
    requires masks { AreMasks c.now masks.now }
    requires shape { shape < length c.now.shapes }
    ensures { result ≡ has_node c.now shape }
{
    match masks[shape as usize].next_member(0) {
        Some(_) => true,
        None => false,
    }
}

fn flow(from: u32, to: u32) -> Rule
    ensures { result ≡ ARule.Flow from None to }
{
    Rule::Flow {
        from,
        mask: None,
        to,
    }
}

// Arguments flow into the first temporaries of the function that is called.
fn push_args(
    c: &Code,
    map: &RowMap,
    fun: u32,
    callee: u32,
    args: &[u32],
    rules: &mut Items<Rule>,
) -> Result<(), Memory>
    requires form { GoodForm c.now }
    requires map { IsRowMapOf c.now map.now }
    requires fun { fun < length c.now.funs }
    requires callee { callee < length c.now.funs }
    requires args { All (λ x. x < temps_of c.now fun) args.now }
    requires few { length args.now ≤ temps_of c.now callee }
    ensures { OnOk result (rules.new ≡ rules.old ++ arg_rules c.now fun callee 0 args.now) }
{
    for (i, arg) in args.iter().enumerate() {
        rules.push(flow(map.temp(c, fun, *arg), map.temp(c, callee, i as u32)))?;
    }
    Ok(())
}
