//! Limits on definitions and nodes.

ghost use Rattle.std.specs.Prelude.{◌≡◌, ◌++◌, ◌<◌, length, map, sum, slice_index, IfOk, OnOk};
ghost use Rattle.tac_ir.specs.Counts.{nodes_by};
ghost use Rattle.tac_ir.specs.Numbers.{new_def, numbers_in};
ghost use Rattle.tac_lower.specs.tools.Counting.{AreNodes, capped, capped_share, is_def};
ghost use Rattle.tac_lower.specs.Limits as spec;

use crate::fault::{LowerFault, LowerWhat};
use dfi_base::limits::{DEFINITION_LIMIT, NODE_LIMIT};
use dfi_base::{Line, Memory};
use std::alloc;
use std::marker::Model;
use tac_ir::{Code, Fun, Global, Instr, Lined, Shape, Site};

/// So many, at a line. The greatest number stands for all above it too.
#[derive(Clone, Copy)]
pub struct Share {
    count: u32,
    line: u32,
}

impl Model for Share {
    ghost use Rattle.tac_lower.specs.Limits.{Share};

    ghost Value = { Share };

    ghost view = { λ s. record { count = s.count; line = s.line } };

    ghost inverse = { λ s. record { count = s.count; line = s.line } };
}

impl Share {
    fn new(count: u32, line: u32) -> Share
        ensures { result ≡ record { count = count; line = line } }
    {
        Share { count, line }
    }

    fn count(&self) -> u32
        ensures { result ≡ self.now.count }
    {
        self.count
    }

    fn line(&self) -> u32
        ensures { result ≡ self.now.line }
    {
        self.line
    }
}

/// The line of the share with which the count passes the limit.
fn passing(limit: u32, shares: &[Share]) -> Option<u32>
    ensures { result ≡ spec.passing limit shares.now }
{
    let mut room = limit;
    for share in shares {
        let count = share.count();
        if count > room {
            return Some(share.line());
        }
        room -= count;
    }
    None
}

/// The nodes of a shape that has been counted.
fn nodes_at(nodes: &[u32], shape: u32) -> u32
    ensures { result ≡ slice_index nodes.now shape }
{
    match nodes.get(shape as usize) {
        Some(count) => *count,
        None => 0,
    }
}

fn total(nodes: &[u32], shapes: &[u32]) -> u32
    ensures { result ≡ capped (sum (map (slice_index nodes.now) shapes.now)) }
{
    let mut total: u32 = 0;
    for shape in shapes {
        total = total.saturating_add(nodes_at(nodes, *shape));
    }
    total
}

/// The nodes of a shape, by those of its parts.
fn nodes_of(nodes: &[u32], shape: &Shape) -> u32
    ensures { result ≡ capped (nodes_by (slice_index nodes.now) shape.now) }
{
    match shape {
        Shape::Int | Shape::Ptr => 1,
        Shape::Array { item, .. } => nodes_at(nodes, *item).saturating_add(1),
        Shape::Struct { parts } => total(nodes, parts.as_slice()).saturating_add(1),
    }
}

/// The nodes of each shape.
fn count_nodes(alloc: alloc::Global, shapes: &[Shape]) -> Result<Vec<u32>, Memory>
    ensures { IfOk result (λ nodes. AreNodes shapes.now nodes.items) }
{
    let mut nodes = Vec::new(alloc);
    for shape in shapes {
        let count = nodes_of(nodes.as_slice(), shape);
        nodes.push(count)?;
    }
    Ok(nodes)
}

fn is_def(instr: &Instr) -> bool
    ensures { result ≡ is_def instr.now }
{
    matches!(
        instr,
        Instr::Set { .. } | Instr::Store { .. } | Instr::Call { .. }
    )
}

/// How many definitions some lines make.
fn defs_in(lines: &[Lined]) -> u32
    ensures { result ≡ capped (length (numbers_in new_def lines.now)) }
{
    let mut count: u32 = 0;
    for line in lines {
        if is_def(&line.instr) {
            count = count.saturating_add(1);
        }
    }
    count
}

fn add_starting(shares: &mut Vec<Share>, globals: &[Global]) -> Result<(), Memory>
    ensures { OnOk result (shares.new.items ≡ shares.old.items ++ map (λ g. capped_share (spec.starting_in g)) globals.now) }
{
    for global in globals {
        shares.push(Share::new(1, global.line))?;
    }
    Ok(())
}

fn add_defs(shares: &mut Vec<Share>, funs: &[Fun]) -> Result<(), Memory>
    ensures { OnOk result (shares.new.items ≡ shares.old.items ++ map (λ f. capped_share (spec.defs_in f)) funs.now) }
{
    for fun in funs {
        shares.push(Share::new(defs_in(fun.code.as_slice()), fun.line))?;
    }
    Ok(())
}

fn add_global_nodes(
    shares: &mut Vec<Share>,
    nodes: &[u32],
    globals: &[Global],
) -> Result<(), Memory>
    ensures { OnOk result (shares.new.items ≡ shares.old.items ++ map (λ g. record { count = slice_index nodes.now g.shape; line = g.line }) globals.now) }
{
    for global in globals {
        shares.push(Share::new(nodes_at(nodes, global.shape), global.line))?;
    }
    Ok(())
}

fn add_fun_nodes(shares: &mut Vec<Share>, nodes: &[u32], funs: &[Fun]) -> Result<(), Memory>
    ensures { OnOk result (shares.new.items ≡ shares.old.items ++ map (λ f. record { count = capped (sum (map (slice_index nodes.now) f.vars)); line = f.line }) funs.now) }
{
    for fun in funs {
        shares.push(Share::new(total(nodes, fun.vars.as_slice()), fun.line))?;
    }
    Ok(())
}

fn add_site_nodes(shares: &mut Vec<Share>, nodes: &[u32], sites: &[Site]) -> Result<(), Memory>
    ensures { OnOk result (shares.new.items ≡ shares.old.items ++ map (λ s. record { count = slice_index nodes.now s.shape; line = s.line }) sites.now) }
{
    for site in sites {
        shares.push(Share::new(nodes_at(nodes, site.shape), site.line))?;
    }
    Ok(())
}

/// The line with which the definitions pass their limit.
fn defs_passing(alloc: alloc::Global, code: &Code) -> Result<Option<u32>, Memory>
    ensures { IfOk result (λ line. line ≡ spec.passing spec.definition_limit (spec.def_shares code.now)) }
{
    let mut shares = Vec::new(alloc);
    add_starting(&mut shares, code.globals.as_slice())?;
    add_defs(&mut shares, code.funs.as_slice())?;
    Ok(passing(DEFINITION_LIMIT, shares.as_slice()))
}

/// The line with which the nodes pass their limit.
fn nodes_passing(alloc: alloc::Global, code: &Code) -> Result<Option<u32>, Memory>
    ensures { IfOk result (λ line. line ≡ spec.passing spec.node_limit (spec.node_shares code.now)) }
{
    let nodes = count_nodes(alloc, code.shapes.as_slice())?;
    let mut shares = Vec::new(alloc);
    add_global_nodes(&mut shares, nodes.as_slice(), code.globals.as_slice())?;
    add_fun_nodes(&mut shares, nodes.as_slice(), code.funs.as_slice())?;
    add_site_nodes(&mut shares, nodes.as_slice(), code.sites.as_slice())?;
    Ok(passing(NODE_LIMIT, shares.as_slice()))
}

fn big(what: LowerWhat, line: u32) -> LowerFault
    ensures { result ≡ LowerFault.Big what (record { 0 = line }) }
{
    LowerFault::Big {
        what,
        line: Line(line),
    }
}

/// The first limit that code passes, where its points pass none.
pub(crate) fn passed(alloc: alloc::Global, code: &Code) -> Result<Option<LowerFault>, Memory>
    requires { spec.passing spec.point_limit (spec.point_shares code.now) ≡ None }
    ensures { IfOk result (λ fault. fault ≡ spec.first_passed code.now) }
{
    if let Some(line) = defs_passing(alloc, code)? {
        return Ok(Some(big(LowerWhat::Defs, line)));
    }
    if let Some(line) = nodes_passing(alloc, code)? {
        return Ok(Some(big(LowerWhat::Nodes, line)));
    }
    Ok(None)
}
