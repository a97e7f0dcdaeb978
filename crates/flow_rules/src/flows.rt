ghost use Rattle.std.specs.Prelude.{◌≡◌, ◌↔◌, ◌+◌, ◌<◌, ◌≤◌, All, IsTrue, None, true, length};
ghost use Rattle.tac_ir.specs.Edges.{calls_fun};
ghost use Rattle.tac_ir.specs.GoodForm.{GoodForm};
ghost use Rattle.tac_ir.specs.GoodModule.{IsPoint};
ghost use Rattle.tac_ir.specs.Layout.{instr_at, lines_of};
ghost use Rattle.flow_rules.specs.PointNumber.{point_at};
ghost use Rattle.flow_rules.specs.tools.ReachRules.{CallsFlow, EdgesBy, EntriesFlow, FlowsTo, GoesOn, HasRows, ReturnsFlow, StartsHold};

use crate::points::{instr_at, lines_of};
use crate::reads::makes_def;
use crate::rows::row_at;
use dfi_base::Point;
use tac_ir::{Code, Fact, Instr, Reach};

/// Whether each starting definition reaches a point.
pub(crate) fn starts_hold(c: &Code, r: &Reach, p: Point) -> bool
    requires form { GoodForm c.now }
    requires rows { HasRows c.now r.now }
    requires point { IsPoint c.now p }
    ensures { IsTrue result ↔ StartsHold c.now r.now p (length r.now.facts.pairs) }
{
    let row = row_at(c, r, p);
    let facts = r.facts.pairs.as_slice();
    for k in 0..row.len() {
        if !start_reaches(c, facts[k as usize], row.get(k)) {
            return false;
        }
    }
    true
}

fn start_reaches(c: &Code, fact: Fact, reaches: bool) -> bool
    ensures { IsTrue result ↔ (fact.def ≤ length c.now.globals → reaches ≡ true) }
{
    fact.def as usize > c.globals.len() || reaches
}

/// Whether what a point makes, and what reaches it but for one leaf, reaches each point to which an edge leads.
pub(crate) fn edges_hold(c: &Code, r: &Reach, killed: Option<u32>, p: Point) -> bool
    requires form { GoodForm c.now }
    requires rows { HasRows c.now r.now }
    requires point { IsPoint c.now p }
    ensures { IsTrue result ↔ EdgesBy c.now r.now killed p (instr_at c.now p) }
{
    match instr_at(c, p) {
        Instr::Jump { target } => leads(c, r, None, p, *target),
        Instr::Test { yes, no, .. } => leads(c, r, None, p, *yes) && leads(c, r, None, p, *no),
        Instr::Call { fun, .. } => flows(c, r, None, p, Point { fun: *fun, at: 0 }),
        Instr::Ret { read, .. } => match read {
            None => true,
            Some(_) => returns_flow(c, r, p),
        },
        Instr::Fork { entries, .. } => entries_flow(c, r, p, entries.as_slice()),
        Instr::End => true,
        _ => leads(c, r, killed, p, p.at + 1),
    }
}

// The same for one index of the function.
fn leads(c: &Code, r: &Reach, killed: Option<u32>, p: Point, at: u32) -> bool
    requires form { GoodForm c.now }
    requires rows { HasRows c.now r.now }
    requires p { IsPoint c.now p }
    requires at { at < length (lines_of c.now p.fun) }
    ensures { IsTrue result ↔ FlowsTo c.now r.now killed p (point_at p.fun at) (length r.now.facts.pairs) }
{
    flows(c, r, killed, p, Point { fun: p.fun, at })
}

fn returns_flow(c: &Code, r: &Reach, p: Point) -> bool
    requires form { GoodForm c.now }
    requires rows { HasRows c.now r.now }
    requires point { IsPoint c.now p }
    ensures { IsTrue result ↔ ReturnsFlow c.now r.now p (length c.now.funs) }
{
    for fun in 0..c.funs.len() as u32 {
        if !calls_flow(c, r, p, fun) {
            return false;
        }
    }
    true
}

fn calls_flow(c: &Code, r: &Reach, p: Point, fun: u32) -> bool
    requires form { GoodForm c.now }
    requires rows { HasRows c.now r.now }
    requires point { IsPoint c.now p }
    requires fun { fun < length c.now.funs }
    ensures { IsTrue result ↔ CallsFlow c.now r.now p fun (length (lines_of c.now fun)) }
{
    for at in 0..lines_of(c, fun).len() as u32 {
        if !call_flows(c, r, p, Point { fun, at }) {
            return false;
        }
    }
    true
}

fn call_flows(c: &Code, r: &Reach, p: Point, x: Point) -> bool
    requires form { GoodForm c.now }
    requires rows { HasRows c.now r.now }
    requires point { IsPoint c.now p }
    requires x { IsPoint c.now x }
    ensures { IsTrue result ↔ (calls_fun p.fun (instr_at c.now x) ≡ true → FlowsTo c.now r.now None p (point_at x.fun (x.at + 1)) (length r.now.facts.pairs)) }
{
    !calls(instr_at(c, x), p.fun) || leads_from(c, r, p, x)
}

// Whether what reaches a return reaches the point behind a call.
fn leads_from(c: &Code, r: &Reach, p: Point, x: Point) -> bool
    requires form { GoodForm c.now }
    requires rows { HasRows c.now r.now }
    requires point { IsPoint c.now p }
    requires next { x.at + 1 < length (lines_of c.now x.fun) }
    ensures { IsTrue result ↔ FlowsTo c.now r.now None p (point_at x.fun (x.at + 1)) (length r.now.facts.pairs) }
{
    flows(
        c,
        r,
        None,
        p,
        Point {
            fun: x.fun,
            at: x.at + 1,
        },
    )
}

fn calls(instr: &Instr, callee: u32) -> bool
    ensures { result ≡ calls_fun callee instr.now }
{
    match instr {
        Instr::Call { fun, .. } => *fun == callee,
        _ => false,
    }
}

fn entries_flow(c: &Code, r: &Reach, p: Point, entries: &[u32]) -> bool
    requires form { GoodForm c.now }
    requires rows { HasRows c.now r.now }
    requires point { IsPoint c.now p }
    requires entries { All (λ e. e < length (lines_of c.now p.fun)) entries.now }
    ensures { IsTrue result ↔ EntriesFlow c.now r.now p entries.now (length entries.now) }
{
    for i in 0..entries.len() {
        if !leads(c, r, None, p, entries[i]) {
            return false;
        }
    }
    true
}

// Whether what p makes, and what reaches it but for one leaf, reaches q.
fn flows(c: &Code, r: &Reach, killed: Option<u32>, p: Point, q: Point) -> bool
    requires form { GoodForm c.now }
    requires rows { HasRows c.now r.now }
    requires p { IsPoint c.now p }
    requires q { IsPoint c.now q }
    ensures { IsTrue result ↔ FlowsTo c.now r.now killed p q (length r.now.facts.pairs) }
{
    let from = row_at(c, r, p);
    let to = row_at(c, r, q);
    let facts = r.facts.pairs.as_slice();
    let instr = instr_at(c, p);
    for k in 0..to.len() {
        if !fact_flows(instr, killed, facts[k as usize], from.get(k), to.get(k)) {
            return false;
        }
    }
    true
}

fn fact_flows(instr: &Instr, killed: Option<u32>, fact: Fact, from: bool, to: bool) -> bool
    ensures { IsTrue result ↔ (GoesOn instr.now killed fact from → to ≡ true) }
{
    to || !goes_on(instr, killed, fact, from)
}

// Whether a fact goes on from an instruction, where it reaches that or not.
fn goes_on(instr: &Instr, killed: Option<u32>, fact: Fact, reaches: bool) -> bool
    ensures { IsTrue result ↔ GoesOn instr.now killed fact reaches }
{
    makes_def(instr, fact.def) || reaches && killed != Some(fact.leaf)
}
