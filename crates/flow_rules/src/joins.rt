ghost use Rattle.std.specs.Prelude.{◌≡◌, ◌↔◌, ◌<◌, ◌≤◌, [], ◌∷◌, ◌++◌, IsTrue, true, false, length, nat_lt, replicate};
ghost use Rattle.tac_ir.specs.GoodForm.{GoodForm};
ghost use Rattle.tac_ir.specs.GoodModule.{IsPoint};
ghost use Rattle.tac_ir.specs.Layout.{instr_at, lines_of};
ghost use Rattle.tac_ir.specs.Module.{is_chain};
ghost use Rattle.tac_ir.specs.Regions.{IsInside};
ghost use Rattle.flow_rules.specs.tools.Branches.{AreBranches, IsBodySet, IsMadeWithin, last_of};
ghost use Rattle.flow_rules.specs.tools.ReachRules.{HasRows, JoinsAll, JoinsBy, JoinsEach, JoinsOne, ReachesEnds};

use crate::calls::{FUNCTIONS, add_calls, add_reached};
use crate::points::instr_at;
use crate::reads::{Made, point_of};
use crate::rows::row_at;
use dfi_base::Point;
use tac_ir::{Code, Fact, Instr, Reach};

/// Whether the rules hold on what reaches the join of a fork.
pub(crate) fn joins_hold(c: &Code, r: &Reach, p: Point) -> bool
    requires form { GoodForm c.now }
    requires rows { HasRows c.now r.now }
    requires point { IsPoint c.now p }
    ensures { IsTrue result ↔ JoinsBy c.now r.now p (instr_at c.now p) }
{
    match instr_at(c, p) {
        Instr::Fork { join, entries } => {
            joins_each(c, r, p, *join, entries.as_slice())
                && joins_all(c, r, p.fun, *join, entries.as_slice())
        }
        _ => true,
    }
}

// Whether what was made in the body of a branch and reaches its end reaches the join.
fn joins_each(c: &Code, r: &Reach, p: Point, join: u32, entries: &[u32]) -> bool
    requires form { GoodForm c.now }
    requires rows { HasRows c.now r.now }
    requires branches { AreBranches c.now p.fun join entries.now }
    ensures { IsTrue result ↔ JoinsEach c.now r.now p.fun p.at join entries.now (length entries.now) }
{
    for i in 0..entries.len() {
        let last = last_of(entries, join, i);
        if !joins_one(c, r, p, join, entries[i], last) {
            return false;
        }
    }
    true
}

// The same of one branch.
fn joins_one(c: &Code, r: &Reach, p: Point, join: u32, entry: u32, last: u32) -> bool
    requires form { GoodForm c.now }
    requires rows { HasRows c.now r.now }
    requires join { join < length (lines_of c.now p.fun) }
    requires order { entry ≤ last }
    requires last { last < length (lines_of c.now p.fun) }
    ensures { IsTrue result ↔ JoinsOne c.now r.now p.fun join (record { fork = p.at; entry = entry; last = last }) (length r.now.facts.pairs) }
{
    let mut set = [false; FUNCTIONS];
    add_body(c, p, entry, last, &mut set);
    let from = row_at(
        c,
        r,
        Point {
            fun: p.fun,
            at: last,
        },
    );
    let to = row_at(
        c,
        r,
        Point {
            fun: p.fun,
            at: join,
        },
    );
    let facts = r.facts.pairs.as_slice();
    for k in 0..to.len() {
        let def = facts[k as usize].def;
        let comes = comes_from(c, &set, p, entry, last, def, from.get(k));
        if !holds_where(comes, to.get(k)) {
            return false;
        }
    }
    true
}

fn holds_where(test: bool, holds: bool) -> bool
    ensures { IsTrue result ↔ (test ≡ true → holds ≡ true) }
{
    holds || !test
}

// Whether a definition reaches the end of a branch and is made in its body.
fn comes_from(
    c: &Code,
    set: &[bool],
    p: Point,
    entry: u32,
    last: u32,
    def: u32,
    reaches: bool,
) -> bool
    requires form { GoodForm c.now }
    requires set { IsBodySet c.now p.fun (record { fork = p.at; entry = entry; last = last }) set.now }
    ensures { IsTrue result ↔ ((reaches ≡ true) × IsMadeWithin c.now p.fun (record { fork = p.at; entry = entry; last = last }) def) }
{
    reaches && is_made_within(c, set, p, entry, last, def)
}

// Adds the functions that are called from a branch, through any chain of calls.
fn add_body(c: &Code, p: Point, entry: u32, last: u32, set: &mut [bool])
    requires form { GoodForm c.now }
    requires none { set.old ≡ replicate 256 false }
    requires order { entry ≤ last }
    requires last { last < length (lines_of c.now p.fun) }
    ensures { IsBodySet c.now p.fun (record { fork = p.at; entry = entry; last = last }) set.new }
{
    add_calls(c, p.fun, entry, last + 1, set);
    add_reached(c, set);
}

// Whether a definition is made in the body of a branch.
fn is_made_within(c: &Code, set: &[bool], p: Point, entry: u32, last: u32, def: u32) -> bool
    requires form { GoodForm c.now }
    requires set { IsBodySet c.now p.fun (record { fork = p.at; entry = entry; last = last }) set.now }
    ensures { IsTrue result ↔ IsMadeWithin c.now p.fun (record { fork = p.at; entry = entry; last = last }) def }
{
    match point_of(c, Made::Def(def)) {
        None => false,
        Some(q) => is_inside(p, entry, last, q) || set[q.fun as usize],
    }
}

fn is_inside(p: Point, entry: u32, last: u32, q: Point) -> bool
    ensures { IsTrue result ↔ ((q.fun ≡ p.fun) × IsInside (record { fork = p.at; entry = entry; last = last }) q.at) }
{
    q.fun == p.fun && entry <= q.at && q.at <= last
}

// The last index of a branch.
fn last_of(entries: &[u32], join: u32, i: usize) -> u32
    requires ascends { IsTrue (is_chain nat_lt (entries.now ++ join ∷ [])) }
    requires i { i < length entries.now }
    ensures { result ≡ last_of entries.now join i }
{
    if i + 1 < entries.len() {
        entries[i + 1] - 1
    } else {
        join - 1
    }
}

// Whether what reaches the ends of all branches reaches the join.
fn joins_all(c: &Code, r: &Reach, fun: u32, join: u32, entries: &[u32]) -> bool
    requires form { GoodForm c.now }
    requires rows { HasRows c.now r.now }
    requires branches { AreBranches c.now fun join entries.now }
    ensures { IsTrue result ↔ JoinsAll c.now r.now fun join entries.now (length r.now.facts.pairs) }
{
    let to = row_at(c, r, Point { fun, at: join });
    for k in 0..to.len() {
        if !holds_where(reaches_ends(c, r, fun, join, entries, k), to.get(k)) {
            return false;
        }
    }
    true
}

fn reaches_ends(c: &Code, r: &Reach, fun: u32, join: u32, entries: &[u32], k: u32) -> bool
    requires form { GoodForm c.now }
    requires rows { HasRows c.now r.now }
    requires branches { AreBranches c.now fun join entries.now }
    requires k { k < length r.now.facts.pairs }
    ensures { IsTrue result ↔ ReachesEnds c.now r.now fun join entries.now k (length entries.now) }
{
    for i in 0..entries.len() {
        let at = last_of(entries, join, i);
        if !row_at(c, r, Point { fun, at }).get(k) {
            return false;
        }
    }
    true
}
