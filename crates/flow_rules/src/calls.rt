ghost use Rattle.std.specs.Prelude.{◌≡◌, ◌↔◌, ◌<◌, ◌≤◌, IsTrue, length};
ghost use Rattle.tac_ir.specs.GoodForm.{GoodForm};
ghost use Rattle.tac_ir.specs.Layout.{lines_of};
ghost use Rattle.flow_rules.specs.CanCall.{CanCall};
ghost use Rattle.flow_rules.specs.tools.Reached.{CallsWithin, HasAllCalls, HasCall, HasCalls, IsReachedSet};

use crate::points::{instr_at, lines_of};
use dfi_base::Point;
use tac_ir::{Code, Instr};

/// As many as there may be functions.
pub(crate) const FUNCTIONS: usize = 256;

/// Whether a function can call itself, through any chain of calls.
pub(crate) fn can_call_itself(c: &Code, fun: u32) -> bool
    requires form { GoodForm c.now }
    requires fun { fun < length c.now.funs }
    ensures { IsTrue result ↔ CanCall c.now fun fun }
{
    let mut set = [false; FUNCTIONS];
    let end = lines_of(c, fun).len() as u32;
    add_calls(c, fun, 0, end, &mut set);
    add_reached(c, &mut set);
    set[fun as usize]
}

/// Adds the functions that are called from those of a set, through any chain of calls.
pub(crate) fn add_reached(c: &Code, set: &mut [bool])
    requires form { GoodForm c.now }
    requires room { 256 ≤ length set.old }
    ensures { IsReachedSet c.now set.old set.new }
{
    while add_all_calls(c, set) {}
}

// Adds what functions of a set call. Answers whether the set changed.
fn add_all_calls(c: &Code, set: &mut [bool]) -> bool
    requires form { GoodForm c.now }
    requires room { 256 ≤ length set.old }
    ensures { HasAllCalls c.now (length c.now.funs) set.old set.new result }
{
    let mut changed = false;
    for fun in 0..c.funs.len() as u32 {
        if set[fun as usize] {
            let end = lines_of(c, fun).len() as u32;
            changed |= add_calls(c, fun, 0, end, set);
        }
    }
    changed
}

/// Adds what instructions of a function call, between two indexes. Answers whether the set changed.
pub(crate) fn add_calls(c: &Code, fun: u32, from: u32, end: u32, set: &mut [bool]) -> bool
    requires form { GoodForm c.now }
    requires room { 256 ≤ length set.old }
    requires low { from ≤ end }
    requires end { end ≤ length (lines_of c.now fun) }
    ensures { HasCalls c.now fun from end set.old set.new result }
{
    let mut changed = false;
    for at in from..end {
        changed |= add_call(instr_at(c, Point { fun, at }), set);
    }
    changed
}

fn add_call(instr: &Instr, set: &mut [bool]) -> bool
    requires room { CallsWithin (length set.old) instr.now }
    ensures { HasCall instr.now set.old set.new result }
{
    match instr {
        Instr::Call { fun, .. } => {
            let new = !set[*fun as usize];
            set[*fun as usize] = true;
            new
        }
        _ => false,
    }
}
