ghost use Rattle.std.specs.Prelude.{◌≡◌, ◌<◌, IsTrue};
ghost use Rattle.tac_ir.specs.GoodForm.{GoodForm};
ghost use Rattle.tac_ir.specs.Layout.{lines_of};
ghost use Rattle.tac_ir.specs.Path.{entry_before, region_by, region_in};
ghost use Rattle.tac_thread.specs.Answered.{is_number, is_call_named, named_call, resumed_at};
ghost use Rattle.tac_thread.specs.tools.Resuming.{entry_here};
ghost use Rattle.tac_thread.specs.tools.Numbered.{is_numbered};

use crate::domain::Domain;
use tac_ir::{BinOp, Code, Instr, Lined};

/// Where a return goes on in function `fun`: at the call that the link names, where it stands in the same innermost
/// region as the call at `made`, else at `made`.
pub fn resumed_at<D: Domain>(c: &Code, fun: u32, made: u32, link: D::Value) -> u32
    requires { GoodForm c.now }
    ensures { result ≡ resumed_at D.meaning (lines_of c.now fun) made link }
{
    match named_call::<D>(c, fun, link) {
        None => made,
        Some(at) => {
            if region_at(c, fun, at) == region_at(c, fun, made) {
                at
            } else {
                made
            }
        }
    }
}

// The lines of a function; none where there is no such function.
fn lines_of(c: &Code, fun: u32) -> &[Lined]
    ensures { result.now ≡ lines_of c.now fun }
{
    match c.funs.get(fun as usize) {
        None => &[],
        Some(fun) => fun.code.as_slice(),
    }
}

fn named_call<D: Domain>(c: &Code, fun: u32, link: D::Value) -> Option<u32>
    requires { GoodForm c.now }
    ensures { result ≡ named_call D.meaning link 0 (lines_of c.now fun) }
{
    let mut at = 0;
    for line in lines_of(c, fun) {
        if is_call_named::<D>(&line.instr, link) {
            return Some(at);
        }
        at += 1;
    }
    None
}

fn is_call_named<D: Domain>(instr: &Instr, link: D::Value) -> bool
    requires { IsTrue (is_numbered instr.now) }
    ensures { result ≡ is_call_named D.meaning link instr.now }
{
    match instr {
        Instr::Call { def, .. } => is_number::<D>(link, *def),
        _ => false,
    }
}

fn is_number<D: Domain>(link: D::Value, def: u32) -> bool
    requires { def < 65536 }
    ensures { result ≡ is_number D.meaning link def }
{
    match D::bin(BinOp::Eq, &link, &D::int(def as i32)) {
        None => false,
        Some(same) => D::truth(&same) == Some(true),
    }
}

// One more than the entry of the innermost region of an index; 0 where it stands in none.
fn region_at(c: &Code, fun: u32, at: u32) -> u64
    ensures { result ≡ region_in (lines_of c.now fun) at }
{
    let mut region = 0;
    for line in lines_of(c, fun) {
        region = region.max(region_by(&line.instr, at));
    }
    region
}

fn region_by(instr: &Instr, at: u32) -> u64
    ensures { result ≡ region_by instr.now at }
{
    match instr {
        Instr::Fork { join, entries } => entry_before(entries.as_slice(), *join, at),
        _ => 0,
    }
}

fn entry_before(entries: &[u32], join: u32, at: u32) -> u64
    ensures { result ≡ entry_before entries.now join at }
{
    let mut region = 0;
    for entry in entries {
        region = region.max(entry_here(*entry, join, at));
    }
    region
}

fn entry_here(entry: u32, join: u32, at: u32) -> u64
    ensures { result ≡ entry_here entry join at }
{
    if entry <= at && at < join {
        entry as u64 + 1
    } else {
        0
    }
}
