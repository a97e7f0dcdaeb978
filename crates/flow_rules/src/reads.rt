ghost use Rattle.std.specs.Prelude.{◌≡◌, ◌↔◌, ℕ, ◌<◌, true, Some, None, IsTrue, MatchOption, length};
ghost use Rattle.std.specs.List.{list_all};
ghost use Rattle.dfi_base.specs.declared.numbers.Point.{Point};
ghost use Rattle.tac_ir.specs.Answers.{has, set_of};
ghost use Rattle.tac_ir.specs.GoodForm.{GoodForm};
ghost use Rattle.tac_ir.specs.GoodModule.{IsPoint};
ghost use Rattle.tac_ir.specs.Layout.{instr_at};
ghost use Rattle.tac_ir.specs.Numbers.{new_def, new_read};
ghost use Rattle.flow_rules.specs.tools.Made.{Makes, IsMadeAt, IsMadeIn};

use dfi_base::Point;
use tac_ir::{Code, Instr, Lined, Module};

/// A read or a definition, by its number.
#[derive(Clone, Copy)]
pub(crate) enum Made {
    Read(u32),
    Def(u32),
}

/// Where it is made, if any instruction makes it.
pub(crate) fn point_of(c: &Code, made: Made) -> Option<Point>
    requires { GoodForm c.now }
    ensures { IsMadeAt c.now made result }
{
    let funs = c.funs.as_slice();
    for fun in 0..funs.len() {
        if let Some(at) = index_of(funs[fun].code.as_slice(), made) {
            return Some(Point {
                fun: fun as u32,
                at: at as u32,
            });
        }
    }
    None
}

fn index_of(code: &[Lined], made: Made) -> Option<usize>
    ensures { IsMadeIn code.now made result }
{
    for at in 0..code.len() {
        if makes(&code[at].instr, made) {
            return Some(at);
        }
    }
    None
}

fn makes(instr: &Instr, made: Made) -> bool
    ensures { IsTrue result ↔ Makes made instr.now }
{
    match made {
        Made::Read(read) => makes_read(instr, read),
        Made::Def(def) => makes_def(instr, def),
    }
}

fn makes_read(instr: &Instr, read: u32) -> bool
    ensures { IsTrue result ↔ (new_read instr.now ≡ Some read) }
{
    match instr {
        Instr::Get { read: r, .. } => *r == read,
        Instr::Load { read: r, .. } => *r == read,
        Instr::Ret { read: Some(r), .. } => *r == read,
        _ => false,
    }
}

/// Whether an instruction makes a definition.
pub(crate) fn makes_def(instr: &Instr, def: u32) -> bool
    ensures { IsTrue result ↔ (new_def instr.now ≡ Some def) }
{
    match instr {
        Instr::Set { def: d, .. } => *d == def,
        Instr::Store { def: d, .. } => *d == def,
        Instr::Call { def: d, .. } => *d == def,
        _ => false,
    }
}

/// The set of a read, and none where it has none.
pub(crate) fn set_of(m: &Module, read: u32) -> &[u32]
    ensures { result.now ≡ set_of m.now read }
{
    if read == 0 {
        return &[];
    }
    match m.sets.lists.get(read as usize - 1) {
        Some(set) => set.as_slice(),
        None => &[],
    }
}

/// Whether a set has a definition.
pub(crate) fn has(set: &[u32], def: u32) -> bool
    ensures { result ≡ has set.now def }
{
    set.contains(&def)
}

/// Whether a set has all that another has.
pub(crate) fn is_within(set: &[u32], other: &[u32]) -> bool
    ensures { result ≡ list_all (has other.now) set.now }
{
    set.iter().all(|def| has(other, *def))
}
