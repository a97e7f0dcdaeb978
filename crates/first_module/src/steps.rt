//! What an instruction of a straight line does to globals, and to the pointers in temporaries.
ghost use Rattle.std.specs.Prelude.{◌≡◌, None, slice_index_or};
ghost use Rattle.first_module.specs.StraightLine as line;
ghost use Rattle.first_module.specs.tools.Steps as definition;

use tac_ir::{Instr, Lined, Place};

/// What an instruction does to globals.
#[derive(Clone, Copy)]
pub enum Step {
    Quiet,
    /// Reads a global as a whole.
    Get { global: u32 },
    /// Reads through a pointer into a global.
    Load { global: u32 },
    Write { global: u32, def: u32 },
}

/// The global that a place is, where it is one as a whole.
fn global_at(place: &Place) -> Option<u32>
    ensures { result ≡ line.global_at place.now }
{
    match place {
        Place::Global { var, path } if path.is_empty() => Some(*var),
        _ => None,
    }
}

/// The global behind a temporary.
fn global_behind(behind: &[Option<u32>], temp: u32) -> Option<u32>
    ensures { result ≡ slice_index_or behind.now temp None }
{
    behind.get(temp as usize).copied().flatten()
}

/// What an instruction does, where it may stand in a straight line.
pub fn step_of(instr: &Instr, behind: &[Option<u32>]) -> Option<Step>
    ensures { result ≡ definition.step_of (λ t. slice_index_or behind.now t None) instr.now }
{
    match instr {
        Instr::Const { .. }
        | Instr::Null { .. }
        | Instr::Un { .. }
        | Instr::Bin { .. }
        | Instr::Out { .. }
        | Instr::Ret { .. } => Some(Step::Quiet),
        Instr::Addr { place, .. } => {
            global_at(place)?;
            Some(Step::Quiet)
        }
        Instr::Decay { a, .. } | Instr::Index { a, .. } => {
            global_behind(behind, *a)?;
            Some(Step::Quiet)
        }
        Instr::Get { place, .. } => Some(Step::Get {
            global: global_at(place)?,
        }),
        Instr::Set { place, def, .. } => Some(Step::Write {
            global: global_at(place)?,
            def: *def,
        }),
        Instr::Load { a, .. } => Some(Step::Load {
            global: global_behind(behind, *a)?,
        }),
        Instr::Store { a, def, .. } => Some(Step::Write {
            global: global_behind(behind, *a)?,
            def: *def,
        }),
        _ => None,
    }
}

/// The temporary that an instruction sets, with the global into which its pointer then leads.
pub fn moved_by(instr: &Instr, behind: &[Option<u32>]) -> Option<(u32, Option<u32>)>
    ensures { result ≡ definition.moved_by (λ t. slice_index_or behind.now t None) instr.now }
{
    match instr {
        Instr::Addr { to, place } => Some((*to, global_at(place))),
        Instr::Decay { to, a, .. } | Instr::Index { to, a, .. } => {
            Some((*to, global_behind(behind, *a)))
        }
        Instr::Const { to, .. }
        | Instr::Null { to }
        | Instr::Un { to, .. }
        | Instr::Bin { to, .. }
        | Instr::Get { to, .. }
        | Instr::Load { to, .. } => Some((*to, None)),
        _ => None,
    }
}

/// Whether these instructions begin with one that takes the first item of the array to which the temporary points.
fn takes_items(temp: u32, rest: &[Lined]) -> bool
    ensures { result ≡ line.takes_items temp rest.now }
{
    let [next, ..] = rest else {
        return false;
    };
    match &next.instr {
        Instr::Decay { a, .. } => *a == temp,
        _ => false,
    }
}

fn is_followed(instr: &Instr, rest: &[Lined]) -> bool
    ensures { result ≡ line.is_followed instr.now rest.now }
{
    match instr {
        Instr::Addr { to, .. } => takes_items(*to, rest),
        _ => true,
    }
}

/// Whether addresses are only taken to come to items.
pub fn leads_to_items(lines: &[Lined]) -> bool
    ensures { result ≡ line.leads_to_items lines.now }
{
    let mut rest = lines;
    while let [first, more @ ..] = rest {
        if !is_followed(&first.instr, more) {
            return false;
        }
        rest = more;
    }
    true
}
