ghost use Rattle.std.specs.Prelude.{◌≡◌, ◌↔◌, IsTrue};
ghost use Rattle.tac_ir.specs.Answers.{has};
ghost use Rattle.tac_ir.specs.GoodForm.{all_targets_of};
ghost use Rattle.flow_rules.specs.Removed.{breaks, is_loud, is_named};

use crate::reads::has;
use tac_ir::{Instr, Lined, Place};

/// Whether two places are one.
pub(crate) fn is_same(place: &Place, other: &Place) -> bool
    ensures { IsTrue result ↔ (other.now ≡ place.now) }
{
    match place {
        Place::Global { var, path } => match other {
            Place::Global { var: v, path: p } => *v == *var
                && is_same_path(p.as_slice(), path.as_slice()),
            Place::Local { .. } => false,
        },
        Place::Local { var, path } => match other {
            Place::Global { .. } => false,
            Place::Local { var: v, path: p } => *v == *var
                && is_same_path(p.as_slice(), path.as_slice()),
        },
    }
}

fn is_same_path(path: &[u32], other: &[u32]) -> bool
    ensures { IsTrue result ↔ (path.now ≡ other.now) }
{
    path == other
}

/// Whether a block begins behind an instruction.
pub(crate) fn breaks(instr: &Instr) -> bool
    ensures { result ≡ breaks instr.now }
{
    match instr {
        Instr::Jump { .. } => true,
        Instr::Test { .. } => true,
        Instr::Ret { .. } => true,
        Instr::Fork { .. } => true,
        Instr::End => true,
        _ => false,
    }
}

/// Whether an instruction may write, or give a block back, or let another thread or function do so.
pub(crate) fn is_loud(instr: &Instr) -> bool
    ensures { result ≡ is_loud instr.now }
{
    match instr {
        Instr::Set { .. } => true,
        Instr::Store { .. } => true,
        Instr::Call { .. } => true,
        Instr::Fork { .. } => true,
        Instr::Free { .. } => true,
        _ => false,
    }
}

/// Whether some instruction names an index as a target.
pub(crate) fn is_named(code: &[Lined], at: u32) -> bool
    ensures { result ≡ is_named code.now at }
{
    code.iter().any(|lined| names(&lined.instr, at))
}

#[tactic(auto, using(crate::proofs::Members::fork_named))]
fn names(instr: &Instr, at: u32) -> bool
    ensures { result ≡ has (all_targets_of instr.now) at }
{
    match instr {
        Instr::Jump { target } => *target == at,
        Instr::Test { yes, no, .. } => *yes == at || *no == at,
        Instr::Fork { join, entries } => has(entries.as_slice(), at) || *join == at,
        _ => false,
    }
}
