ghost use Rattle.std.specs.Prelude.{◌≡◌, ℕ, ◌<◌, IsTrue, IfOk, length, true};
ghost use Rattle.dfi_base.specs.Bits.{has};
ghost use Rattle.least_rows.specs.Rules.{IsFitting};
ghost use Rattle.least_rows.specs.Solutions.{IsSolution};

use crate::index::{Index, loads_of, readers_of};
use crate::rules::System;
use crate::solver::Solver;
use dfi_base::{Bits, Memory};
use std::alloc::Global;

/// The solution of the rules above a table. A rule is applied again only when a row that it reads has grown.
pub fn solve(alloc: Global, system: &System, start: Vec<Bits>) -> Result<Vec<Bits>, Memory>
    requires { IsFitting system.now start.items }
    ensures { IfOk result (λ rows. IsSolution system.now start.items rows.items) }
{
    let readers = readers_of(alloc, system, start.len())?;
    let loads = loads_of(alloc, system)?;
    let waiting = all_waiting(alloc, system.rules.len() as u32)?;
    let mut asked = Bits::new(alloc, system.width)?;
    let empty = Bits::new(alloc, system.width)?;
    let mut solver = Solver {
        rows: start,
        waiting,
        index: Index { readers, loads },
    };
    solver.settle(system, &mut asked, &empty);
    Ok(solver.into_rows())
}

fn all_waiting(alloc: Global, count: u32) -> Result<Bits, Memory>
    ensures long { IfOk result (λ waiting. length waiting ≡ count) }
    ensures all { IfOk result (λ waiting. (i : ℕ) → i < count → IsTrue (has waiting i)) }
{
    let mut waiting = Bits::new(alloc, count)?;
    for i in 0..count {
        waiting.put(i, true);
    }
    Ok(waiting)
}
