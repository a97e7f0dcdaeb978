ghost use Rattle.std.specs.Prelude.{◌≡◌, ℕ, ◌+◌, ◌<◌, ◌≤◌, length, slice_index, IfOk};
ghost use Rattle.code_layout.specs.LaidOut.{IsLaidOut, global_start};

use crate::memory::globals_from;
use crate::shapes::{shape_sizes, size_at};
use dfi_base::Memory;
use std::alloc::Global;
use tac_ir::Code;

/// The first word of each global, and behind them the first word after all of them.
pub fn global_starts(alloc: Global, code: &Code) -> Result<Vec<u32>, Memory>
    requires { IsLaidOut code.now }
    ensures count { IfOk result (λ v. length v.items ≡ length code.now.globals + 1) }
    ensures starts { IfOk result
        (λ v. (g : ℕ) → g ≤ length code.now.globals → slice_index v.items g ≡ global_start code.now g) }
    ensures first { IfOk result (λ v. slice_index v.items 0 ≡ 16) }
    ensures ascending { IfOk result
        (λ v. (g : ℕ) → g < length code.now.globals
        → slice_index v.items g ≤ slice_index v.items (g + 1)) }
{
    let sizes = shape_sizes(alloc, code)?;
    let mut starts = Vec::new(alloc);
    let mut next = globals_from();
    for global in code.globals.as_slice() {
        starts.push(next)?;
        next += size_at(sizes.as_slice(), global.shape);
    }
    starts.push(next)?;
    Ok(starts)
}
