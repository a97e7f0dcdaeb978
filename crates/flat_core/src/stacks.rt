ghost use Rattle.std.specs.Prelude.{◌≡◌, ◌≤◌, ◌/◌, length, IfOk, MatchOption};
ghost use Rattle.path_law.specs.Wants.{room_in};
ghost use Rattle.path_law.specs.Alive.{AreShares};
ghost use Rattle.tac_thread.specs.Flat.{with_share};

use dfi_base::Memory;
use std::alloc::Global;
use tac_thread::{Domain, FlatStack, FlatWords};

/// The stacks of `n` branches, each with an equal share of what is left of a stack; none where a share has no word.
pub fn shares(alloc: Global, stack: &FlatStack, n: u32) -> Result<Option<Vec<FlatStack>>, Memory>
    ensures { IfOk result (λ shares. MatchOption shares (room_in stack.now / n ≡ 0)
        (λ v. (length v.items ≡ n) × AreShares stack.now v.items)) }
{
    let mut stacks = Vec::new(alloc);
    for i in 0..n {
        let Some(share) = FlatWords::share(stack, n, i + 1) else {
            return Ok(None);
        };
        stacks.push(share)?;
    }
    Ok(Some(stacks))
}
