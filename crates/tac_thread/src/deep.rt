ghost use Rattle.std.specs.Prelude.{◌≡◌, ◌<◌, ◌^◌, nat_le, false};
ghost use Rattle.tac_ir.specs.Answers.{depth_of};

use dfi_base::Name;

// From this name on a thread is 14 deep.
const DEEP: u64 = 1 << 56;

/// Whether a thread is so deep that it may have no branches.
pub fn is_deep(name: Name) -> bool
    ensures deep { result ≡ nat_le 14 (depth_of name.0) }
    ensures bound { result ≡ false → name.0 < 2 ^ 56 }
{
    name.0 >= DEEP
}
