//! Between two functions.

ghost use Rattle.std.specs.Prelude.{◌+◌, ◌≤◌};

use crate::draft::Numbers;

/// What the functions so far leave of numbers and of room.
#[derive(Drop)]
pub struct Progress {
    pub next: Numbers,
    pub room: u32,
    ghost few: { room ≤ 16384 },
    ghost defs: { next.def + room ≤ 2147500032 },
    ghost reads: { next.read + room ≤ 2147500032 },
}
