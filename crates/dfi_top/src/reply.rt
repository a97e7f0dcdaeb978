ghost use Rattle.std.specs.Prelude.{◌<◌};

use tac_ir::Journal;

/// What a call says, and its journal.
#[derive(Drop)]
pub struct Reply {
    pub text: Vec<u8>,
    pub status: u8,
    pub journal: Journal,
    ghost small: { status < 7 },
}
