//! Instructions under way.

ghost use Rattle.std.specs.Prelude.{◌≡◌, ◌<◌, ◌^◌};
ghost use Rattle.tac_lower.specs.Parts.{behind, bumped};

use c_typed::ObjectType;
use tac_ir::Instr;

/// The next temporary, definition, read and index.
#[derive(Clone, Copy)]
pub struct Numbers {
    pub temp: u32,
    pub def: u32,
    pub read: u32,
    pub at: u32,
}

/// Which numbers an instruction takes besides its index.
#[derive(Clone, Copy)]
pub struct Taken {
    pub temp: bool,
    pub def: bool,
    pub read: bool,
}

/// An instruction and its line. Where it names a shape or makes a heap site, `object` is the type of that shape; the number of
/// the shape is 0 until all shapes are known.
#[derive(Drop)]
pub struct Draft {
    pub line: u32,
    pub instr: Instr,
    pub object: Option<ObjectType>,
}

/// Where `break` and `continue` go.
#[derive(Clone, Copy)]
pub struct Ends {
    pub leave: u32,
    pub again: u32,
}

fn bump(number: u32, taken: bool) -> u32
    requires { number < 4294967295 }
    ensures { result ≡ bumped taken number }
{
    if taken { number + 1 } else { number }
}

impl Numbers {
    /// The numbers behind an instruction that takes these.
    pub(crate) fn behind(self, taken: Taken) -> Numbers
        requires temp { self.temp < 4294967295 }
        requires def { self.def < 4294967295 }
        requires read { self.read < 4294967295 }
        requires at { self.at < 4294967295 }
        ensures { result ≡ behind taken self }
    {
        Numbers {
            temp: bump(self.temp, taken.temp),
            def: bump(self.def, taken.def),
            read: bump(self.read, taken.read),
            at: self.at + 1,
        }
    }
}
