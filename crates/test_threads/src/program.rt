ghost use Rattle.std.specs.Prelude.{IfOk};
ghost use Rattle.tac_ir.specs.GoodForm.{GoodForm};

use crate::codes::{calling, counting, nesting, sharing, summing, twice};
use std::alloc::{AllocError, Global};
use tac_ir::Module;

/// A program to run, by its name in `codes`.
#[derive(Clone, Copy)]
pub enum Program {
    Calling,
    Counting { from: i32 },
    Nesting,
    Sharing,
    Summing,
    Twice,
}

impl Program {
    /// A module with the code of the program.
    pub fn module(self, alloc: Global) -> Result<Module, AllocError>
        ensures { IfOk result (λ m. GoodForm m.code) }
    {
        match self {
            Program::Calling => calling(alloc),
            Program::Counting { from } => counting(alloc, from),
            Program::Nesting => nesting(alloc),
            Program::Sharing => sharing(alloc),
            Program::Summing => summing(alloc),
            Program::Twice => twice(alloc),
        }
    }
}
