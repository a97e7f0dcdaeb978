ghost use Rattle.std.specs.Prelude.{◌≡◌, IfOk};
ghost use Rattle.test_flow.specs.Worked.{IsWorked, counts_of};

use crate::codes::{ARRAYS, BESIDE, ITSELF, ONCE, TWICE};
use std::alloc::{AllocError, Global};
use tac_ir::Module;
use test_samples::module_of;

#[derive(Clone, Copy)]
pub enum Program {
    Arrays,
    Twice,
    Once,
    Itself,
    Beside,
}

/// How many points, definitions and reads a program has, and how many temporaries of `main` and nodes.
#[derive(Clone, Copy)]
pub struct Counts {
    pub points: u32,
    pub defs: u16,
    pub reads: u16,
    pub temps: u32,
    pub nodes: u32,
}

impl Program {
    pub fn title(self) -> &'static str {
        match self {
            Program::Arrays => "arrays",
            Program::Twice => "twice",
            Program::Once => "once",
            Program::Itself => "itself",
            Program::Beside => "beside",
        }
    }

    pub fn counts(self) -> Counts
        ensures { result ≡ counts_of self }
    {
        let (points, defs, reads, temps, nodes) = match self {
            Program::Arrays => (23, 6, 3, 16, 6),
            Program::Twice => (5, 3, 1, 2, 1),
            Program::Once => (7, 3, 2, 1, 1),
            Program::Itself => (8, 4, 2, 1, 1),
            Program::Beside => (12, 4, 2, 3, 1),
        };
        Counts {
            points,
            defs,
            reads,
            temps,
            nodes,
        }
    }

    pub fn module(self, alloc: Global) -> Result<Module, AllocError>
        ensures { IfOk result (λ m. IsWorked m.code (counts_of self)) }
    {
        match self {
            Program::Arrays => arrays(alloc),
            Program::Twice => twice(alloc),
            Program::Once => once(alloc),
            Program::Itself => itself(alloc),
            Program::Beside => beside(alloc),
        }
    }
}

fn arrays(alloc: Global) -> Result<Module, AllocError>
    ensures { IfOk result (λ m. IsWorked m.code (counts_of Program.Arrays)) }
{
    module_of(alloc, &ARRAYS)
}

fn twice(alloc: Global) -> Result<Module, AllocError>
    ensures { IfOk result (λ m. IsWorked m.code (counts_of Program.Twice)) }
{
    module_of(alloc, &TWICE)
}

fn once(alloc: Global) -> Result<Module, AllocError>
    ensures { IfOk result (λ m. IsWorked m.code (counts_of Program.Once)) }
{
    module_of(alloc, &ONCE)
}

fn itself(alloc: Global) -> Result<Module, AllocError>
    ensures { IfOk result (λ m. IsWorked m.code (counts_of Program.Itself)) }
{
    module_of(alloc, &ITSELF)
}

fn beside(alloc: Global) -> Result<Module, AllocError>
    ensures { IfOk result (λ m. IsWorked m.code (counts_of Program.Beside)) }
{
    module_of(alloc, &BESIDE)
}
