ghost use Rattle.std.specs.Prelude.{IfOk};
ghost use Rattle.word_table.specs.Tables.{CanRun};

use std::alloc::{AllocError, Global};
use tac_ir::Module;
use test_samples::{branches, calls, nests, stops, stores};

/// A module to run, by its name in `test_samples`.
#[derive(Clone, Copy)]
pub enum Sample {
    Branching,
    Deepening,
    Diverted,
    Dividing,
    Endless,
    EndlessLarge,
    Fifteen,
    Fourteen,
    Freeing,
    Looping,
    Neighbour,
    Overrun,
    Reading,
    Reusing,
    Sharing,
    Unset,
    Wild,
    Working,
}

impl Sample {
    pub fn module(self, alloc: Global) -> Result<Module, AllocError>
        ensures { IfOk result CanRun }
    {
        match self {
            Sample::Branching => branches::branching(alloc),
            Sample::Deepening => branches::deepening(alloc),
            Sample::Diverted => calls::diverted(alloc),
            Sample::Dividing => stops::dividing(alloc),
            Sample::Endless => calls::endless(alloc),
            Sample::EndlessLarge => calls::endless_large(alloc),
            Sample::Fifteen => nests::fifteen(alloc),
            Sample::Fourteen => nests::fourteen(alloc),
            Sample::Freeing => stops::freeing(alloc),
            Sample::Looping => calls::looping(alloc),
            Sample::Neighbour => stops::neighbour(alloc),
            Sample::Overrun => calls::overrun(alloc),
            Sample::Reading => stores::reading(alloc),
            Sample::Reusing => stores::reusing(alloc),
            Sample::Sharing => branches::sharing(alloc),
            Sample::Unset => stores::unset(alloc),
            Sample::Wild => stops::wild(alloc),
            Sample::Working => calls::working(alloc),
        }
    }
}
