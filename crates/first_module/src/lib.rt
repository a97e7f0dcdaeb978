//! The module of code, before there is an analysis of whole programs: a straight line has the sets of its reads, in any other code
//! each read allows each definition.
#![tactic(auto)]

ghost use Rattle.std.specs.Prelude.{◌≡◌, false, replicate, IfOk};
ghost use Rattle.tac_ir.specs.GoodForm.{GoodForm};
ghost use Rattle.word_table.specs.Tables.{CanRun};
ghost use Rattle.first_module.specs.ModuleOf.{module_of};

mod classes;
mod counts;
mod steps;
mod straight;
mod tables;

use crate::tables::{Tables, make_tables};
use dfi_base::Memory;
use sqlite_items::Items;
use std::alloc::Global;
use tac_ir::{Classes, Code, Module, Points, Sets, Size};

/// So many reads, each of them checked.
fn all_checked(alloc: Global, reads: usize) -> Result<Items<bool>, Memory>
    ensures { IfOk result (λ removed. removed ≡ replicate reads false) }
{
    Ok(Items::from_vec(vec![in alloc; false; reads]?))
}

/// The module of this code, which a core can run.
pub fn make_module(alloc: Global, code: Code) -> Result<Module, Memory>
    requires { GoodForm code }
    ensures module { IfOk result (λ m. m ≡ module_of code) }
    ensures runs { IfOk result (λ m. CanRun m) }
{
    let Tables { sets, classes } = make_tables(alloc, &code)?;
    let removed = all_checked(alloc, sets.len())?;
    Ok(Module {
        size: Size::Small,
        code,
        classes: Classes { list: classes },
        sets: Sets { lists: sets },
        removed,
        points: Points {
            rows: Items::new(alloc),
        },
        reach: Items::new(alloc),
    })
}
