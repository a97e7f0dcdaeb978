//! Which reads go unchecked: exactly those that may.
#![tactic(auto)]

ghost use Rattle.std.specs.Prelude.{◌≡◌, ◌↔◌, ℕ, ◌<◌, suc, true, IfOk, length, slice_index};
ghost use Rattle.tac_ir.specs.GoodModule.{GoodModule};
ghost use Rattle.flow_rules.specs.IsMhp.{IsMhp};
ghost use Rattle.check_elide.specs.Elides.{AreMarks, Elides};

use dfi_base::{Memory, ReadNo};
use flow_rules::{Mhp, elided};
use sqlite_items::Items;
use std::alloc::Global;
use tac_ir::Module;

/// Whether each read, from read 1 on, may go unchecked.
fn marks(alloc: Global, md: &Module, m: &Mhp) -> Result<Items<bool>, Memory>
    requires form { GoodModule md.now }
    requires parallel { IsMhp md.now.code m.now }
    ensures { IfOk result (AreMarks md.now) }
{
    let mut removed = Items::new(alloc);
    for read in 0..md.sets.lists.len() {
        removed.push(elided(md, m, ReadNo(read as u16 + 1)))?;
    }
    Ok(removed)
}

/// The module in which exactly those reads go unchecked that may; nothing else of it changes.
pub fn elide(alloc: Global, md: Module, m: &Mhp) -> Result<Module, Memory>
    requires form { GoodModule md }
    requires parallel { IsMhp md.code m.now }
    ensures { IfOk result (Elides md) }
{
    let removed = marks(alloc, &md, m)?;
    let Module {
        size,
        code,
        classes,
        sets,
        points,
        reach,
        ..
    } = md;
    Ok(Module {
        size,
        code,
        classes,
        sets,
        removed,
        points,
        reach,
    })
}
