//! Replies without a run.

ghost use Rattle.std.specs.Prelude.{◌<◌};
ghost use Rattle.dfi_top.specs.Reply.{NoJournal, said_by, Says};

use crate::reply::Reply;
use sqlite_items::Items;
use std::alloc::Global;
use tac_ir::{End, Journal};

/// The journal where there was no run.
pub fn no_journal(alloc: Global) -> Journal
    ensures { NoJournal result }
{
    Journal {
        entries: Items::from_vec(Vec::new(alloc)),
        end: End::NoRun,
    }
}

/// A text with a status, and no run.
pub fn say(alloc: Global, status: u8, text: Vec<u8>) -> Reply
    requires { status < 7 }
    ensures { Says status text.items (said_by result) }
{
    Reply {
        text,
        status,
        journal: no_journal(alloc),
    }
}
