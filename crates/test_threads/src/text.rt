ghost use Rattle.tac_ir.specs.GoodForm.{GoodForm};

use crate::deep::{Nesting, words};
use crate::row::{Row, Values};
use crate::{byte_run, word_run};
use std::alloc::Global;
use tac_ir::Code;
use test_base::Halt;

/// How deep the measured shapes are nested.
const LEVELS: u32 = 24_000;

impl test_base::Row for Row {
    fn text(&self, alloc: Global) -> Result<Vec<u8>, Halt> {
        let module = self.program.module(alloc)?;
        Ok(told(alloc, &module.code, self)?.into_bytes())
    }
}

fn told(alloc: Global, c: &Code, row: &Row) -> Result<String, Halt>
    requires { GoodForm c.now }
{
    let title = row.title;
    let text = format!(in alloc; "-- {title}\n")?;
    match row.values {
        Values::Bytes => Ok(byte_run::play(alloc, text, c, row.limit, row.shown)?),
        Values::Words(room) => Ok(word_run::play(alloc, text, c, room, row.limit, row.shown)?),
    }
}

impl test_base::Row for Nesting {
    fn text(&self, alloc: Global) -> Result<Vec<u8>, Halt> {
        let title = title_of(*self);
        let words = words(alloc, *self, LEVELS)?.unwrap_or(0);
        Ok(format!(in alloc;
            "-- {LEVELS} {title} within one another\nwords {words}\n"
        )?.into_bytes())
    }
}

fn title_of(nesting: Nesting) -> &'static str {
    match nesting {
        Nesting::Array => "arrays of length 1",
        Nesting::Struct => "structs of one part",
        Nesting::Pair => "structs with an int beside",
    }
}
