ghost use Rattle.std.specs.Prelude.{◌≡◌, IfOk};
ghost use Rattle.tac_ir.specs.Tables.{CanRun};
ghost use Rattle.tac_ir.specs.Desk.{item_words};
ghost use Rattle.stripe_events.specs.Tables.{AreTablesOf};

use code_layout::shape_sizes;
use dfi_base::Memory;
use std::alloc::Global;
use tac_ir::Module;
use word_table::ReadRows;

/// What answers need of a module: the rows of its reads, and the words of each of its shapes.
#[derive(Drop)]
pub struct Tables {
    pub(crate) rows: ReadRows,
    pub(crate) shapes: Vec<u32>,
}

impl Tables {
    /// The tables of a module.
    pub fn new(alloc: Global, m: &Module) -> Result<Tables, Memory>
        requires { CanRun m.now }
        ensures { IfOk result (AreTablesOf m.now) }
    {
        let rows = ReadRows::new(alloc, m)?;
        let shapes = shape_sizes(alloc, &m.code)?;
        Ok(Tables { rows, shapes })
    }

    /// The words of an item of a site, and 0 where there is no such site.
    pub(crate) fn item_words(&self, m: &Module, site: u16) -> u32
        requires { AreTablesOf m.now self.now }
        ensures { result ≡ item_words m.now.code site }
    {
        match m.code.sites.get(site as usize) {
            None => 0,
            Some(site) => self.shapes.get(site.shape as usize).copied().unwrap_or(0),
        }
    }
}
