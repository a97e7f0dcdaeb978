//! Numbers for some of the names.

ghost use Rattle.std.specs.Prelude.{◌≡◌, [], OnOk, is_some};
ghost use Rattle.c_types.specs.tools.Tables.{looked, put};

use sqlite_items::Items;
use std::alloc::{AllocError, Global};

/// An entry for each name, at the name's number; names past the end have none.
#[derive(Drop)]
pub struct Table {
    pub entries: Items<Option<u32>>,
}

impl Table {
    pub fn new(alloc: Global) -> Table
        ensures { result ≡ record { entries = [] } }
    {
        Table {
            entries: Items::new(alloc),
        }
    }

    #[tactic(auto, using(crate::proofs::TableLaws::looked_past))]
    pub fn get(&self, name: u32) -> Option<u32>
        ensures { result ≡ looked self.now name }
    {
        match self.entries.get(name as usize) {
            Some(entry) => *entry,
            None => None,
        }
    }

    pub fn has(&self, name: u32) -> bool
        ensures { result ≡ is_some (looked self.now name) }
    {
        match self.get(name) {
            None => false,
            Some(_) => true,
        }
    }

    pub fn put(&mut self, name: u32, entry: Option<u32>) -> Result<(), AllocError>
        ensures { OnOk result (self.new ≡ put name entry self.old) }
    {
        while self.entries.len() <= name as usize {
            self.entries.push(None)?;
        }
        self.entries.set(name as usize, entry);
        Ok(())
    }
}
