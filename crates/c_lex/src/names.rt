//! Names, numbered in the order in which they are first seen.
ghost use Rattle.std.specs.Prelude.{◌≡◌, ◌+◌, ◌≤◌, ◌<◌, ◌^◌, [], length, slice_get, IfOk, OnOk};
ghost use Rattle.c_lex.specs.Names.{with_name};

use dfi_base::{Memory, Text};
use indexmap::IndexSet;
use sqlite_items::Items;
use std::alloc::Global;
use std::marker::Model;

/// The names so far, each as it stands in the source.
#[derive(Drop)]
pub struct Names<'a> {
    set: IndexSet<&'a [u8]>,
}

impl<'a> Model for Names<'a> {
    ghost use Rattle.std.specs.Prelude.{List, ℕ, map};

    ghost Value = { List (List ℕ) };

    ghost view = { λ names. map (λ name. name.now) names.set.keys };
}

impl<'a> Names<'a> {
    /// No name.
    pub fn new(alloc: Global) -> Names<'a>
        ensures { result ≡ [] }
    {
        Names {
            set: IndexSet::new(alloc),
        }
    }

    /// The number of this name, which is the next one where the name is new.
    pub fn number(&mut self, name: &'a [u8]) -> Result<u32, Memory>
        requires { length self.old < 2 ^ 31 }
        ensures names { OnOk result (self.new ≡ with_name self.old name.now) }
        ensures number { IfOk result (λ number. slice_get self.new number ≡ Some name.now) }
    {
        let (number, _) = self.set.insert_full(name)?;
        Ok(number as u32)
    }

    /// Copies of the names, in order.
    pub fn texts(&self, alloc: Global) -> Result<Items<Text>, Memory>
        ensures { IfOk result (λ texts. texts ≡ self.now) }
    {
        let mut texts = Items::new(alloc);
        for name in self.set.iter() {
            texts.push(Text::new(alloc, name)?)?;
        }
        Ok(texts)
    }
}
