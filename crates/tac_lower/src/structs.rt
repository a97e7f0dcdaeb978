//! The structs of a program.

ghost use Rattle.std.specs.Prelude.{◌≡◌, length};
ghost use Rattle.c_typed.specs.declared.types.BaseType.{BaseType};
ghost use Rattle.c_typed.specs.Types.{base_words};
ghost use Rattle.c_typed.specs.IsWell.{sizes_in};

use c_typed::Struct;
use std::alloc::Global;
use std::marker::Model;

/// The structs of a program in the order of the text, and where copies are made.
#[derive(Drop)]
pub struct Structs<'a> {
    alloc: Global,
    items: &'a [Struct],
}

impl<'a> Model for Structs<'a> {
    ghost use Rattle.std.specs.Prelude.{List};
    ghost use Rattle.c_typed.specs.declared.program.Struct.{Struct};

    ghost Value = { List Struct };

    ghost view = { λ s. s.items.now };
}

impl<'a> Structs<'a> {
    pub(crate) fn new(alloc: Global, items: &'a [Struct]) -> Structs<'a>
        ensures { result ≡ items.now }
    {
        Structs { alloc, items }
    }

    pub(crate) fn alloc(&self) -> Global {
        self.alloc
    }

    pub(crate) fn items(&self) -> &'a [Struct]
        ensures { result.now ≡ self.now }
    {
        self.items
    }

    pub(crate) fn len(&self) -> usize
        ensures { result ≡ length self.now }
    {
        self.items.len()
    }

    /// The words of the struct of this number; none where there is no such struct.
    pub(crate) fn words(&self, number: u32) -> u32
        ensures { result ≡ base_words (sizes_in self.now) (BaseType.Struct number) }
    {
        match self.items.get(number as usize) {
            None => 0,
            Some(found) => found.words,
        }
    }
}
