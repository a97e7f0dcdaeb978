//! Devices that tell nothing but their counts.

ghost use Rattle.std.specs.Prelude.{◌≡◌, None};
ghost use Rattle.dfi_io.specs.Outside.{faults_of_load, faults_of_write};

use dfi_io::{Library, LoadFault, Pad, Shelf, Sink, SinkFault};
use std::alloc::Global;
use std::marker::Model;

/// A library in memory.
#[derive(Drop)]
pub struct ClosedShelf {
    pub shelf: Shelf,
}

impl Model for ClosedShelf {
    ghost use Rattle.dfi_io.specs.ShelfView.{ShelfView};

    ghost Value = { ShelfView };

    ghost view = { λ closed. closed.shelf };
}

impl Library for ClosedShelf {
    ghost tells = { record {
      loads = λ before load after. after.faults ≡ faults_of_load before.faults load.gave;
      told = λ _. None;
      faults = λ shelf. shelf.faults;
      took = λ shelf. shelf.took;
    } };

    fn load(&mut self, alloc: Global, name: &[u8], limit: u64) -> Result<Vec<u8>, LoadFault> {
        self.shelf.load(alloc, name, limit)
    }
}

/// A sink in memory.
#[derive(Drop)]
pub struct ClosedPad {
    pub pad: Pad,
}

impl Model for ClosedPad {
    ghost use Rattle.dfi_io.specs.PadView.{PadView};

    ghost Value = { PadView };

    ghost view = { λ closed. closed.pad };
}

impl Sink for ClosedPad {
    ghost tells = { record {
      writes = λ before write after. after.faults ≡ faults_of_write before.faults write.failed;
      told = λ _. None;
      faults = λ pad. pad.faults;
    } };

    fn write(&mut self, piece: &[u8]) -> Result<(), SinkFault> {
        self.pad.write(piece)
    }
}
