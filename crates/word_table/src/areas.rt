ghost use Rattle.std.specs.Prelude.{◌≡◌, ◌≤◌, ◌+◌, ◌++◌, length, replicate, slice_index, IfOk, ◌<◌, ◌^◌};
ghost use Rattle.tac_ir.specs.Words.{word_of};
ghost use Rattle.tac_ir.specs.Answers.{class_of};
ghost use Rattle.word_table.specs.tools.Classes.{AreShort};
ghost use Rattle.word_table.specs.tools.Areas.{areas_from, area_words, memory_of};

use crate::classes::class_of;
use dfi_base::Memory;
use std::alloc::Global;
use tac_ir::{Global as Variable, Module};

/// What the words of a global hold at the start: a value and a class.
#[derive(Clone, Copy)]
pub struct Area {
    pub words: u32,
    pub value: u32,
    pub class: u16,
}

// Words 0 to 15 belong to no global.
const RESERVED: usize = 16;

/// The areas of the globals, in their order, by the words of each shape.
pub fn areas_of(alloc: Global, m: &Module, sizes: &[u32]) -> Result<Vec<Area>, Memory>
    requires short { AreShort m.now }
    requires few { length m.now.code.globals ≤ 65536 }
    ensures { IfOk result (λ areas. areas.items ≡ areas_from sizes.now m.now 0 m.now.code.globals) }
{
    let mut areas = Vec::new(alloc);
    for (g, global) in m.code.globals.as_slice().iter().enumerate() {
        areas.push(area_of(global, sizes, class_of(m, g as u32 + 1)))?;
    }
    Ok(areas)
}

fn area_of(global: &Variable, sizes: &[u32], class: u16) -> Area
    ensures { result ≡ record { words = slice_index sizes.now global.now.shape; value = word_of global.now.start; class = class } }
{
    let words = match sizes.get(global.shape as usize) {
        Some(words) => *words,
        None => 0,
    };
    Area {
        words,
        value: global.start.cast_unsigned(),
        class,
    }
}

/// The value of each word of a memory of this size.
pub fn values_of(alloc: Global, size: u32, areas: &[Area]) -> Result<Vec<u32>, Memory>
    requires { 16 + area_words areas.now ≤ size }
    ensures { IfOk result (λ cells. cells.items ≡ memory_of (λ a. a.value) size areas.now) }
{
    let mut cells = Vec::new(alloc);
    push_run(&mut cells, RESERVED, 0)?;
    for area in areas {
        push_run(&mut cells, area.words as usize, area.value)?;
    }
    let rest = size as usize - cells.len();
    push_run(&mut cells, rest, 0)?;
    Ok(cells)
}

/// The class of the starting definition of each word of a memory of this size.
pub fn classes_of(alloc: Global, size: u32, areas: &[Area]) -> Result<Vec<u16>, Memory>
    requires { 16 + area_words areas.now ≤ size }
    ensures { IfOk result (λ cells. cells.items ≡ memory_of (λ a. a.class) size areas.now) }
{
    let mut cells = Vec::new(alloc);
    push_run(&mut cells, RESERVED, 0)?;
    for area in areas {
        push_run(&mut cells, area.words as usize, area.class)?;
    }
    let rest = size as usize - cells.len();
    push_run(&mut cells, rest, 0)?;
    Ok(cells)
}

// Adds so many copies of a value.
fn push_run<T: Copy>(cells: &mut Vec<T>, count: usize, value: T) -> Result<(), Memory>
    requires { length cells.old.items + count < 2 ^ 32 }
    ensures { IfOk result (λ _. cells.new.items ≡ cells.old.items ++ replicate count value) }
{
    let end = cells.len() + count;
    cells.resize(end, value)?;
    Ok(())
}
