ghost use Rattle.std.specs.Prelude.{◌≡◌, ◌+◌, ◌<◌, length, slice_get, IfOk, MatchOption};
ghost use Rattle.std.specs.Option.{option_copied};
ghost use Rattle.tac_ir.specs.declared.code.Code.{Code};
ghost use Rattle.tac_ir.specs.GoodForm.{GoodForm};
ghost use Rattle.tac_ir.specs.Layout.{shape_words, words_before, parts_of, vars_of, frame_words};
ghost use Rattle.tac_ir.specs.Counts.{temps_of};
ghost use Rattle.code_layout.specs.LaidOut.{global_start};
ghost use Rattle.code_layout.specs.LayoutOf.{IsLayoutOf, item_of};

use crate::frames::{Frame, frames_of};
use crate::globals::global_starts;
use crate::offsets::fields_of;
use crate::shapes::{shape_sizes, size_at};
use dfi_base::Memory;
use sqlite_items::Items;
use std::alloc::Global;
use tac_ir::Code;

/// The words of all shapes and frames of a code, and the offsets of all fields and variables. Each call takes the same time in every code.
#[derive(Drop)]
pub struct Layout {
    pub(crate) shapes: Items<u32>,
    pub(crate) fields: Items<Items<u32>>,
    pub(crate) globals: Items<u32>,
    pub(crate) frames: Items<Frame>,
}

impl Layout {
    /// The layout of a code.
    #[tactic(auto, using(crate::proofs::Placed::laid_out))]
    pub fn of(alloc: Global, code: &Code) -> Result<Layout, Memory>
        requires { GoodForm code.now }
        ensures { IfOk result (IsLayoutOf code.now) }
    {
        let shapes = shape_sizes(alloc, code)?;
        let globals = global_starts(alloc, code)?;
        let fields = fields_of(alloc, code, shapes.as_slice())?;
        let frames = frames_of(alloc, code, shapes.as_slice())?;
        Ok(Layout {
            shapes: Items::from_vec(shapes),
            fields,
            globals: Items::from_vec(globals),
            frames,
        })
    }

    /// The words of a shape, and 0 where there is none.
    pub fn shape_words(&self, shape: u32) -> u32
        ensures { (c : Code) → IsLayoutOf c self.now → result ≡ shape_words c shape }
    {
        size_at(self.shapes.as_slice(), shape)
    }

    /// How far field `k` stands behind the first word of the struct of this shape.
    pub fn field_offset(&self, shape: u32, k: u32) -> u32
        ensures { (c : Code) → IsLayoutOf c self.now → k < length (parts_of c shape) → result ≡ words_before c (parts_of c shape) k }
    {
        item_of(self.fields.as_slice(), shape, k)
    }

    /// The first word of a global.
    pub fn global_start(&self, var: u32) -> u32
        ensures { (c : Code) → IsLayoutOf c self.now → var < length c.globals → result ≡ global_start c var }
    {
        size_at(self.globals.as_slice(), var)
    }

    /// How far a variable stands behind the first word of the frame of its function.
    pub fn var_offset(&self, fun: u32, var: u32) -> u32
        ensures { (c : Code) → IsLayoutOf c self.now → var < length (vars_of c fun) → result ≡ 1 + words_before c (vars_of c fun) var }
    {
        match self.frames.get(fun as usize) {
            None => 0,
            Some(frame) => size_at(frame.vars.as_slice(), var),
        }
    }

    /// The words of a frame: its link, and those of the variables.
    pub fn frame_words(&self, fun: u32) -> u32
        ensures { (c : Code) → IsLayoutOf c self.now → fun < length c.funs → result ≡ frame_words c fun }
    {
        match self.frames.get(fun as usize) {
            None => 0,
            Some(frame) => frame.words,
        }
    }

    /// How many temporaries an activation of a function has.
    pub fn temps_of(&self, fun: u32) -> u64
        ensures { (c : Code) → IsLayoutOf c self.now → result ≡ temps_of c fun }
    {
        match self.frames.get(fun as usize) {
            None => 0,
            Some(frame) => frame.temps,
        }
    }
}

fn item_of(rows: &[Items<u32>], s: u32, k: u32) -> u32
    ensures { result ≡ item_of rows.now s k }
{
    match rows.get(s as usize) {
        None => 0,
        Some(row) => size_at(row.as_slice(), k),
    }
}
