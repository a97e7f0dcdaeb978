ghost use Rattle.std.specs.Prelude.{◌≡◌, ℕ, ◌+◌, ◌<◌, ◌^◌, map, sum, slice_index, IfOk};
ghost use Rattle.tac_ir.specs.GoodForm.{GoodForm};
ghost use Rattle.tac_ir.specs.Layout.{shape_words};
ghost use Rattle.code_layout.specs.tools.Offsets.{frame_by};

use crate::offsets::offsets_of;
use crate::shapes::words_of_all;
use crate::temps::temps_in;
use dfi_base::Memory;
use sqlite_items::Items;
use std::alloc::Global;
use tac_ir::{Code, Fun};

/// The frame of a function: its words, the words before each variable, and how many temporaries an activation has.
#[derive(Drop)]
pub struct Frame {
    pub words: u32,
    pub vars: Items<u32>,
    pub temps: u64,
}

/// The frame of each function, by the words of each shape.
pub fn frames_of(alloc: Global, code: &Code, sizes: &[u32]) -> Result<Items<Frame>, Memory>
    requires form { GoodForm code.now }
    requires sizes { (s : ℕ) → slice_index sizes.now s ≡ shape_words code.now s }
    ensures { IfOk result (λ frames. frames ≡ map (frame_by (slice_index sizes.now)) code.now.funs) }
{
    let mut frames = Vec::new(alloc);
    for fun in code.funs.as_slice() {
        let frame = frame_of(alloc, fun, sizes)?;
        frames.push(frame)?;
    }
    Ok(Items::from_vec(frames))
}

fn frame_of(alloc: Global, fun: &Fun, sizes: &[u32]) -> Result<Frame, Memory>
    requires { 1 + sum (map (slice_index sizes.now) fun.now.vars) < 2 ^ 32 }
    ensures { IfOk result (λ frame. frame ≡ frame_by (slice_index sizes.now) fun.now) }
{
    let vars = offsets_of(alloc, 1, fun.vars.as_slice(), sizes)?;
    Ok(Frame {
        words: 1 + words_of_all(fun.vars.as_slice(), sizes),
        vars,
        temps: temps_in(fun.params as u64, fun.code.as_slice()),
    })
}
