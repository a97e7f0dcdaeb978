ghost use Rattle.std.specs.Prelude.{◌≡◌, ◌<◌, ◌≤◌, ◌^◌, ◌+◌, ◌-◌, length, slice_index};
ghost use Rattle.tac_ir.specs.GoodForm.{GoodForm};
ghost use Rattle.tac_ir.specs.Places.{IsPlace};
ghost use Rattle.tac_ir.specs.Layout.{words_before, parts_of, vars_of, shapes_of_globals, along, place_word, frame_words};
ghost use Rattle.code_layout.specs.LayoutOf.{IsLayoutOf};
ghost use Rattle.code_layout.specs.LeadsTo.{LeadsTo};
ghost use Rattle.code_layout.specs.tools.Fitting.{IsFitting};

use crate::layout::Layout;
use tac_ir::{Code, Place, Shape};

impl Layout {
    /// The first word of a place, in a frame from word `base` on.
    pub fn place_word(&self, c: &Code, fun: u32, base: u32, place: &Place) -> u32
        requires form { GoodForm c.now }
        requires laid { IsLayoutOf c.now self.now }
        requires place { IsPlace c.now fun place.now }
        requires frame { base + frame_words c.now fun < 2 ^ 32 }
        ensures { result ≡ place_word c.now fun base place.now }
    {
        match place {
            Place::Global { var, path } => self.global_word(c, *var, path.as_slice()),
            Place::Local { var, path } => self.local_word(c, fun, base, *var, path.as_slice()),
        }
    }

    /// How far the part at the end of a path of fields stands behind the first word of a shape.
    pub fn along(&self, c: &Code, shape: u32, path: &[u32]) -> u32
        requires form { GoodForm c.now }
        requires laid { IsLayoutOf c.now self.now }
        requires path { LeadsTo c.now shape path.now }
        ensures { result ≡ along c.now shape path.now }
    {
        let mut total = 0;
        let mut here = shape;
        for k in path {
            total += self.field_offset(here, *k);
            here = shape_at(parts_of(c, here), *k);
        }
        total
    }

    fn global_word(&self, c: &Code, var: u32, path: &[u32]) -> u32
        requires form { GoodForm c.now }
        requires laid { IsLayoutOf c.now self.now }
        requires fits { IsFitting c.now (shapes_of_globals c.now) var path.now 8176 }
        ensures { result ≡ 16 + words_before c.now (shapes_of_globals c.now) var
            + along c.now (slice_index (shapes_of_globals c.now) var) path.now }
    {
        self.global_start(var) + self.along(c, shape_of_global(c, var), path)
    }

    fn local_word(&self, c: &Code, fun: u32, base: u32, var: u32, path: &[u32]) -> u32
        requires form { GoodForm c.now }
        requires laid { IsLayoutOf c.now self.now }
        requires fits { IsFitting c.now (vars_of c.now fun) var path.now (frame_words c.now fun - 1) }
        requires frame { base + frame_words c.now fun < 2 ^ 32 }
        ensures { result ≡ base + 1 + words_before c.now (vars_of c.now fun) var
            + along c.now (slice_index (vars_of c.now fun) var) path.now }
    {
        base + self.var_offset(fun, var) + self.along(c, shape_at(vars_of(c, fun), var), path)
    }
}

// The parts of a struct.
fn parts_of(c: &Code, shape: u32) -> &[u32]
    ensures { result.now ≡ parts_of c.now shape }
{
    match c.shapes.get(shape as usize) {
        Some(Shape::Struct { parts }) => parts.as_slice(),
        _ => &[],
    }
}

// The variables of a function.
fn vars_of(c: &Code, fun: u32) -> &[u32]
    ensures { result.now ≡ vars_of c.now fun }
{
    match c.funs.get(fun as usize) {
        None => &[],
        Some(fun) => fun.vars.as_slice(),
    }
}

// The shape of variable `n`, and 0 where there is none.
fn shape_at(shapes: &[u32], n: u32) -> u32
    ensures { result ≡ slice_index shapes.now n }
{
    shapes.get(n as usize).copied().unwrap_or(0)
}

fn shape_of_global(c: &Code, var: u32) -> u32
    requires { var < length (shapes_of_globals c.now) }
    ensures { result ≡ slice_index (shapes_of_globals c.now) var }
{
    c.globals.as_slice()[var as usize].shape
}
