ghost use Rattle.std.specs.Prelude.{◌≡◌, ℕ, ◌+◌, ◌<◌, ◌^◌, map, sum, slice_index, IfOk};
ghost use Rattle.tac_ir.specs.GoodForm.{GoodForm};
ghost use Rattle.tac_ir.specs.Layout.{shape_words};
ghost use Rattle.code_layout.specs.tools.Offsets.{offsets_from, parts_in, fields_by};

use crate::shapes::size_at;
use dfi_base::Memory;
use sqlite_items::Items;
use std::alloc::Global;
use tac_ir::{Code, Shape};

/// Where each of these shapes begins, one behind the other, from `from` on.
pub fn offsets_of(
    alloc: Global,
    from: u32,
    shapes: &[u32],
    sizes: &[u32],
) -> Result<Items<u32>, Memory>
    requires { from + sum (map (slice_index sizes.now) shapes.now) < 2 ^ 32 }
    ensures { IfOk result (λ row. row ≡ offsets_from (slice_index sizes.now) from shapes.now) }
{
    let mut offsets = Vec::new(alloc);
    let mut next = from;
    for shape in shapes {
        offsets.push(next)?;
        next += size_at(sizes, *shape);
    }
    Ok(Items::from_vec(offsets))
}

/// Where the fields of each shape begin, by the words of each shape.
pub fn fields_of(alloc: Global, code: &Code, sizes: &[u32]) -> Result<Items<Items<u32>>, Memory>
    requires form { GoodForm code.now }
    requires sizes { (s : ℕ) → slice_index sizes.now s ≡ shape_words code.now s }
    ensures { IfOk result (λ rows. rows ≡ map (fields_by (slice_index sizes.now)) code.now.shapes) }
{
    let mut rows = Vec::new(alloc);
    for shape in code.shapes.as_slice() {
        let row = offsets_of(alloc, 0, parts_in(shape), sizes)?;
        rows.push(row)?;
    }
    Ok(Items::from_vec(rows))
}

// The parts of a struct.
fn parts_in(shape: &Shape) -> &[u32]
    ensures { result.now ≡ parts_in shape.now }
{
    match shape {
        Shape::Struct { parts } => parts.as_slice(),
        _ => &[],
    }
}
