ghost use Rattle.std.specs.Prelude.{◌≡◌, ℕ, ◌<◌, ◌^◌, length, map, sum, slice_index, IfOk};
ghost use Rattle.tac_ir.specs.Layout.{words_by, shape_words};
ghost use Rattle.code_layout.specs.LaidOut.{IsLaidOut};

use dfi_base::Memory;
use std::alloc::Global;
use tac_ir::{Code, Shape};

/// The words of each shape, in the order of their numbers.
pub fn shape_sizes(alloc: Global, code: &Code) -> Result<Vec<u32>, Memory>
    requires { IsLaidOut code.now }
    ensures count { IfOk result (λ v. length v.items ≡ length code.now.shapes) }

    // Also past the end, where both are 0.
    ensures sizes { IfOk result (λ v. (s : ℕ) → slice_index v.items s ≡ shape_words code.now s) }
{
    let mut sizes = Vec::new(alloc);
    for shape in code.shapes.as_slice() {
        let words = words_of(shape, sizes.as_slice());
        sizes.push(words)?;
    }
    Ok(sizes)
}

// The words of a shape, by those of the shapes before it.
fn words_of(shape: &Shape, sizes: &[u32]) -> u32
    requires { words_by (slice_index sizes.now) shape.now < 2 ^ 32 }
    ensures { result ≡ words_by (slice_index sizes.now) shape.now }
{
    match shape {
        Shape::Int | Shape::Ptr => 1,
        Shape::Array { len, item } => *len * size_at(sizes, *item),
        Shape::Struct { parts } => words_of_all(parts.as_slice(), sizes),
    }
}

/// The words of all these shapes.
pub(crate) fn words_of_all(shapes: &[u32], sizes: &[u32]) -> u32
    requires { sum (map (slice_index sizes.now) shapes.now) < 2 ^ 32 }
    ensures { result ≡ sum (map (slice_index sizes.now) shapes.now) }
{
    shapes.iter().map(|shape| size_at(sizes, *shape)).sum()
}

/// The words of shape `shape`, and 0 where there is none.
pub(crate) fn size_at(sizes: &[u32], shape: u32) -> u32
    ensures { result ≡ slice_index sizes.now shape }
{
    sizes.get(shape as usize).copied().unwrap_or(0)
}
