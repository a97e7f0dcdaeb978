//! Interned shapes.

ghost use Rattle.std.specs.Prelude.{◌≡◌, [], ◌∷◌, IfOk};
ghost use Rattle.tac_ir.specs.declared.code.Shape.{Shape};
ghost use Rattle.tac_lower.specs.tools.Keys.{shape_of};
ghost use Rattle.tac_lower.specs.tools.Interning.{AreFew};
ghost use Rattle.tac_lower.specs.Shapes.{entered, array_entry};

use dfi_base::Memory;
use indexmap::IndexSet;
use sqlite_items::Items;
use std::alloc::Global;
use std::marker::Model;
use tac_ir::Shape;

/// A shape as it is looked up.
#[derive(PartialEq, Eq, Hash, Drop)]
pub enum Key {
    Int,
    Ptr,
    Array { len: u32, item: u32 },
    Struct { parts: Vec<u32> },
}

/// Shapes, each once. The number of one is its place.
#[derive(Drop)]
pub struct Shapes {
    keys: IndexSet<Key>,
}

impl Model for Shapes {
    ghost use Rattle.std.specs.Prelude.{List, map};
    ghost use Rattle.tac_ir.specs.declared.code.Shape.{Shape};
    ghost use Rattle.tac_lower.specs.tools.Keys.{shape_of};

    ghost Value = { List Shape };

    ghost view = { λ shapes. map shape_of shapes.keys.keys };
}

impl Shapes {
    /// The shapes of `int` and of a pointer.
    pub(crate) fn new(alloc: Global) -> Result<Shapes, Memory>
        ensures { IfOk result (λ shapes. shapes ≡ Shape.Int ∷ Shape.Ptr ∷ []) }
    {
        let mut keys = IndexSet::new(alloc);
        keys.insert_full(Key::Int)?;
        keys.insert_full(Key::Ptr)?;
        Ok(Shapes { keys })
    }

    /// The number of a shape, which is the next one where the shape is new.
    pub(crate) fn number(&mut self, key: Key) -> Result<u32, Memory>
        requires { AreFew (entered self.old (shape_of key)).shapes }
        ensures { IfOk result (λ n. entered self.old (shape_of key) ≡ record { shapes = self.new; number = n }) }
    {
        let (place, _) = self.keys.insert_full(key)?;
        Ok(place as u32)
    }

    /// The number of arrays of these lengths, the outermost first, of a shape.
    pub(crate) fn arrays(&mut self, lengths: &[u32], item: u32) -> Result<u32, Memory>
        requires { AreFew (array_entry lengths.now (record { shapes = self.old; number = item })).shapes }
        ensures { IfOk result (λ n. array_entry lengths.now (record { shapes = self.old; number = item }) ≡ record { shapes = self.new; number = n }) }
    {
        let mut number = item;
        for i in (0..lengths.len()).rev() {
            number = self.number(Key::Array {
                len: lengths[i],
                item: number,
            })?;
        }
        Ok(number)
    }
}

fn shape(key: Key) -> Shape
    ensures { result ≡ shape_of key }
{
    match key {
        Key::Int => Shape::Int,
        Key::Ptr => Shape::Ptr,
        Key::Array { len, item } => Shape::Array { len, item },
        Key::Struct { parts } => Shape::Struct {
            parts: Items::from_vec(parts),
        },
    }
}

impl Shapes {
    /// The shapes in order.
    pub(crate) fn into_items(self, alloc: Global) -> Result<Items<Shape>, Memory>
        ensures { IfOk result (λ shapes. shapes ≡ self) }
    {
        let mut shapes = Items::new(alloc);
        for key in self.keys {
            shapes.push(shape(key))?;
        }
        Ok(shapes)
    }
}
