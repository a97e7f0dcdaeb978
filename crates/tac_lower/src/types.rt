//! The shapes of types.

ghost use Rattle.std.specs.Prelude.{◌≡◌, ◌≤◌, [], ◌∷◌, length, IfOk};
ghost use Rattle.tac_ir.specs.declared.code.Shape.{Shape};
ghost use Rattle.tac_lower.specs.tools.Interning.{AreFew, IsKept, Entered, Enters, Interned, first_structs};
ghost use Rattle.tac_lower.specs.Shapes.{base_entry, object_entry, part_entries, entry};

use crate::shapes::{Key, Shapes};
use crate::structs::Structs;
use c_typed::{BaseType, ObjectType};
use dfi_base::Memory;

/// Numbers the shapes of types. A struct is looked at once: then its number is known.
#[derive(Drop)]
pub struct Interner {
    pub shapes: Shapes,
    pub known: Vec<Option<u32>>,
}

impl Interner {
    pub(crate) fn new(structs: &Structs) -> Result<Interner, Memory>
        ensures shapes { IfOk result (λ new. new.shapes ≡ Shape.Int ∷ Shape.Ptr ∷ []) }
        ensures kept { IfOk result (λ new. IsKept structs.now new.known.items new.shapes) }
    {
        let shapes = Shapes::new(structs.alloc())?;
        let known = vec![in structs.alloc(); None; structs.len()]?;
        Ok(Interner { shapes, known })
    }

    /// A struct, where the first `limit` alone may be named.
    #[cycle(types)]
    fn struct_number(
        &mut self,
        structs: &Structs,
        limit: usize,
        number: usize,
    ) -> Result<u32, Memory>
        requires limit { limit ≤ length structs.now }
        requires kept { IsKept structs.now self.old.known.items self.old.shapes }
        requires few { AreFew (first_structs structs.now limit number self.old.shapes).shapes }
        ensures { IfOk result (λ n. Enters structs.now (first_structs structs.now limit number) self.old self.new n) }
    {
        if number >= limit {
            return Ok(0);
        }
        if let Some(known) = self.known[number] {
            return Ok(known);
        }
        let items = structs.items();
        let fields = items[number].fields.as_slice();
        let parts = self.parts(structs, number, fields)?;
        let shape = self.shapes.number(Key::Struct { parts })?;
        self.known[number] = Some(shape);
        Ok(shape)
    }

    #[cycle(types)]
    fn parts(
        &mut self,
        structs: &Structs,
        limit: usize,
        fields: &[ObjectType],
    ) -> Result<Vec<u32>, Memory>
        requires limit { limit ≤ length structs.now }
        requires kept { IsKept structs.now self.old.known.items self.old.shapes }
        requires few { AreFew (part_entries (first_structs structs.now limit) [] fields.now self.old.shapes).shapes }
        ensures { IfOk result (λ parts. Entered structs.now
            (λ shapes. (part_entries (first_structs structs.now limit) [] fields.now shapes).shapes)
            (λ shapes. (part_entries (first_structs structs.now limit) [] fields.now shapes).numbers) self.old self.new parts.items) }
    {
        let mut parts = Vec::new(structs.alloc());
        for field in fields {
            let part = self.object(structs, limit, field)?;
            parts.push(part)?;
        }
        Ok(parts)
    }

    #[cycle(types)]
    fn base(
        &mut self,
        structs: &Structs,
        limit: usize,
        base: BaseType,
        stars: u64,
    ) -> Result<u32, Memory>
        requires limit { limit ≤ length structs.now }
        requires kept { IsKept structs.now self.old.known.items self.old.shapes }
        requires few { AreFew (base_entry (first_structs structs.now limit) base stars self.old.shapes).shapes }
        ensures { IfOk result (λ n. Enters structs.now (base_entry (first_structs structs.now limit) base stars) self.old self.new n) }
    {
        if stars > 0 {
            return Ok(1);
        }
        match base {
            BaseType::Int | BaseType::Unknown => Ok(0),
            BaseType::Struct(number) => { self.struct_number(structs, limit, number as usize) }
        }
    }

    #[cycle(types)]
    fn object(
        &mut self,
        structs: &Structs,
        limit: usize,
        object: &ObjectType,
    ) -> Result<u32, Memory>
        requires limit { limit ≤ length structs.now }
        requires kept { IsKept structs.now self.old.known.items self.old.shapes }
        requires few { AreFew (object_entry (first_structs structs.now limit) object.now self.old.shapes).shapes }
        ensures { IfOk result (λ n. Enters structs.now (object_entry (first_structs structs.now limit) object.now) self.old self.new n) }
    {
        let item = self.base(structs, limit, object.base, object.stars)?;
        self.shapes.arrays(object.lengths.as_slice(), item)
    }

    /// The number of the shape of a type.
    pub(crate) fn number(&mut self, structs: &Structs, object: &ObjectType) -> Result<u32, Memory>
        requires kept { IsKept structs.now self.old.known.items self.old.shapes }
        requires few { AreFew (entry structs.now object.now self.old.shapes).shapes }
        ensures { IfOk result (λ n. Interned structs.now (object.now ∷ []) (λ shape. shape object.now) self.old self.new n) }
    {
        self.object(structs, structs.len(), object)
    }
}
