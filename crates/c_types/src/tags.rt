//! What a declaration and a type name begin with.

ghost use Rattle.std.specs.Prelude.{◌≡◌, nat_eq, Ok};
ghost use Rattle.c_types.specs.tools.Steps.{Finds};
ghost use Rattle.c_types.specs.tools.Outlines as outlines;

use crate::known::Known;
use crate::outline::Outline;
use c_ast::{Base, TypeName};
use c_typed::{BaseType, ObjectType, TypeFault};
use sqlite_items::Items;
use std::alloc::Global;

/// A number that fits the machine's smaller words.
pub fn number(count: usize) -> Result<u32, TypeFault>
    ensures { Finds result (Ok count) }
{
    match u32::try_from(count) {
        Ok(number) => Ok(number),
        Err(_) => Err(TypeFault::Memory),
    }
}

impl Outline {
    fn base_type(&self, base: &Base) -> Result<BaseType, TypeFault>
        ensures { Finds result (Ok (outlines.base_type self.now base.now)) }
    {
        match base {
            Base::Int { .. } => Ok(BaseType::Int),
            Base::Struct { tag, .. } => match self.tags.get(tag.name) {
                Some(number) => Ok(BaseType::Struct(number)),
                None => Ok(BaseType::Unknown),
            },
        }
    }

    pub fn pointers_to(
        &self,
        alloc: Global,
        base: &Base,
        stars: u64,
    ) -> Result<ObjectType, TypeFault>
        ensures { Finds result (Ok (outlines.pointers_to self.now base.now stars)) }
    {
        Ok(ObjectType {
            base: self.base_type(base)?,
            stars,
            lengths: Items::new(alloc),
        })
    }
}

/// The base of a declaration: a tag that is meant by value is that of a struct that is whole.
pub fn base(outline: &Outline, known: &Known, by_value: bool, base: &Base) -> Result<(), TypeFault>
    ensures { Finds result (outlines.base_walk outline.now known.now by_value base.now) }
{
    let Base::Struct { tag, .. } = base else {
        return Ok(());
    };
    let tags = if by_value {
        &known.declared.tags
    } else {
        &outline.tags
    };
    match tags.get(tag.name) {
        Some(_) => Ok(()),
        None => Err(TypeFault::Unknown { line: tag.line }),
    }
}

/// A type name of a cast or of `sizeof`.
pub fn type_name(
    alloc: Global,
    outline: &Outline,
    known: &Known,
    t: &TypeName,
) -> Result<ObjectType, TypeFault>
    ensures { Finds result (outlines.type_name_walk outline.now known.now t.now) }
{
    base(outline, known, t.stars == 0, &t.base)?;
    outline.pointers_to(alloc, &t.base, u64::from(t.stars))
}
