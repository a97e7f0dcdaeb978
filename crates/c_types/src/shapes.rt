//! The structs of a text.

ghost use Rattle.std.specs.Prelude.{◌≡◌, ◌++◌, Ok, map};
ghost use Rattle.c_types.specs.tools.Steps.{Finds, Leaves};
ghost use Rattle.c_types.specs.tools.OutlineWalk as walk;

use crate::outline::{Member, Outline, Shape};
use crate::words::total;
use c_ast::{Base, Declarator, Field, Item, StructDef};
use c_typed::TypeFault;
use sqlite_items::Items;
use std::alloc::Global;

impl Outline {
    fn member(&self, alloc: Global, base: &Base, d: &Declarator) -> Result<Member, TypeFault>
        ensures { Finds result (Ok (walk.member self.now base.now d.now)) }
    {
        Ok(Member {
            name: d.name.name,
            object: self.declared_type(alloc, base, d)?,
        })
    }

    /// Adds the fields of one line.
    fn push_members(
        &self,
        alloc: Global,
        base: &Base,
        items: &[Declarator],
        out: &mut Items<Member>,
    ) -> Result<(), TypeFault>
        ensures { Leaves result out.new
            (Ok (tt, out.old ++ map (walk.member self.now base.now) items.now)) }
    {
        for d in items {
            out.push(self.member(alloc, base, d)?)?;
        }
        Ok(())
    }

    fn members(&self, alloc: Global, fields: &[Field]) -> Result<Items<Member>, TypeFault>
        ensures { Finds result (Ok (walk.members_of self.now fields.now)) }
    {
        let mut members = Items::new(alloc);
        for field in fields {
            self.push_members(alloc, &field.base, field.items.as_slice(), &mut members)?;
        }
        Ok(members)
    }

    /// The words of fields, up to one past the limit of a type.
    fn members_words(&self, members: &[Member]) -> u32
        ensures { result ≡ walk.words_from self.now 0 members.now }
    {
        let mut words = 0;
        for member in members {
            words = total(self.words(&member.object), words);
        }
        words
    }

    fn shape(&self, alloc: Global, d: &StructDef) -> Result<Shape, TypeFault>
        ensures { Finds result (Ok (walk.shape_of self.now d.now)) }
    {
        let members = self.members(alloc, d.fields.as_slice())?;
        let words = self.members_words(members.as_slice());
        Ok(Shape { members, words })
    }

    fn add_shape(&mut self, alloc: Global, item: &Item) -> Result<(), TypeFault>
        ensures { Leaves result self.new (Ok (tt, walk.with_shape item.now self.old)) }
    {
        match item {
            Item::Struct(d) => {
                let shape = self.shape(alloc, d)?;
                Ok(self.shapes.push(shape)?)
            }
            _ => Ok(()),
        }
    }

    /// Adds the structs: the words of each are by those of the structs before it.
    pub fn add_shapes(&mut self, alloc: Global, items: &[Item]) -> Result<(), TypeFault>
        ensures { Leaves result self.new (Ok (tt, walk.shaped items.now self.old)) }
    {
        for item in items {
            self.add_shape(alloc, item)?;
        }
        Ok(())
    }
}
