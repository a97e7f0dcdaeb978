//! Numbers of structs and functions, in the order of the text.

ghost use Rattle.std.specs.Prelude.{◌≡◌, Ok};
ghost use Rattle.c_types.specs.tools.Steps.{Finds, Leaves};
ghost use Rattle.c_types.specs.tools.OutlineWalk as walk;

use crate::table::Table;
use crate::tags::number;
use c_ast::Item;
use c_typed::TypeFault;
use std::alloc::Global;

/// How many there are, and for each name the number of its first.
#[derive(Drop)]
pub struct Numbering {
    pub table: Table,
    pub count: u32,
}

impl Numbering {
    fn new(alloc: Global) -> Numbering
        ensures { result ≡ walk.no_numbers }
    {
        Numbering {
            table: Table::new(alloc),
            count: 0,
        }
    }

    fn put_first(&mut self, name: u32) -> Result<(), TypeFault>
        ensures { Leaves result self.new (Ok (tt, walk.with_first name self.old)) }
    {
        match self.table.get(name) {
            Some(_) => Ok(()),
            None => Ok(self.table.put(name, Some(self.count))?),
        }
    }

    /// Numbers the next one, which has this name.
    fn add(&mut self, name: u32) -> Result<(), TypeFault>
        ensures { Leaves result self.new (Ok (tt, walk.next name self.old)) }
    {
        self.put_first(name)?;
        self.count = number(self.count as usize + 1)?;
        Ok(())
    }

    fn add_tag(&mut self, item: &Item) -> Result<(), TypeFault>
        ensures { Leaves result self.new (Ok (tt, walk.with_tag item.now self.old)) }
    {
        match item {
            Item::Struct(d) => self.add(d.tag.name),
            _ => Ok(()),
        }
    }

    fn add_function(&mut self, item: &Item) -> Result<(), TypeFault>
        ensures { Leaves result self.new (Ok (tt, walk.with_function item.now self.old)) }
    {
        match item {
            Item::Function(f) => self.add(f.name.name),
            _ => Ok(()),
        }
    }
}

/// The structs, by their tags.
pub fn tags(alloc: Global, items: &[Item]) -> Result<Numbering, TypeFault>
    ensures { Finds result (Ok (walk.numbered walk.with_tag items.now walk.no_numbers)) }
{
    let mut numbering = Numbering::new(alloc);
    for item in items {
        numbering.add_tag(item)?;
    }
    Ok(numbering)
}

pub fn functions(alloc: Global, items: &[Item]) -> Result<Numbering, TypeFault>
    ensures { Finds result (Ok (walk.numbered walk.with_function items.now walk.no_numbers)) }
{
    let mut numbering = Numbering::new(alloc);
    for item in items {
        numbering.add_function(item)?;
    }
    Ok(numbering)
}
