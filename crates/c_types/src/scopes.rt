//! The variables that are known at a place, by scopes (C99 6.2.1).

ghost use Rattle.std.specs.Prelude.{◌≡◌, Ok};
ghost use Rattle.c_types.specs.tools.Steps.{Finds, Leaves};
ghost use Rattle.c_types.specs.tools.KnownSteps as steps;
ghost use Rattle.c_types.specs.tools.ProgramSteps.{no_scopes};

use crate::table::Table;
use crate::tags::number;
use c_typed::{ObjectType, TypeFault};
use sqlite_items::Items;
use std::alloc::Global;

/// Where a variable lives.
#[derive(Clone, Copy)]
pub enum Home {
    Global,
    Local,
}

/// A variable of an open scope.
#[derive(Drop)]
pub struct Binding {
    pub name: u32,
    pub home: Home,
    pub number: u32,
    pub object: ObjectType,
    /// The index of the binding of the same name that it hides.
    pub hidden: Option<u32>,
}

/// The bindings of the open scopes, the oldest first; where each open scope begins among them; and for each name the index
/// of its newest binding.
#[derive(Drop)]
pub struct Scopes {
    pub bindings: Items<Binding>,
    pub starts: Items<u32>,
    pub newest: Table,
}

fn drop_last(starts: &mut Items<u32>)
    ensures { starts.new ≡ steps.without_last starts.old }
{
    let _ = starts.pop();
}

impl Scopes {
    /// The program's own scope.
    pub fn new(alloc: Global) -> Result<Scopes, TypeFault>
        ensures { Finds result (Ok no_scopes) }
    {
        let mut starts = Items::new(alloc);
        starts.push(0)?;
        Ok(Scopes {
            bindings: Items::new(alloc),
            starts,
            newest: Table::new(alloc),
        })
    }

    /// The innermost scope's first index.
    #[tactic(auto, using(crate::proofs::ScopesLaws::start_past))]
    fn start(&self) -> u32
        ensures { result ≡ steps.start_of self.now.starts }
    {
        match self.starts.get(self.starts.len().saturating_sub(1)) {
            Some(start) => *start,
            None => 0,
        }
    }

    /// Whether the innermost scope has a binding of this name.
    pub fn has(&self, name: u32) -> bool
        ensures { result ≡ steps.is_bound_here self.now name }
    {
        match self.newest.get(name) {
            Some(at) => self.start() <= at,
            None => false,
        }
    }

    pub fn open(&mut self) -> Result<(), TypeFault>
        ensures { Leaves result self.new (Ok (tt, steps.opened self.old)) }
    {
        let start = number(self.bindings.len())?;
        self.starts.push(start)?;
        Ok(())
    }

    /// Leaves the innermost scope: what its bindings hide is known again.
    pub fn close(&mut self) -> Result<(), TypeFault>
        ensures { Leaves result self.new (Ok (tt, steps.closed self.old)) }
    {
        let start = self.start();
        drop_last(&mut self.starts);
        while self.bindings.len() > start as usize {
            if let Some(last) = self.bindings.pop() {
                self.newest.put(last.name, last.hidden)?;
            }
        }
        Ok(())
    }

    pub fn bind(
        &mut self,
        name: u32,
        home: Home,
        number_of: u32,
        object: ObjectType,
    ) -> Result<(), TypeFault>
        ensures { Leaves result self.new (Ok (tt, steps.bind name home number_of object self.old)) }
    {
        let at = number(self.bindings.len())?;
        let hidden = self.newest.get(name);
        self.bindings.push(Binding {
            name,
            home,
            number: number_of,
            object,
            hidden,
        })?;
        self.newest.put(name, Some(at))?;
        Ok(())
    }
}
