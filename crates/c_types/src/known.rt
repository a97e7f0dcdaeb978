//! What is known at a place of the text.

ghost use Rattle.std.specs.Prelude.{◌≡◌, Ok};
ghost use Rattle.c_types.specs.tools.Steps.{Finds, Leaves};
ghost use Rattle.c_types.specs.tools.KnownSteps as steps;
ghost use Rattle.c_types.specs.tools.ProgramSteps.{frame_of, nothing_declared, nothing_known};
ghost use Rattle.c_types.specs.tools.StmtWalk.{in_loop};

use crate::outline::Outline;
use crate::scopes::{Home, Scopes};
use crate::table::Table;
use crate::tags::number;
use crate::words::total;
use c_ast::Ident;
use c_typed::{Global, ObjectType, TypeFault, Variable};
use sqlite_items::Items;
use std::alloc;

/// The function round a place: its result, its variables so far and the words of its frame, up to one past the limit.
#[derive(Drop)]
pub struct Frame {
    pub result: Option<ObjectType>,
    pub variables: Items<Variable>,
    pub words: u32,
}

/// What the program has declared so far.
#[derive(Drop)]
pub struct Declared {
    /// The tags of the structs that are whole.
    pub tags: Table,
    /// The number of the struct in which a name was last a field.
    pub fields: Table,
    /// The structs that have begun.
    pub structs: u32,
    /// The words of the struct round a place, up to one past the limit.
    pub field_words: u32,
    pub globals: Items<Global>,
    pub global_words: u32,
    pub global_names: Table,
    pub functions: u32,
    pub function_names: Table,
    pub prototype_names: Table,
}

#[derive(Drop)]
pub struct Known {
    pub scopes: Scopes,
    pub frame: Frame,
    pub declared: Declared,
}

/// What stands round a statement.
#[derive(Clone, Copy)]
pub struct Around {
    /// A loop, and no branch of a `par` inside it.
    pub in_loop: bool,
    pub in_branch: bool,
}

impl Frame {
    /// The frame of a function with this result: a word for the link.
    pub fn new(alloc: alloc::Global, result_type: Option<ObjectType>) -> Frame
        ensures { result ≡ frame_of result_type }
    {
        Frame {
            result: result_type,
            variables: Items::new(alloc),
            words: 1,
        }
    }
}

impl Declared {
    fn new(alloc: alloc::Global) -> Declared
        ensures { result ≡ nothing_declared }
    {
        Declared {
            tags: Table::new(alloc),
            fields: Table::new(alloc),
            structs: 0,
            field_words: 0,
            globals: Items::new(alloc),
            global_words: 0,
            global_names: Table::new(alloc),
            functions: 0,
            function_names: Table::new(alloc),
            prototype_names: Table::new(alloc),
        }
    }
}

impl Known {
    /// What is known before the first item.
    pub fn new(alloc: alloc::Global) -> Result<Known, TypeFault>
        ensures { Finds result (Ok nothing_known) }
    {
        Ok(Known {
            scopes: Scopes::new(alloc)?,
            frame: Frame::new(alloc, None),
            declared: Declared::new(alloc),
        })
    }

    pub fn into_globals(self) -> Items<Global>
        ensures { result ≡ self.declared.globals }
    {
        let Known { declared, .. } = self;
        let Declared { globals, .. } = declared;
        globals
    }

    pub fn open(&mut self) -> Result<(), TypeFault>
        ensures { Leaves result self.new (Ok (tt, steps.entered self.old)) }
    {
        self.scopes.open()
    }

    pub fn close(&mut self) -> Result<(), TypeFault>
        ensures { Leaves result self.new (Ok (tt, steps.exited self.old)) }
    {
        self.scopes.close()
    }

    /// Declares a variable of the function, or a parameter.
    pub fn declare_local(
        &mut self,
        alloc: alloc::Global,
        outline: &Outline,
        x: Ident,
        object: &ObjectType,
    ) -> Result<(), TypeFault>
        ensures { Leaves result self.new
            (Ok (tt, steps.declare_local outline.now x object.now self.old)) }
    {
        let at = number(self.frame.variables.len())?;
        self.scopes
            .bind(x.name, Home::Local, at, object.copy(alloc)?)?;
        self.frame.words = total(outline.words(object), self.frame.words);
        self.frame.variables.push(Variable {
            line: x.line,
            object: object.copy(alloc)?,
        })?;
        Ok(())
    }
}

impl Around {
    pub fn in_a_loop(self) -> Around
        ensures { result ≡ in_loop self }
    {
        Around {
            in_loop: true,
            in_branch: self.in_branch,
        }
    }
}
