//! Typed programs.

use crate::stmt::Stmt;
use crate::types::ObjectType;
use dfi_base::Line;
use sqlite_items::Items;
use std::marker::Model;

/// A struct: the types of its fields in order, and the words that they take together.
#[derive(Drop)]
pub struct Struct {
    pub fields: Items<ObjectType>,
    pub words: u32,
}

#[derive(Drop)]
pub struct Global {
    /// The line of its name.
    pub line: Line,
    pub object: ObjectType,
    /// What it starts with; 0 where nothing is written, for `NULL`, and in each word of an array or a struct.
    pub start: i32,
}

/// A parameter or a local variable.
#[derive(Drop)]
pub struct Variable {
    /// The line of its name.
    pub line: Line,
    pub object: ObjectType,
}

#[derive(Drop)]
pub struct Function {
    /// The line of its name.
    pub line: Line,
    /// `None` for `void`.
    pub result: Option<ObjectType>,
    /// How many of the variables are parameters; they come first.
    pub parameters: u32,
    pub variables: Items<Variable>,
    pub body: Items<Stmt>,
    /// The line of the closing brace.
    pub close: Line,
}

/// A whole program with its types. It is that of a syntax tree that breaks no rule.
#[derive(Drop)]
pub struct Typed {
    /// In the order of the text, as globals and functions are.
    pub structs: Items<Struct>,
    pub globals: Items<Global>,
    pub functions: Items<Function>,
    /// The number of the function `main`.
    pub main: u32,
}

impl Model for Typed {
    ghost use Rattle.c_typed.specs.Typed.{Typed};
    ghost use Rattle.c_typed.specs.Checks.{IsTyped};
    ghost use Rattle.c_typed.specs.contracts.program.Struct as struct_;
    ghost use Rattle.c_typed.specs.contracts.program.Global as global;
    ghost use Rattle.c_typed.specs.contracts.program.Function as function;
    ghost use Rattle.std.specs.Coded.{codes};

    ghost Value = { Typed };

    ghost coded = { Prim.hlevel (codes, struct_.the_row.coded, global.the_row.coded, function.the_row.coded) };

    ghost view = { λ t. record { structs = t.structs; globals = t.globals; functions = t.functions; main = t.main } };

    ghost invariant = { λ t. IsTyped (record { structs = t.structs; globals = t.globals; functions = t.functions; main = t.main }) };
}
