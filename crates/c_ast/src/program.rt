//! Whole programs (C99 6.9).

use crate::decl::{Base, Decl, Declarator, Params, ProtoParams, ResultType};
use crate::ident::Ident;
use crate::stmt::{Block, Stmt};
use dfi_base::{Line, Text};
use sqlite_items::Items;
use std::marker::Model;

/// A struct and its fields, at least one.
#[derive(Drop)]
pub struct StructDef {
    pub line: Line,
    pub tag: Ident,
    pub fields: Items<Field>,
}

/// A base and at least one field of it.
#[derive(Drop)]
pub struct Field {
    pub base: Base,
    pub items: Items<Declarator>,
}

#[derive(Drop)]
pub struct Function {
    pub result: ResultType,
    pub name: Ident,
    pub params: Params,
    pub body: Block<Stmt>,
}

#[derive(Drop)]
pub struct Proto {
    pub result: ResultType,
    pub name: Ident,
    pub params: ProtoParams,
}

#[derive(Drop)]
pub enum Item {
    Struct(StructDef),
    Decl(Decl),
    Function(Function),
    Proto(Proto),
}

/// A whole program, its names by their numbers, and the line of its last byte (1 where it has none).
#[derive(Drop)]
pub struct Ast {
    pub items: Items<Item>,
    pub names: Items<Text>,
    pub last: Line,
}

impl Model for Ast {
    ghost use Rattle.c_ast.specs.Ast.{Ast, IsBuilt};
    ghost use Rattle.c_ast.specs.contracts.program.Item as item;
    ghost use Rattle.std.specs.Coded.{codes};

    ghost Value = { Ast };

    ghost coded = { Prim.hlevel (codes, item.the_row.coded) };

    ghost view = { λ a. record { items = a.items; names = a.names; last = a.last } };

    ghost invariant = { λ a. IsBuilt a.items a.names };
}
