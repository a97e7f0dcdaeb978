//! The syntax tree of a source. An enum has a variant for every form that can stand at its place, with fields from left to
//! right. `line` tells where a node begins; a node without it begins with a type, a declarator or an identifier, which has
//! one. A parenthesis leaves no trace but in the shape of the tree, and in the line of a whole that begins with one.
#![tactic(auto)]

mod decl;
mod expr;
mod ident;
mod program;
mod stmt;

pub use decl::{
    Base, Brackets, Decl, DeclItem, Declarator, Param, Params, ProtoParam, ProtoParams, ResultType,
    TypeName,
};
pub use expr::{BinaryOp, Expr, Form, UnaryOp};
pub use ident::Ident;
pub use program::{Ast, Field, Function, Item, Proto, StructDef};
pub use stmt::{AssignOp, Block, BlockItem, ForStart, Simple, Stmt};
