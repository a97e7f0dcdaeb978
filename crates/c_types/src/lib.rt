//! The types of a program: what each name means and each expression is, or the first rule that is broken.
#![tactic(auto)]

mod allocations;
mod blocks;
mod calls;
mod checker;
mod decls;
mod exprs;
mod functions;
mod gather;
mod globals;
mod held;
mod known;
mod members;
mod names;
mod nodes;
mod numbering;
mod operators;
mod outline;
mod outlines;
mod params;
mod programs;
mod protos;
mod rules;
mod scopes;
mod sentences;
mod shapes;
mod signatures;
mod stmts;
mod structs;
mod table;
mod tags;
mod words;

pub use c_typed::{
    BaseType, BigWhat, Branch, Condition, Expr, ExprType, Form, Function, Global, ObjectType,
    PrefixOp, Stmt, Struct, TypeFault, Typed, Variable,
};
pub use checker::check;
