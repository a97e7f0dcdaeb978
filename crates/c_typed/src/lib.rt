//! The types of a program: what each name means and each expression is, or the first rule that is broken.
#![tactic(auto)]

mod expr;
mod fault;
mod law;
mod program;
mod stmt;
mod types;

pub use expr::{Expr, Form, PrefixOp};
pub use fault::{BigWhat, TypeFault};
pub use law::typed_is_well;
pub use program::{Function, Global, Struct, Typed, Variable};
pub use stmt::{Branch, Condition, Stmt};
pub use types::{BaseType, ExprType, ObjectType};
