//! Typed statements (C99 6.8, and `par`).

use crate::expr::Expr;
use c_ast::AssignOp;
use dfi_base::Line;
use sqlite_items::{Boxed, Items};

/// What is tested, an `int` or a pointer.
#[derive(Drop)]
pub struct Condition {
    /// The line of its first token.
    pub line: Line,
    pub value: Expr,
}

/// A branch of a `par`. `S` is [`Stmt`].
#[derive(Drop)]
pub struct Branch<S> {
    pub body: Items<S>,
    /// The line of its closing brace.
    pub close: Line,
}

/// A statement, with the line of its first token.
#[derive(Drop)]
pub enum Stmt {
    /// A block, an empty statement, or the declarations of a list of variables.
    Block(Items<Stmt>),
    /// An assignment, or the value of a declared variable.
    Assign {
        line: Line,
        target: Expr,
        op: AssignOp,
        value: Expr,
    },
    /// `++`, before or behind its operand.
    Increment {
        line: Line,
        target: Expr,
    },
    Decrement {
        line: Line,
        target: Expr,
    },
    /// A call of any other function, or of `getint`, `left` or `malloc`, whose value goes unused.
    Call {
        line: Line,
        call: Expr,
    },
    /// `putint` of an `int`.
    PutInt {
        line: Line,
        value: Expr,
    },
    /// `free` of a pointer.
    Free {
        line: Line,
        pointer: Expr,
    },
    Return {
        line: Line,
        value: Option<Expr>,
    },
    Break {
        line: Line,
    },
    Continue {
        line: Line,
    },
    If {
        line: Line,
        condition: Condition,
        first: Boxed<Stmt>,
        second: Option<Boxed<Stmt>>,
    },
    While {
        line: Line,
        condition: Condition,
        body: Boxed<Stmt>,
    },
    For {
        line: Line,
        start: Boxed<Stmt>,
        condition: Option<Condition>,
        step: Boxed<Stmt>,
        body: Boxed<Stmt>,
    },
    Par {
        line: Line,
        branches: Items<Branch<Stmt>>,
    },
}
