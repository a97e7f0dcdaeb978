//! Typed expressions (C99 6.5).

use crate::types::{ExprType, ObjectType};
use c_ast::BinaryOp;
use sqlite_items::{Boxed, Items};

/// `-`, `~` and `!`. A `+` before an operand leaves nothing behind.
#[derive(Clone, Copy)]
pub enum PrefixOp {
    Minus,
    Complement,
    Not,
}

/// An expression with its type.
#[cycle(expr)]
#[derive(Drop)]
pub struct Expr {
    pub typing: ExprType,
    pub form: Form,
}

#[cycle(expr)]
#[derive(Drop)]
pub enum Form {
    // Places.
    /// The global of this number, in the order of the text.
    Global(u32),
    /// The variable of this number in its function: parameters first, then the others in the order of the text.
    Local(u32),
    /// `*pointer`
    Deref(Boxed<Expr>),
    /// `pointer[index]`
    Index {
        pointer: Boxed<Expr>,
        index: Boxed<Expr>,
    },
    /// A field of a struct at a place, by its number.
    Field {
        whole: Boxed<Expr>,
        field: u32,
    },
    /// A field of the struct that a pointer points to.
    Arrow {
        pointer: Boxed<Expr>,
        field: u32,
    },
    // Values.
    Number(i32),
    Null,
    /// The value at a place, an `int` or a pointer.
    Read(Boxed<Expr>),
    /// The pointer to the first item of the array at a place.
    Decay(Boxed<Expr>),
    /// The pointer to a place.
    Address(Boxed<Expr>),
    Prefix {
        op: PrefixOp,
        operand: Boxed<Expr>,
    },
    Binary {
        left: Boxed<Expr>,
        op: BinaryOp,
        right: Boxed<Expr>,
    },
    /// A call of the function of this number, in the order of the text.
    Call {
        function: u32,
        arguments: Items<Expr>,
    },
    GetInt,
    Left,
    /// `malloc` of `count` items, or of one. Its site is numbered in the order of the code, over the whole program.
    New {
        site: u32,
        item: ObjectType,
        count: Option<Boxed<Expr>>,
    },
}
