//! Expressions (C99 6.5).

use crate::decl::TypeName;
use crate::ident::Ident;
use dfi_base::Line;
use sqlite_items::{Boxed, Items};

/// `-`, `+`, `!`, `~`, `*` and `&` before an operand.
#[derive(Clone, Copy)]
pub enum UnaryOp {
    Minus,
    Plus,
    Not,
    Complement,
    Deref,
    Address,
}

/// The operators between two operands, lowest first.
#[derive(Clone, Copy)]
pub enum BinaryOp {
    Or,
    And,
    BitOr,
    BitXor,
    BitAnd,
    Equal,
    NotEqual,
    Less,
    Greater,
    LessEqual,
    GreaterEqual,
    ShiftLeft,
    ShiftRight,
    Add,
    Sub,
    Mul,
    Div,
    Rem,
}

/// An expression.
#[cycle(expr)]
#[derive(Drop)]
pub struct Expr {
    /// The line of its own first token: a parenthesis round it is none of its tokens.
    pub line: Line,
    pub form: Form,
}

#[cycle(expr)]
#[derive(Drop)]
pub enum Form {
    Binary {
        left: Boxed<Expr>,
        op: BinaryOp,
        right: Boxed<Expr>,
    },
    Unary {
        op: UnaryOp,
        operand: Boxed<Expr>,
    },
    Cast {
        to: TypeName,
        operand: Boxed<Expr>,
    },
    /// `array[index]`
    Index {
        array: Boxed<Expr>,
        index: Boxed<Expr>,
    },
    /// `whole.field`
    Field {
        whole: Boxed<Expr>,
        field: Ident,
    },
    /// `pointer->field`
    Arrow {
        pointer: Boxed<Expr>,
        field: Ident,
    },
    Number(i32),
    Null,
    Name(Ident),
    Call {
        function: Ident,
        arguments: Items<Expr>,
    },
    Sizeof(TypeName),
}
