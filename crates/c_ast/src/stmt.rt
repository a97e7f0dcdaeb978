//! Statements (C99 6.8, and `par`).

ghost use Rattle.std.specs.Prelude.{◌≡◌};
ghost use Rattle.c_ast.specs.LineOf.{line_of_simple};

use crate::decl::Decl;
use crate::expr::Expr;
use crate::ident::Ident;
use dfi_base::Line;
use sqlite_items::{Boxed, Items};

/// `=`, `+=`, `-=`, `*=`, `/=`, `%=`, `&=`, `|=`, `^=`, `<<=` and `>>=`.
#[derive(Clone, Copy)]
pub enum AssignOp {
    Plain,
    Add,
    Sub,
    Mul,
    Div,
    Rem,
    BitAnd,
    BitOr,
    BitXor,
    ShiftLeft,
    ShiftRight,
}

/// What may stand alone before a semicolon, and in the first and last part of a `for`.
#[derive(Drop)]
pub enum Simple {
    Assign {
        line: Line,
        target: Expr,
        op: AssignOp,
        value: Expr,
    },
    /// `target++`
    Increment {
        line: Line,
        target: Expr,
    },
    /// `target--`
    Decrement {
        line: Line,
        target: Expr,
    },
    /// `++target`
    PreIncrement {
        line: Line,
        target: Expr,
    },
    /// `--target`
    PreDecrement {
        line: Line,
        target: Expr,
    },
    Call {
        function: Ident,
        arguments: Items<Expr>,
    },
}

impl Simple {
    /// The line of the first token.
    pub fn line(&self) -> Line
        ensures { result ≡ line_of_simple self.now }
    {
        match self {
            Simple::Assign { line, .. }
            | Simple::Increment { line, .. }
            | Simple::Decrement { line, .. }
            | Simple::PreIncrement { line, .. }
            | Simple::PreDecrement { line, .. } => *line,
            Simple::Call { function, .. } => function.line,
        }
    }
}

/// The first part of a `for`, with its semicolon.
#[derive(Drop)]
pub enum ForStart {
    Decl(Decl),
    Simple(Option<Simple>),
}

/// Declarations and statements in braces, with the line of the closing brace. `S` is [`Stmt`].
#[derive(Drop)]
pub struct Block<S> {
    pub line: Line,
    pub items: Items<BlockItem<S>>,
    pub close: Line,
}

#[derive(Drop)]
pub enum BlockItem<S> {
    Decl(Decl),
    Stmt(S),
}

#[derive(Drop)]
pub enum Stmt {
    Block(Block<Stmt>),
    Empty {
        line: Line,
    },
    Simple(Simple),
    Return {
        line: Line,
        value: Option<Expr>,
    },
    Break {
        line: Line,
    },
    Continue {
        line: Line,
    },
    If {
        line: Line,
        condition: Expr,
        first: Boxed<Stmt>,
        second: Option<Boxed<Stmt>>,
    },
    While {
        line: Line,
        condition: Expr,
        body: Boxed<Stmt>,
    },
    For {
        line: Line,
        start: ForStart,
        condition: Option<Expr>,
        step: Option<Simple>,
        body: Boxed<Stmt>,
    },
    Par {
        line: Line,
        branches: Items<Block<Stmt>>,
    },
}
