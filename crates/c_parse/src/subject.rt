//! Operands, by what a statement that begins with one may go on with.

ghost use Rattle.std.specs.Prelude.{◌≡◌};
ghost use Rattle.c_parse.specs.tools.ExprParser.{expr_of};

use c_ast::{Expr, Form, Ident};
use sqlite_items::Items;

/// An operand.
#[derive(Drop)]
pub enum Subject {
    /// With an operator or a cast before it.
    Prefixed(Expr),
    Postfix(Expr),
    /// A call with nothing behind it.
    Call(Ident, Items<Expr>),
}

impl Subject {
    pub fn into_expr(self) -> Expr
        ensures { result ≡ expr_of self }
    {
        match self {
            Subject::Prefixed(expr) | Subject::Postfix(expr) => expr,
            Subject::Call(function, arguments) => Expr {
                line: function.line,
                form: Form::Call {
                    function,
                    arguments,
                },
            },
        }
    }
}
