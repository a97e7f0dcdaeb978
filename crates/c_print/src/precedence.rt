//! How tightly the parts of an expression hold together.

ghost use Rattle.std.specs.Prelude.{◌≡◌, ◌≤◌};
ghost use Rattle.c_print.specs.Precedence as spec;
ghost use Rattle.c_print.specs.TreeTokens.{level_of};

use c_ast::{BinaryOp, Expr, Form};

/// An operand with an operator or a cast before it.
pub const PREFIXED: u8 = 10;

/// What an index, a field or `++` may stand behind.
pub const POSTFIX: u8 = 11;

pub fn precedence(op: BinaryOp) -> u8
    ensures value { result ≡ spec.precedence op }
    ensures small { result ≤ 9 }
{
    match op {
        BinaryOp::Or => 0,
        BinaryOp::And => 1,
        BinaryOp::BitOr => 2,
        BinaryOp::BitXor => 3,
        BinaryOp::BitAnd => 4,
        BinaryOp::Equal | BinaryOp::NotEqual => 5,
        BinaryOp::Less | BinaryOp::Greater | BinaryOp::LessEqual | BinaryOp::GreaterEqual => 6,
        BinaryOp::ShiftLeft | BinaryOp::ShiftRight => 7,
        BinaryOp::Add | BinaryOp::Sub => 8,
        BinaryOp::Mul | BinaryOp::Div | BinaryOp::Rem => 9,
    }
}

pub fn level(expr: &Expr) -> u8
    ensures { result ≡ level_of expr.now }
{
    match &expr.form {
        Form::Binary { op, .. } => precedence(*op),
        Form::Unary { .. } | Form::Cast { .. } => PREFIXED,
        _ => POSTFIX,
    }
}
