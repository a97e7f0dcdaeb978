//! The marks of operators.

ghost use Rattle.std.specs.Prelude.{◌≡◌};
ghost use Rattle.c_print.specs.Signs as spec;

use c_ast::{AssignOp, BinaryOp, UnaryOp};
use c_lex::Mark;

pub fn unary_sign(op: UnaryOp) -> Mark
    ensures { result ≡ spec.unary_sign op }
{
    match op {
        UnaryOp::Minus => Mark::Minus,
        UnaryOp::Plus => Mark::Plus,
        UnaryOp::Not => Mark::Not,
        UnaryOp::Complement => Mark::Tilde,
        UnaryOp::Deref => Mark::Star,
        UnaryOp::Address => Mark::And,
    }
}

pub fn binary_sign(op: BinaryOp) -> Mark
    ensures { result ≡ spec.binary_sign op }
{
    match op {
        BinaryOp::Or => Mark::OrOr,
        BinaryOp::And => Mark::AndAnd,
        BinaryOp::BitOr => Mark::Or,
        BinaryOp::BitXor => Mark::Xor,
        BinaryOp::BitAnd => Mark::And,
        BinaryOp::Equal => Mark::Equal,
        BinaryOp::NotEqual => Mark::NotEqual,
        BinaryOp::Less => Mark::Less,
        BinaryOp::Greater => Mark::Greater,
        BinaryOp::LessEqual => Mark::LessEqual,
        BinaryOp::GreaterEqual => Mark::GreaterEqual,
        BinaryOp::ShiftLeft => Mark::ShiftLeft,
        BinaryOp::ShiftRight => Mark::ShiftRight,
        BinaryOp::Add => Mark::Plus,
        BinaryOp::Sub => Mark::Minus,
        BinaryOp::Mul => Mark::Star,
        BinaryOp::Div => Mark::Slash,
        BinaryOp::Rem => Mark::Percent,
    }
}

pub fn assign_sign(op: AssignOp) -> Mark
    ensures { result ≡ spec.assign_sign op }
{
    match op {
        AssignOp::Plain => Mark::Assign,
        AssignOp::Add => Mark::PlusAssign,
        AssignOp::Sub => Mark::MinusAssign,
        AssignOp::Mul => Mark::StarAssign,
        AssignOp::Div => Mark::SlashAssign,
        AssignOp::Rem => Mark::PercentAssign,
        AssignOp::BitAnd => Mark::AndAssign,
        AssignOp::BitOr => Mark::OrAssign,
        AssignOp::BitXor => Mark::XorAssign,
        AssignOp::ShiftLeft => Mark::ShiftLeftAssign,
        AssignOp::ShiftRight => Mark::ShiftRightAssign,
    }
}
