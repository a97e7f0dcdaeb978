//! Operators as they are written.

use crate::part::{Part, Row, row};
use c_ast::{AssignOp, BinaryOp, UnaryOp};

/// The word of an operator.
pub fn word_row<'a>(part: Part<'a>) -> Row<'a> {
    match part {
        Part::Unary(op) => row!(Part::Word(unary(op))),
        Part::Binary(op) => row!(Part::Word(binary(op))),
        Part::Assign(op) => row!(Part::Word(assign(op))),
        _ => row!(),
    }
}

fn unary(op: UnaryOp) -> &'static str {
    match op {
        UnaryOp::Minus => "-",
        UnaryOp::Plus => "+",
        UnaryOp::Not => "!",
        UnaryOp::Complement => "~",
        UnaryOp::Deref => "*",
        UnaryOp::Address => "&",
    }
}

fn binary(op: BinaryOp) -> &'static str {
    match op {
        BinaryOp::Or => " || ",
        BinaryOp::And => " && ",
        BinaryOp::BitOr => " | ",
        BinaryOp::BitXor => " ^ ",
        BinaryOp::BitAnd => " & ",
        BinaryOp::Equal => " == ",
        BinaryOp::NotEqual => " != ",
        BinaryOp::Less => " < ",
        BinaryOp::Greater => " > ",
        BinaryOp::LessEqual => " <= ",
        BinaryOp::GreaterEqual => " >= ",
        BinaryOp::ShiftLeft => " << ",
        BinaryOp::ShiftRight => " >> ",
        BinaryOp::Add => " + ",
        BinaryOp::Sub => " - ",
        BinaryOp::Mul => " * ",
        BinaryOp::Div => " / ",
        BinaryOp::Rem => " % ",
    }
}

fn assign(op: AssignOp) -> &'static str {
    match op {
        AssignOp::Plain => " = ",
        AssignOp::Add => " += ",
        AssignOp::Sub => " -= ",
        AssignOp::Mul => " *= ",
        AssignOp::Div => " /= ",
        AssignOp::Rem => " %= ",
        AssignOp::BitAnd => " &= ",
        AssignOp::BitOr => " |= ",
        AssignOp::BitXor => " ^= ",
        AssignOp::ShiftLeft => " <<= ",
        AssignOp::ShiftRight => " >>= ",
    }
}
