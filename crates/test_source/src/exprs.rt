//! Expressions: operators stand with their operands in parentheses, and a comma behind each argument.

use crate::part::{Part, Row, row};
use crate::stmts::stmt_row;
use c_ast::Form;

/// What a part is made of.
pub fn row_of<'a>(part: Part<'a>) -> Row<'a> {
    match part {
        Part::Expr(expr) => row!(Part::Mark(expr.line), Part::Form(&expr.form)),
        Part::Operand(expr) => row!(Part::Expr(expr.get())),
        Part::Form(form) => form_row(form),
        Part::Given(word, Some(expr)) => row!(Part::Word(word), Part::Expr(expr)),
        Part::Given(_, None) => row!(),
        Part::Arguments([first, rest @ ..]) => row!(
            Part::Expr(first),
            Part::Word(","),
            Part::Arguments(rest)
        ),
        Part::Arguments([]) => row!(),
        _ => stmt_row(part),
    }
}

fn form_row(form: &Form) -> Row<'_> {
    match form {
        Form::Binary { left, op, right } => row!(
            Part::Word("("),
            Part::Operand(left),
            Part::Binary(*op),
            Part::Operand(right),
            Part::Word(")")
        ),
        Form::Unary { op, operand } => row!(
            Part::Word("("),
            Part::Unary(*op),
            Part::Operand(operand),
            Part::Word(")")
        ),
        Form::Cast { to, operand } => row!(
            Part::Word("(("),
            Part::Type(*to),
            Part::Word(")"),
            Part::Operand(operand),
            Part::Word(")")
        ),
        Form::Index { array, index } => row!(
            Part::Operand(array),
            Part::Word("["),
            Part::Operand(index),
            Part::Word("]")
        ),
        Form::Field { whole, field } => {
            row!(Part::Operand(whole), Part::Word("."), Part::Name(*field))
        }
        Form::Arrow { pointer, field } => row!(
            Part::Operand(pointer),
            Part::Word("->"),
            Part::Name(*field)
        ),
        Form::Number(value) => row!(Part::Number(*value)),
        Form::Null => row!(Part::Word("NULL")),
        Form::Name(name) => row!(Part::Name(*name)),
        Form::Call {
            function,
            arguments,
        } => row!(
            Part::Name(*function),
            Part::Word("("),
            Part::Arguments(arguments.as_slice()),
            Part::Word(")")
        ),
        Form::Sizeof(of) => row!(Part::Word("sizeof("), Part::Type(*of), Part::Word(")")),
    }
}
