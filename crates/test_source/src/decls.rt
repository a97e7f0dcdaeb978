//! Types and declarations, with a comma behind each item.

use crate::part::{Part, Row, row};
use crate::programs::program_row;
use c_ast::{Base, Brackets};

pub fn decl_row<'a>(part: Part<'a>) -> Row<'a> {
    match part {
        Part::Decl(decl) => row!(
            Part::Base(decl.base),
            Part::Word(" "),
            Part::DeclItems(decl.items.as_slice()),
            Part::Word(";")
        ),
        Part::DeclItems([first, rest @ ..]) => row!(
            Part::Declarator(&first.declarator),
            Part::Given(" = ", &first.value),
            Part::Word(","),
            Part::DeclItems(rest)
        ),
        Part::DeclItems([]) => row!(),
        Part::Declarator(declarator) => row!(
            Part::Mark(declarator.line),
            Part::Stars(declarator.stars),
            Part::Name(declarator.name),
            Part::Lengths(declarator.lengths.as_slice())
        ),
        Part::Lengths([first, rest @ ..]) => row!(
            Part::Word("["),
            Part::Number(*first),
            Part::Word("]"),
            Part::Lengths(rest)
        ),
        Part::Lengths([]) => row!(),
        Part::Type(of) => row!(Part::Base(of.base), Part::Stars(of.stars)),
        Part::Base(base) => base_row(base),
        Part::Brackets(brackets) => brackets_row(brackets),
        _ => program_row(part),
    }
}

fn base_row<'a>(base: Base) -> Row<'a> {
    match base {
        Base::Int { line } => row!(Part::Mark(line), Part::Word("int")),
        Base::Struct { line, tag } => {
            row!(Part::Mark(line), Part::Word("struct "), Part::Name(tag))
        }
    }
}

fn brackets_row<'a>(brackets: Brackets) -> Row<'a> {
    match brackets {
        Brackets::Absent => row!(),
        Brackets::Empty => row!(Part::Word("[]")),
        Brackets::Length(length) => { row!(Part::Word("["), Part::Number(length), Part::Word("]")) }
    }
}
