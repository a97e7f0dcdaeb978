//! Structs, functions and prototypes, with a comma behind each parameter.

use crate::part::{Part, Row, row};
use crate::words::word_row;
use c_ast::{Base, Item, Params, ProtoParam, ProtoParams, ResultType};

pub fn program_row<'a>(part: Part<'a>) -> Row<'a> {
    match part {
        Part::Result(of) => result_row(of),
        Part::Fields([first, rest @ ..]) => row!(
            Part::Base(first.base),
            Part::Word(" "),
            Part::Declarators(first.items.as_slice()),
            Part::Word(";"),
            Part::Fields(rest)
        ),
        Part::Fields([]) => row!(),
        Part::Declarators([first, rest @ ..]) => row!(
            Part::Declarator(first),
            Part::Word(","),
            Part::Declarators(rest)
        ),
        Part::Declarators([]) => row!(),
        _ => param_row(part),
    }
}

fn param_row<'a>(part: Part<'a>) -> Row<'a> {
    match part {
        Part::Params(params) => params_row(params),
        Part::ParamList([first, rest @ ..]) => row!(
            Part::Param(*first),
            Part::Word(","),
            Part::ParamList(rest)
        ),
        Part::ParamList([]) => row!(),
        Part::Param(param) => row!(
            Part::Base(param.base),
            Part::Word(" "),
            Part::Stars(param.stars),
            Part::Name(param.name),
            Part::Brackets(param.brackets)
        ),
        Part::ProtoParams(params) => proto_params_row(params),
        Part::ProtoParamList([first, rest @ ..]) => row!(
            Part::ProtoParam(*first),
            Part::Word(","),
            Part::ProtoParamList(rest)
        ),
        Part::ProtoParamList([]) => row!(),
        Part::ProtoParam(param) => proto_param_row(param),
        _ => word_row(part),
    }
}

fn result_row<'a>(of: ResultType) -> Row<'a> {
    match of {
        ResultType::Type { base, stars } => {
            row!(Part::Base(base), Part::Word(" "), Part::Stars(stars))
        }
        ResultType::Void { line } => row!(Part::Mark(line), Part::Word("void ")),
    }
}

fn params_row(params: &Params) -> Row<'_> {
    match params {
        Params::Empty => row!(Part::Word("()")),
        Params::Void { line } => { row!(Part::Word("("), Part::Mark(*line), Part::Word("void)")) }
        Params::List(list) => row!(
            Part::Word("("),
            Part::ParamList(list.as_slice()),
            Part::Word(")")
        ),
    }
}

fn proto_params_row(params: &ProtoParams) -> Row<'_> {
    match params {
        ProtoParams::Empty => row!(Part::Word("()")),
        ProtoParams::Void { line } => {
            row!(Part::Word("("), Part::Mark(*line), Part::Word("void)"))
        }
        ProtoParams::List(list) => row!(
            Part::Word("("),
            Part::ProtoParamList(list.as_slice()),
            Part::Word(")")
        ),
    }
}

fn proto_param_row<'a>(param: ProtoParam) -> Row<'a> {
    match param.name {
        Some(name) => row!(
            Part::Base(param.base),
            Part::Word(" "),
            Part::Stars(param.stars),
            Part::Name(name),
            Part::Brackets(param.brackets)
        ),
        None => row!(
            Part::Base(param.base),
            Part::Word(" "),
            Part::Stars(param.stars),
            Part::Brackets(param.brackets)
        ),
    }
}

/// What an item of a program is made of.
pub fn item_row(item: &Item) -> Row<'_> {
    match item {
        Item::Struct(def) => row!(
            Part::Base(Base::Struct {
                line: def.line,
                tag: def.tag,
            }),
            Part::Word("{"),
            Part::Fields(def.fields.as_slice()),
            Part::Word("};")
        ),
        Item::Decl(decl) => row!(Part::Decl(decl)),
        Item::Function(function) => row!(
            Part::Result(function.result),
            Part::Name(function.name),
            Part::Params(&function.params),
            Part::Block(&function.body)
        ),
        Item::Proto(proto) => row!(
            Part::Result(proto.result),
            Part::Name(proto.name),
            Part::ProtoParams(&proto.params),
            Part::Word(";")
        ),
    }
}
