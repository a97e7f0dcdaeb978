//! The parts of a tree that is shown.

use c_ast::{
    AssignOp, Base, BinaryOp, Block, BlockItem, Brackets, Decl, DeclItem, Declarator, Expr, Field,
    ForStart, Form, Ident, Param, Params, ProtoParam, ProtoParams, ResultType, Simple, Stmt,
    TypeName, UnaryOp,
};
use dfi_base::Line;
use sqlite_items::Boxed;

/// A part that is still to be written.
#[derive(Clone, Copy)]
pub enum Part<'a> {
    Nothing,
    Word(&'static str),
    /// The line of the node that follows.
    Mark(Line),
    Number(i32),
    Name(Ident),
    Stars(u32),
    Unary(UnaryOp),
    Binary(BinaryOp),
    Assign(AssignOp),
    Base(Base),
    Type(TypeName),
    Brackets(Brackets),
    Lengths(&'a [i32]),
    Declarator(&'a Declarator),
    Declarators(&'a [Declarator]),
    Decl(&'a Decl),
    DeclItems(&'a [DeclItem]),
    Expr(&'a Expr),
    Form(&'a Form),
    Operand(&'a Boxed<Expr>),
    /// An expression that may be left out, with the word before it.
    Given(&'static str, &'a Option<Expr>),
    Arguments(&'a [Expr]),
    Simple(&'a Simple),
    /// The first part of a `for`, with its parenthesis and its semicolon.
    Start(&'a ForStart),
    /// The last part of a `for`, with the semicolon before it.
    Step(&'a Option<Simple>),
    Stmt(&'a Stmt),
    /// A statement within a statement, with the word before it.
    Inner(&'static str, &'a Boxed<Stmt>),
    Else(&'a Option<Boxed<Stmt>>),
    Block(&'a Block<Stmt>),
    BlockItems(&'a [BlockItem<Stmt>]),
    Branches(&'a [Block<Stmt>]),
    Param(Param),
    ParamList(&'a [Param]),
    Params(&'a Params),
    ProtoParam(ProtoParam),
    ProtoParamList(&'a [ProtoParam]),
    ProtoParams(&'a ProtoParams),
    Result(ResultType),
    Fields(&'a [Field]),
}

/// What a part is made of, in order.
pub type Row<'a> = [Part<'a>; 5];

// A row of at most five parts.
macro_rules! row {
    () => { row!(Part::Nothing) };
    ($a:expr) => { row!($a, Part::Nothing) };
    ($a:expr, $b:expr) => { row!($a, $b, Part::Nothing) };
    ($a:expr, $b:expr, $c:expr) => { row!($a, $b, $c, Part::Nothing) };
    ($a:expr, $b:expr, $c:expr, $d:expr) => { [$a, $b, $c, $d, Part::Nothing] };
    ($a:expr, $b:expr, $c:expr, $d:expr, $e:expr) => { [$a, $b, $c, $d, $e] };
}

pub(crate) use row;
