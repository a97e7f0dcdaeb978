//! Types and declarations (C99 6.7).

ghost use Rattle.std.specs.Prelude.{◌≡◌};
ghost use Rattle.c_ast.specs.LineOf.{line_of_base};

use crate::expr::Expr;
use crate::ident::Ident;
use dfi_base::Line;
use sqlite_items::Items;

/// `int`, or `struct` and a tag.
#[derive(Clone, Copy)]
pub enum Base {
    Int { line: Line },
    Struct { line: Line, tag: Ident },
}

impl Base {
    /// The line of the first token.
    pub fn line(&self) -> Line
        ensures { result ≡ line_of_base self.now }
    {
        match self {
            Base::Int { line } | Base::Struct { line, .. } => *line,
        }
    }
}

/// A base and `stars` times `*`, as in a cast and in `sizeof`.
#[derive(Clone, Copy)]
pub struct TypeName {
    pub base: Base,
    pub stars: u32,
}

/// The type of a function's result.
#[derive(Clone, Copy)]
pub enum ResultType {
    Type { base: Base, stars: u32 },
    Void { line: Line },
}

/// `stars` times `*`, a name, and a length in brackets for each dimension.
#[derive(Drop)]
pub struct Declarator {
    pub line: Line,
    pub stars: u32,
    pub name: Ident,
    pub lengths: Items<i32>,
}

/// A base and at least one item.
#[derive(Drop)]
pub struct Decl {
    pub base: Base,
    pub items: Items<DeclItem>,
}

/// A declarator, and the value behind `=` if there is one.
#[derive(Drop)]
pub struct DeclItem {
    pub declarator: Declarator,
    pub value: Option<Expr>,
}

/// What stands behind a parameter: nothing, `[]`, or `[` a length `]`.
#[derive(Clone, Copy)]
pub enum Brackets {
    Absent,
    Empty,
    Length(i32),
}

#[derive(Clone, Copy)]
pub struct Param {
    pub base: Base,
    pub stars: u32,
    pub name: Ident,
    pub brackets: Brackets,
}

/// A parameter of a prototype, whose name may be left out.
#[derive(Clone, Copy)]
pub struct ProtoParam {
    pub base: Base,
    pub stars: u32,
    pub name: Option<Ident>,
    pub brackets: Brackets,
}

/// What stands in a function's parentheses: nothing, `void`, or at least one parameter.
#[derive(Drop)]
pub enum Params {
    Empty,
    Void { line: Line },
    List(Items<Param>),
}

#[derive(Drop)]
pub enum ProtoParams {
    Empty,
    Void { line: Line },
    List(Items<ProtoParam>),
}
