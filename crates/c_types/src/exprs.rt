//! Expressions of the source, form by form.

ghost use Rattle.std.specs.Prelude.{[], ◌∷◌, map};
ghost use Rattle.c_types.specs.tools.Steps.{Finds};
ghost use Rattle.c_types.specs.tools.ExprWalk.{expr_walk, value, place, unary_walk, field_walk, arrow_walk, typed_cast_walk, count_first, type_first, call_walk, arguments, allocation};

use crate::known::Known;
use crate::names::name;
use crate::outline::{Outline, Spelling};
use crate::tags::type_name;
use crate::{allocations, calls, members, nodes, rules};
use c_ast::{Expr as SourceExpr, Form as SourceForm, Ident, TypeName, UnaryOp};
use c_typed::{Expr, PrefixOp, TypeFault};
use dfi_base::Line;
use sqlite_items::{Boxed, Items};
use std::alloc::Global;

/// An expression as it stands.
#[cycle(exprs)]
fn plain(alloc: Global, outline: &Outline, known: &Known, e: &SourceExpr) -> Result<Expr, TypeFault>
    ensures { Finds result (expr_walk outline.now known.now e.now).plain }
{
    match &e.form {
        SourceForm::Number(k) => Ok(nodes::number(k)),
        SourceForm::Null => Ok(nodes::null()),
        SourceForm::Name(i) => name(alloc, outline, known, *i),
        SourceForm::Unary { op, operand } => {
            unary(alloc, outline, known, e.line, *op, operand.get())
        }
        SourceForm::Binary { left, op, right } => {
            let left = operand(alloc, outline, known, left.get())?;
            let right = value(alloc, outline, known, right.get())?;
            rules::binary(alloc, e.line, *op, left, right)
        }
        SourceForm::Index { array, index } => {
            let pointer = operand(alloc, outline, known, array.get())?;
            let index = value(alloc, outline, known, index.get())?;
            rules::item_at(alloc, e.line, pointer, index)
        }
        SourceForm::Field { whole, field } => {
            member_of(alloc, outline, known, e.line, whole.get(), *field)
        }
        SourceForm::Arrow { pointer, field } => {
            member_behind(alloc, outline, known, e.line, pointer.get(), *field)
        }
        SourceForm::Cast { to, operand } => {
            cast(alloc, outline, known, e.line, to, operand.get())
        }
        SourceForm::Call {
            function,
            arguments,
        } => call(
            alloc,
            outline,
            known,
            e.line,
            *function,
            arguments.as_slice(),
        ),
        SourceForm::Sizeof(t) => {
            type_name(alloc, outline, known, t)?;
            Err(TypeFault::Mismatch { line: e.line })
        }
    }
}

#[cycle(exprs)]
fn unary(
    alloc: Global,
    outline: &Outline,
    known: &Known,
    line: Line,
    op: UnaryOp,
    operand: &SourceExpr,
) -> Result<Expr, TypeFault>
    ensures { Finds result (unary_walk op line (expr_walk outline.now known.now operand.now)) }
{
    match op {
        UnaryOp::Minus => {
            let e = value(alloc, outline, known, operand)?;
            rules::int_prefix(alloc, line, PrefixOp::Minus, e)
        }
        UnaryOp::Plus => rules::plus(line, value(alloc, outline, known, operand)?),
        UnaryOp::Not => rules::negation(alloc, line, value(alloc, outline, known, operand)?),
        UnaryOp::Complement => {
            let e = value(alloc, outline, known, operand)?;
            rules::int_prefix(alloc, line, PrefixOp::Complement, e)
        }
        UnaryOp::Deref => rules::pointed_at(alloc, line, value(alloc, outline, known, operand)?),
        UnaryOp::Address => rules::address(alloc, line, place(alloc, outline, known, operand)?),
    }
}

/// `whole.field`
#[cycle(exprs)]
fn member_of(
    alloc: Global,
    outline: &Outline,
    known: &Known,
    line: Line,
    whole: &SourceExpr,
    field: Ident,
) -> Result<Expr, TypeFault>
    ensures { Finds result
        (field_walk outline.now line (expr_walk outline.now known.now whole.now) field) }
{
    let whole = plain(alloc, outline, known, whole)?;
    members::member_of(alloc, outline, line, whole, field)
}

/// `pointer->field`
#[cycle(exprs)]
fn member_behind(
    alloc: Global,
    outline: &Outline,
    known: &Known,
    line: Line,
    pointer: &SourceExpr,
    field: Ident,
) -> Result<Expr, TypeFault>
    ensures { Finds result
        (arrow_walk outline.now line (expr_walk outline.now known.now pointer.now) field) }
{
    let pointer = value(alloc, outline, known, pointer)?;
    members::member_behind(alloc, outline, line, pointer, field)
}

#[cycle(exprs)]
fn cast(
    alloc: Global,
    outline: &Outline,
    known: &Known,
    line: Line,
    to: &TypeName,
    operand: &SourceExpr,
) -> Result<Expr, TypeFault>
    ensures { Finds result
        (typed_cast_walk outline.now known.now line to.now
        (expr_walk outline.now known.now operand.now)) }
{
    let object = type_name(alloc, outline, known, to)?;
    let allocates = allocations::is_malloc(outline, known, operand);
    let e = value(alloc, outline, known, operand)?;
    rules::cast(alloc, line, allocates, object, e)
}

/// The values of a call's arguments.
#[cycle(exprs)]
pub fn arguments(
    alloc: Global,
    outline: &Outline,
    known: &Known,
    items: &[SourceExpr],
) -> Result<Items<Expr>, TypeFault>
    ensures { Finds result (arguments (map (expr_walk outline.now known.now) items.now)) }
{
    let mut values = Items::new(alloc);
    for e in items {
        values.push(value(alloc, outline, known, e)?)?;
    }
    Ok(values)
}

/// A call of a function, built in or not.
#[cycle(exprs)]
pub fn call(
    alloc: Global,
    outline: &Outline,
    known: &Known,
    line: Line,
    f: Ident,
    items: &[SourceExpr],
) -> Result<Expr, TypeFault>
    ensures { Finds result
        (call_walk outline.now known.now line f (map (expr_walk outline.now known.now) items.now)) }
{
    if known.find(f.name).is_some() {
        return Err(TypeFault::Mismatch { line: f.line });
    }
    match outline.spelling(f.name) {
        Spelling::GetInt => {
            let values = arguments(alloc, outline, known, items)?;
            calls::get_int(line, values)
        }
        Spelling::Left => {
            let values = arguments(alloc, outline, known, items)?;
            calls::left(line, values)
        }
        Spelling::PutInt => {
            let values = arguments(alloc, outline, known, items)?;
            calls::no_value(calls::put_int(line, values))
        }
        Spelling::Free => {
            let values = arguments(alloc, outline, known, items)?;
            calls::no_value(calls::free(line, values))
        }
        Spelling::Malloc => match items {
            [e] => allocation(alloc, outline, known, line, e),
            _ => Err(TypeFault::Mismatch { line }),
        },
        Spelling::Main => Err(calls::main_called(outline, f)),
        Spelling::Other => {
            let Some(number) = outline.numbers.get(f.name) else {
                return Err(TypeFault::Unknown { line: f.line });
            };
            let Some(signature) = outline.functions.get(number as usize) else {
                return Err(TypeFault::Unknown { line: f.line });
            };
            let values = arguments(alloc, outline, known, items)?;
            calls::apply(alloc, line, number, signature, values)
        }
    }
}

/// `malloc` with its argument.
#[cycle(exprs)]
fn allocation(
    alloc: Global,
    outline: &Outline,
    known: &Known,
    line: Line,
    e: &SourceExpr,
) -> Result<Expr, TypeFault>
    ensures { Finds result (allocation line (expr_walk outline.now known.now e.now ∷ [])) }
{
    match &e.form {
        SourceForm::Sizeof(t) => {
            let item = type_name(alloc, outline, known, t)?;
            allocations::allocated(alloc, line, item, None)
        }
        SourceForm::Binary { left, op, right } => {
            if !allocations::is_mul(*op) {
                return Err(TypeFault::Mismatch { line });
            }
            match allocations::sized(right.get()) {
                Some(t) => count_first(alloc, outline, known, line, left.get(), t),
                None => match allocations::sized(left.get()) {
                    Some(t) => type_first(alloc, outline, known, line, t, right.get()),
                    None => Err(TypeFault::Mismatch { line }),
                },
            }
        }
        _ => Err(TypeFault::Mismatch { line }),
    }
}

/// `malloc` of `e * sizeof(t)`
#[cycle(exprs)]
fn count_first(
    alloc: Global,
    outline: &Outline,
    known: &Known,
    line: Line,
    e: &SourceExpr,
    t: &TypeName,
) -> Result<Expr, TypeFault>
    ensures { Finds result
        (count_first outline.now known.now line (expr_walk outline.now known.now e.now) t.now) }
{
    let count = operand(alloc, outline, known, e)?;
    let item = type_name(alloc, outline, known, t)?;
    allocations::allocated(alloc, line, item, Some(count))
}

/// `malloc` of `sizeof(t) * e`
#[cycle(exprs)]
fn type_first(
    alloc: Global,
    outline: &Outline,
    known: &Known,
    line: Line,
    t: &TypeName,
    e: &SourceExpr,
) -> Result<Expr, TypeFault>
    ensures { Finds result
        (type_first outline.now known.now line t.now (expr_walk outline.now known.now e.now)) }
{
    let item = type_name(alloc, outline, known, t)?;
    let count = operand(alloc, outline, known, e)?;
    allocations::allocated(alloc, line, item, Some(count))
}

/// The value of an expression.
#[cycle(exprs)]
pub fn value(
    alloc: Global,
    outline: &Outline,
    known: &Known,
    e: &SourceExpr,
) -> Result<Expr, TypeFault>
    ensures { Finds result (value (expr_walk outline.now known.now e.now)) }
{
    let whole = plain(alloc, outline, known, e)?;
    rules::value(alloc, e.line, whole)
}

/// The value of an operand, in the box in which it stands.
#[cycle(exprs)]
fn operand(
    alloc: Global,
    outline: &Outline,
    known: &Known,
    e: &SourceExpr,
) -> Result<Boxed<Expr>, TypeFault>
    ensures { Finds result (value (expr_walk outline.now known.now e.now)) }
{
    Ok(Boxed::new(alloc, value(alloc, outline, known, e)?)?)
}

/// An expression that must be a place.
#[cycle(exprs)]
pub fn place(
    alloc: Global,
    outline: &Outline,
    known: &Known,
    e: &SourceExpr,
) -> Result<Expr, TypeFault>
    ensures { Finds result (place (expr_walk outline.now known.now e.now)) }
{
    let whole = plain(alloc, outline, known, e)?;
    rules::place(e.line, whole)
}
