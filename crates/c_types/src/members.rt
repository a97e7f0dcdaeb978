//! Fields of operands that are whole.

ghost use Rattle.std.specs.Prelude.{◌≡◌};
ghost use Rattle.c_typed.specs.declared.expr.Form.TheOpen.{Form-F};
ghost use Rattle.c_typed.specs.Exprs as defined;
ghost use Rattle.c_types.specs.tools.ExprWalk as walk;
ghost use Rattle.c_types.specs.tools.Steps.{Finds};

use crate::held::refused;
use crate::nodes;
use crate::outline::{Member, Outline};
use crate::tags::number;
use c_ast::Ident;
use c_typed::{BaseType, Expr, ExprType, ObjectType, TypeFault};
use dfi_base::Line;
use std::alloc::Global;

fn struct_of(t: &ObjectType) -> Option<u32>
    ensures { result ≡ defined.struct_of t.now }
{
    match t.base {
        BaseType::Struct(k) if t.stars == 0 && t.lengths.is_empty() => Some(k),
        _ => None,
    }
}

/// The index of the field of this name.
fn member_index(members: &[Member], name: u32) -> Option<usize>
    ensures { result ≡ walk.index_by name 0 members.now }
{
    for (i, member) in members.iter().enumerate() {
        if member.name == name {
            return Some(i);
        }
    }
    None
}

fn member(
    alloc: Global,
    outline: &Outline,
    k: u32,
    field: Ident,
) -> Result<(u32, ObjectType), TypeFault>
    ensures { Finds result (walk.member_walk outline.now k field) }
{
    let unknown = TypeFault::Unknown { line: field.line };
    let Some(shape) = outline.shapes.get(k as usize) else {
        return Err(unknown);
    };
    let Some(at) = member_index(shape.members.as_slice(), field.name) else {
        return Err(unknown);
    };
    let Some(member) = shape.members.get(at) else {
        return Err(unknown);
    };
    Ok((number(at)?, member.object.copy(alloc)?))
}

/// A field of a struct.
pub fn member_of(
    alloc: Global,
    outline: &Outline,
    line: Line,
    whole: Expr,
    field: Ident,
) -> Result<Expr, TypeFault>
    ensures { Finds result
        (walk.fielded outline.now line field Form-F.Field whole (defined.struct_at whole.typing)) }
{
    if whole.typing.is_unknown() {
        return Ok(nodes::field(alloc, ExprType::Unknown, whole, 0)?);
    }
    let ExprType::Place(object) = &whole.typing else {
        return refused(whole, TypeFault::Mismatch { line });
    };
    let Some(k) = struct_of(object) else {
        return refused(whole, TypeFault::Mismatch { line });
    };
    match member(alloc, outline, k, field) {
        Ok((field, object)) => Ok(nodes::field(alloc, nodes::place_type(object), whole, field)?),
        Err(fault) => refused(whole, fault),
    }
}

/// A field of the struct that a pointer points to.
pub fn member_behind(
    alloc: Global,
    outline: &Outline,
    line: Line,
    pointer: Expr,
    field: Ident,
) -> Result<Expr, TypeFault>
    ensures { Finds result
        (walk.fielded outline.now line field Form-F.Arrow pointer
        (defined.struct_behind pointer.typing)) }
{
    if pointer.typing.is_unknown() {
        return Ok(nodes::arrow(alloc, ExprType::Unknown, pointer, 0)?);
    }
    let ExprType::Pointer(object) = &pointer.typing else {
        return refused(pointer, TypeFault::Mismatch { line });
    };
    let Some(k) = struct_of(object) else {
        return refused(pointer, TypeFault::Mismatch { line });
    };
    match member(alloc, outline, k, field) {
        Ok((field, object)) => Ok(nodes::arrow(alloc, nodes::place_type(object), pointer, field)?),
        Err(fault) => refused(pointer, fault),
    }
}
