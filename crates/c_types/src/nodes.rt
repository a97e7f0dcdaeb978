//! Typed expressions, one node at a time.

ghost use Rattle.std.specs.Prelude.{◌≡◌, IfOk};
ghost use Rattle.c_typed.specs.declared.types.ExprType.{ExprType};
ghost use Rattle.c_typed.specs.Types.{place_of_type};
ghost use Rattle.c_typed.specs.declared.expr.Form.TheOpen.{Form-F};
ghost use Rattle.c_typed.specs.Exprs.{made};
ghost use Rattle.c_types.specs.tools.ExprWalk.{variable_node};

use crate::scopes::{Binding, Home};
use c_ast::BinaryOp;
use c_typed::{Expr, ExprType, Form, ObjectType, PrefixOp};
use sqlite_items::{Boxed, Items};
use std::alloc::{AllocError, Global};

pub fn number(k: &i32) -> Expr
    ensures { result ≡ made ExprType.Int (Form-F.Number k.now) }
{
    Expr {
        typing: ExprType::Int,
        form: Form::Number(*k),
    }
}

pub fn null() -> Expr
    ensures { result ≡ made ExprType.Null Form-F.Null }
{
    Expr {
        typing: ExprType::Null,
        form: Form::Null,
    }
}

/// The type of a place at which this stands.
pub fn place_type(object: ObjectType) -> ExprType
    ensures { result ≡ place_of_type object }
{
    if object.is_known() {
        ExprType::Place(object)
    } else {
        ExprType::Unknown
    }
}

/// What stands at a scalar place.
pub fn read(alloc: Global, typing: ExprType, place: Expr) -> Result<Expr, AllocError>
    ensures { IfOk result (λ e. e ≡ made typing (Form-F.Read place)) }
{
    Ok(Expr {
        typing,
        form: Form::Read(Boxed::new(alloc, place)?),
    })
}

/// The pointer to an array's first item.
pub fn decay(alloc: Global, typing: ExprType, place: Expr) -> Result<Expr, AllocError>
    ensures { IfOk result (λ e. e ≡ made typing (Form-F.Decay place)) }
{
    Ok(Expr {
        typing,
        form: Form::Decay(Boxed::new(alloc, place)?),
    })
}

pub fn address(alloc: Global, typing: ExprType, place: Expr) -> Result<Expr, AllocError>
    ensures { IfOk result (λ e. e ≡ made typing (Form-F.Address place)) }
{
    Ok(Expr {
        typing,
        form: Form::Address(Boxed::new(alloc, place)?),
    })
}

pub fn deref(alloc: Global, typing: ExprType, pointer: Expr) -> Result<Expr, AllocError>
    ensures { IfOk result (λ e. e ≡ made typing (Form-F.Deref pointer)) }
{
    Ok(Expr {
        typing,
        form: Form::Deref(Boxed::new(alloc, pointer)?),
    })
}

pub fn prefix(
    alloc: Global,
    typing: ExprType,
    op: PrefixOp,
    operand: Expr,
) -> Result<Expr, AllocError>
    ensures { IfOk result (λ e. e ≡ made typing (Form-F.Prefix op operand)) }
{
    Ok(Expr {
        typing,
        form: Form::Prefix {
            op,
            operand: Boxed::new(alloc, operand)?,
        },
    })
}

pub fn index(
    alloc: Global,
    typing: ExprType,
    pointer: Boxed<Expr>,
    index: Expr,
) -> Result<Expr, AllocError>
    ensures { IfOk result (λ e. e ≡ made typing (Form-F.Index pointer index)) }
{
    let index = Boxed::new(alloc, index)?;
    Ok(Expr {
        typing,
        form: Form::Index { pointer, index },
    })
}

pub fn binary(
    alloc: Global,
    typing: ExprType,
    left: Boxed<Expr>,
    op: BinaryOp,
    right: Expr,
) -> Result<Expr, AllocError>
    ensures { IfOk result (λ e. e ≡ made typing (Form-F.Binary left op right)) }
{
    let right = Boxed::new(alloc, right)?;
    Ok(Expr {
        typing,
        form: Form::Binary { left, op, right },
    })
}

/// A field of a struct.
pub fn field(alloc: Global, typing: ExprType, whole: Expr, field: u32) -> Result<Expr, AllocError>
    ensures { IfOk result (λ e. e ≡ made typing (Form-F.Field whole field)) }
{
    Ok(Expr {
        typing,
        form: Form::Field {
            whole: Boxed::new(alloc, whole)?,
            field,
        },
    })
}

/// A field of the struct that a pointer points to.
pub fn arrow(alloc: Global, typing: ExprType, pointer: Expr, field: u32) -> Result<Expr, AllocError>
    ensures { IfOk result (λ e. e ≡ made typing (Form-F.Arrow pointer field)) }
{
    Ok(Expr {
        typing,
        form: Form::Arrow {
            pointer: Boxed::new(alloc, pointer)?,
            field,
        },
    })
}

pub fn variable(alloc: Global, binding: &Binding) -> Result<Expr, AllocError>
    ensures { IfOk result (λ e. e ≡ variable_node binding.now) }
{
    let object = binding.object.copy(alloc)?;
    let form = match binding.home {
        Home::Global => Form::Global(binding.number),
        Home::Local => Form::Local(binding.number),
    };
    Ok(Expr {
        typing: place_type(object),
        form,
    })
}
