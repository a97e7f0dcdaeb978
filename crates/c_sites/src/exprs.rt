//! Expressions with their sites numbered, form by form.

ghost use Rattle.std.specs.Prelude.{◌≡◌, ◌+◌, IfOk, IfErr, map};
ghost use Rattle.c_typed.specs.declared.fault.TypeFault.{TypeFault};
ghost use Rattle.c_typed.specs.declared.expr.Form.{roll-Form};
ghost use Rattle.c_typed.specs.declared.expr.Form.TheOpen.{Form-F};
ghost use Rattle.c_typed.specs.Sites.{expr, in_turn};
ghost use Rattle.c_sites.specs.tools.Numbers.{Numbers, sited_form};

use crate::copies::{after, copy_typing};
use c_typed::{Expr, Form, ObjectType, TypeFault};
use sqlite_items::{Boxed, Items};
use std::alloc::Global;

/// An expression.
#[cycle(exprs)]
#[tactic(auto, unfolding(c_typed::specs::Sites::expr))]
pub fn number(alloc: Global, e: &Expr, next: &mut u32) -> Result<Expr, TypeFault>
    ensures { Numbers result next.old next.new (expr e.now) }
{
    let typing = copy_typing(alloc, &e.typing)?;
    let form = form(alloc, &e.form, next)?;
    Ok(Expr { typing, form })
}

/// An operand.
#[cycle(exprs)]
fn operand(alloc: Global, e: &Boxed<Expr>, next: &mut u32) -> Result<Boxed<Expr>, TypeFault>
    ensures { Numbers result next.old next.new (expr e.now) }
{
    let e = number(alloc, e.get(), next)?;
    Ok(Boxed::new(alloc, e)?)
}

#[cycle(exprs)]
fn arguments(alloc: Global, es: &[Expr], next: &mut u32) -> Result<Items<Expr>, TypeFault>
    ensures { Numbers result next.old next.new (in_turn (map expr es.now)) }
{
    let mut numbered = Items::new(alloc);
    for e in es {
        numbered.push(number(alloc, e, next)?)?;
    }
    Ok(numbered)
}

#[cycle(exprs)]
#[tactic(auto, unfolding(c_typed::specs::Sites::expr))]
fn form(alloc: Global, form: &Form, next: &mut u32) -> Result<Form, TypeFault>
    ensures { Numbers result next.old next.new (sited_form form.now) }
{
    match form {
        Form::Global(variable) => Ok(Form::Global(*variable)),
        Form::Local(variable) => Ok(Form::Local(*variable)),
        Form::Deref(pointer) => Ok(Form::Deref(operand(alloc, pointer, next)?)),
        Form::Index { pointer, index } => {
            let pointer = operand(alloc, pointer, next)?;
            let index = operand(alloc, index, next)?;
            Ok(Form::Index { pointer, index })
        }
        Form::Field { whole, field } => {
            let whole = operand(alloc, whole, next)?;
            Ok(Form::Field {
                whole,
                field: *field,
            })
        }
        Form::Arrow { pointer, field } => {
            let pointer = operand(alloc, pointer, next)?;
            Ok(Form::Arrow {
                pointer,
                field: *field,
            })
        }
        Form::Number(value) => Ok(Form::Number(*value)),
        Form::Null => Ok(Form::Null),
        Form::Read(place) => Ok(Form::Read(operand(alloc, place, next)?)),
        Form::Decay(place) => Ok(Form::Decay(operand(alloc, place, next)?)),
        Form::Address(place) => Ok(Form::Address(operand(alloc, place, next)?)),
        Form::Prefix { op, operand: e } => {
            let e = operand(alloc, e, next)?;
            Ok(Form::Prefix {
                op: *op,
                operand: e,
            })
        }
        Form::Binary { left, op, right } => {
            let left = operand(alloc, left, next)?;
            let right = operand(alloc, right, next)?;
            Ok(Form::Binary {
                left,
                op: *op,
                right,
            })
        }
        Form::Call {
            function,
            arguments: es,
        } => {
            let arguments = arguments(alloc, es.as_slice(), next)?;
            Ok(Form::Call {
                function: *function,
                arguments,
            })
        }
        Form::GetInt => Ok(Form::GetInt),
        Form::Left => Ok(Form::Left),
        Form::New {
            item,
            count: None,
            ..
        } => site(item.copy(alloc)?, None, next),
        Form::New {
            item,
            count: Some(count),
            ..
        } => {
            let count = operand(alloc, count, next)?;
            site(item.copy(alloc)?, Some(count), next)
        }
    }
}

/// A site, behind the sites of its count.
fn site(item: ObjectType, count: Option<Boxed<Expr>>, next: &mut u32) -> Result<Form, TypeFault>
    ensures made { IfOk result (λ f. (f ≡ roll-Form (Form-F.New next.old item count)) × (next.new ≡ next.old + 1)) }
    ensures memory { IfErr result (λ e. e ≡ TypeFault.Memory) }
{
    let site = *next;
    *next = after(site)?;
    Ok(Form::New { site, item, count })
}
