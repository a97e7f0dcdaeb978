//! Declarations of a function: its parameters and the variables of its blocks (C99 6.7).

ghost use Rattle.std.specs.Prelude.{◌≡◌, Ok, map, nat_abs};
ghost use Rattle.c_typed.specs.Decls as defined;
ghost use Rattle.c_types.specs.tools.Outlines as outlines;
ghost use Rattle.c_types.specs.tools.DeclWalk as walk;
ghost use Rattle.c_types.specs.tools.Steps.{Found, Finds, Leaves};
ghost use Rattle.c_types.specs.tools.ExprWalk.{expr_walk, value};
ghost use Rattle.c_typed.specs.declared.expr.Expr.{Expr};

use crate::exprs;
use crate::gather::push_some;
use crate::held::refused;
use crate::known::Known;
use crate::outline::Outline;
use crate::tags::{base, number};
use crate::words::total;
use c_ast::{AssignOp, Base, Decl, DeclItem, Declarator, Expr as SourceExpr, Ident};
use c_typed::{BigWhat, Expr, ExprType, Form, ObjectType, Stmt, TypeFault};
use dfi_base::Line;
use sqlite_items::Items;
use std::alloc::Global;

/// Whether arrays of these lengths have items.
pub fn has_items(lengths: &[u32]) -> bool
    ensures { result ≡ defined.has_items lengths.now }
{
    for length in lengths {
        if *length == 0 {
            return false;
        }
    }
    true
}

fn lengths_of(alloc: Global, written: &[i32]) -> Result<Items<u32>, TypeFault>
    ensures { Finds result (Ok (map nat_abs written.now)) }
{
    let mut lengths = Items::new(alloc);
    for length in written {
        lengths.push(length.unsigned_abs())?;
    }
    Ok(lengths)
}

impl Outline {
    /// The type that a declarator gives.
    pub fn declared_type(
        &self,
        alloc: Global,
        base: &Base,
        d: &Declarator,
    ) -> Result<ObjectType, TypeFault>
        ensures { Finds result (Ok (outlines.declared_type self.now base.now d.now)) }
    {
        let element = self.pointers_to(alloc, base, u64::from(d.stars))?;
        Ok(ObjectType {
            base: element.base,
            stars: element.stars,
            lengths: lengths_of(alloc, d.lengths.as_slice())?,
        })
    }
}

/// The first fault at the name of a variable of a block, if there is one.
fn name_fault(outline: &Outline, known: &Known, x: Ident, object: &ObjectType) -> Option<TypeFault>
    ensures { result ≡ walk.name_fault outline.now known.now x object.now }
{
    if known.scopes.has(x.name) {
        return Some(TypeFault::Twice { line: x.line });
    }
    let words = outline.words(object);
    if words > 24576 {
        return Some(TypeFault::Big {
            what: BigWhat::Shape,
            line: x.line,
        });
    }
    if total(words, known.frame.words) > 4096 {
        return Some(TypeFault::Big {
            what: BigWhat::Frame,
            line: x.line,
        });
    }
    None
}

/// The rule of a declarator's first token, beside the fault of its name: `first` says that the name's is told before.
pub fn declarator_rule(
    first: bool,
    line: Line,
    holds: bool,
    fault: Option<TypeFault>,
) -> Result<(), TypeFault>
    ensures { Finds result (walk.declarator_rule first line holds fault) }
{
    match fault {
        Some(fault) if holds || first => Err(fault),
        None if holds => Ok(()),
        _ => Err(TypeFault::Mismatch { line }),
    }
}

/// Whether one of these has no star, so that their base is meant by value.
pub fn by_value(items: &[DeclItem]) -> bool
    ensures { result ≡ defined.by_value (map (λ i. i.declarator) items.now) }
{
    for item in items {
        if item.declarator.stars == 0 {
            return true;
        }
    }
    false
}

/// A variable's value as an assignment to it.
fn assigned(line: Line, object: ObjectType, variable: u32, value: Expr) -> Stmt
    ensures { result ≡ walk.assigned line object variable value }
{
    Stmt::Assign {
        line,
        target: Expr {
            typing: ExprType::Place(object),
            form: Form::Local(variable),
        },
        op: AssignOp::Plain,
        value,
    }
}

/// A declared variable whose value answered so.
fn valued_so(
    alloc: Global,
    first: bool,
    line: Line,
    object: ObjectType,
    variable: u32,
    fault: Option<TypeFault>,
    value: Result<Expr, TypeFault>,
) -> Result<Option<Stmt>, TypeFault>
    ensures { (found : Found Expr) → Finds value found
        → Finds result (walk.valued_by first line object variable fault found) }
{
    let holds = has_items(object.lengths.as_slice());
    match value {
        Ok(v) => {
            let fits = object.takes(alloc, &v.typing);
            match declarator_rule(first, line, holds && fits, fault) {
                Ok(()) => Ok(Some(assigned(line, object, variable, v))),
                Err(fault) => refused(v, fault),
            }
        }
        Err(TypeFault::Memory) => Err(TypeFault::Memory),
        Err(e) => {
            declarator_rule(first, line, holds, fault)?;
            Err(e)
        }
    }
}

/// A declared variable with a value, in which it is known itself.
fn valued(
    alloc: Global,
    outline: &Outline,
    known: &Known,
    first: bool,
    line: Line,
    object: ObjectType,
    variable: u32,
    fault: Option<TypeFault>,
    e: &SourceExpr,
) -> Result<Option<Stmt>, TypeFault>
    ensures { Finds result
        (walk.valued_by first line object variable fault
        (value (expr_walk outline.now known.now e.now))) }
{
    let value = exprs::value(alloc, outline, known, e);
    valued_so(alloc, first, line, object, variable, fault, value)
}

/// Whether the name's fault is told before one of the declarator's first token.
fn name_first(known: &Known, d: &Declarator) -> bool
    ensures { result ≡ walk.name_first known.now d.now }
{
    d.stars == 0 && known.scopes.has(d.name.name)
}

/// One item of a declaration; its value is an assignment to it.
fn local_item(
    alloc: Global,
    outline: &Outline,
    known: &mut Known,
    base: &Base,
    item: &DeclItem,
) -> Result<Option<Stmt>, TypeFault>
    ensures { Leaves result known.new (walk.local_item_walk outline.now base.now item.now known.old) }
{
    let d = &item.declarator;
    let object = outline.declared_type(alloc, base, d)?;
    let first = name_first(known, d);
    let fault = name_fault(outline, known, d.name, &object);
    let variable = number(known.frame.variables.len())?;
    known.declare_local(alloc, outline, d.name, &object)?;
    match &item.value {
        None => {
            declarator_rule(first, d.line, has_items(object.lengths.as_slice()), fault)?;
            Ok(None)
        }
        Some(e) => valued(
            alloc, outline, known, first, d.line, object, variable, fault, e,
        ),
    }
}

fn local_items(
    alloc: Global,
    outline: &Outline,
    known: &mut Known,
    base: &Base,
    items: &[DeclItem],
) -> Result<Items<Stmt>, TypeFault>
    ensures { Leaves result known.new (walk.local_items_walk outline.now base.now items.now known.old) }
{
    let mut values = Items::new(alloc);
    for item in items {
        let value = local_item(alloc, outline, known, base, item)?;
        push_some(&mut values, value)?;
    }
    Ok(values)
}

/// A declaration in a block: the values of its variables.
pub fn local_decl(
    alloc: Global,
    outline: &Outline,
    known: &mut Known,
    d: &Decl,
) -> Result<Stmt, TypeFault>
    ensures { Leaves result known.new (walk.local_decl_walk outline.now d.now known.old) }
{
    base(outline, known, by_value(d.items.as_slice()), &d.base)?;
    let values = local_items(alloc, outline, known, &d.base, d.items.as_slice())?;
    Ok(Stmt::Block(values))
}
