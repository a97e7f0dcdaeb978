//! Globals (C99 6.9.2).

ghost use Rattle.std.specs.Prelude.{◌≡◌, Ok};
ghost use Rattle.c_ast.specs.declared.expr.Form.{out-Form};
ghost use Rattle.c_ast.specs.declared.expr.Form.TheOpen.{Form-F as Source};
ghost use Rattle.c_typed.specs.Programs as programs;
ghost use Rattle.c_types.specs.tools.Negatable.{NotNegative, Negatable, NegatableValue, NegatableItems};
ghost use Rattle.c_types.specs.tools.Steps.{Finds, Leaves};
ghost use Rattle.c_types.specs.tools.ProgramSteps as steps;
ghost use Rattle.c_types.specs.tools.ProgramWalk as walk;

use crate::decls::{by_value, declarator_rule, has_items};
use crate::known::Known;
use crate::outline::Outline;
use crate::scopes::Home;
use crate::tags::{base, number};
use crate::words::total;
use c_ast::{Base, Decl, DeclItem, Declarator, Expr, Form, Ident, UnaryOp};
use c_typed::{BigWhat, ExprType, ObjectType, TypeFault};
use dfi_base::Line;
use std::alloc::Global;

/// The number that an expression is.
fn number_of(e: &Expr) -> Option<i32>
    ensures { result ≡ programs.number_of (out-Form e.now.form) }
{
    match &e.form {
        Form::Number(k) => Some(*k),
        _ => None,
    }
}

/// `-` of a number.
fn negated(k: Option<i32>) -> Option<i32>
    requires { NotNegative k }
    ensures { result ≡ walk.negated k }
{
    let k = k?;
    Some(-k)
}

/// The number that an operator makes of a number: `-` alone makes one.
fn signed(op: UnaryOp, e: &Expr) -> Option<i32>
    requires { Negatable (Source.Unary op e.now) }
    ensures { result ≡ walk.signed op (out-Form e.now.form) }
{
    match op {
        UnaryOp::Minus => negated(number_of(e)),
        _ => None,
    }
}

fn signed_number_of(e: &Expr) -> Option<i32>
    requires { Negatable (out-Form e.now.form) }
    ensures { result ≡ programs.signed_number_of (out-Form e.now.form) }
{
    match &e.form {
        Form::Number(k) => Some(*k),
        Form::Unary { op, operand } => signed(*op, operand.get()),
        _ => None,
    }
}

fn null_of(e: &Expr) -> Option<i32>
    ensures { result ≡ programs.null_of (out-Form e.now.form) }
{
    match &e.form {
        Form::Null => Some(0),
        _ => None,
    }
}

/// What a variable whose value is of this type starts with.
fn start_by(wanted: Option<ExprType>, e: &Expr) -> Option<i32>
    requires { Negatable (out-Form e.now.form) }
    ensures { result ≡ programs.start_by wanted (out-Form e.now.form) }
{
    match wanted {
        Some(ExprType::Int) => signed_number_of(e),
        Some(ExprType::Pointer(_)) => null_of(e),
        _ => None,
    }
}

fn start_of(alloc: Global, object: &ObjectType, value: &Option<Expr>) -> Option<i32>
    requires { NegatableValue value.now }
    ensures { result ≡ programs.start_of object.now value.now }
{
    match value {
        None => Some(0),
        Some(e) => start_by(object.scalar(alloc), e),
    }
}

/// Whether a global may not have this name.
fn is_taken(outline: &Outline, known: &Known, name: u32) -> bool
    ensures { result ≡ walk.is_taken outline.now known.now name }
{
    known.declared.global_names.has(name)
        || known.declared.function_names.has(name)
        || known.declared.prototype_names.has(name)
        || outline.spelling(name).is_builtin()
}

/// Whether the name's fault is told before one of the declarator's first token.
fn global_first(outline: &Outline, known: &Known, d: &Declarator) -> bool
    ensures { result ≡ walk.global_first outline.now known.now d.now }
{
    d.stars == 0 && is_taken(outline, known, d.name.name)
}

fn words_fault(outline: &Outline, known: &Known, x: Ident, object: &ObjectType) -> Option<TypeFault>
    ensures { result ≡ walk.global_words_fault outline.now known.now x object.now }
{
    let words = outline.words(object);
    if words > 24576 {
        return Some(TypeFault::Big {
            what: BigWhat::Shape,
            line: x.line,
        });
    }
    if total(words, known.declared.global_words) > 8176 {
        return Some(TypeFault::Big {
            what: BigWhat::Globals,
            line: x.line,
        });
    }
    None
}

/// The first fault at a global's name, if there is one.
fn global_fault(
    outline: &Outline,
    known: &Known,
    x: Ident,
    object: &ObjectType,
) -> Option<TypeFault>
    ensures { result ≡ walk.global_fault outline.now known.now x object.now }
{
    if is_taken(outline, known, x.name) {
        return Some(TypeFault::Twice { line: x.line });
    }
    if outline.spelling(x.name).is_main() {
        return Some(TypeFault::Mismatch { line: x.line });
    }
    words_fault(outline, known, x, object)
}

/// The rules of a global's declarator.
fn started(
    first: bool,
    line: Line,
    holds: bool,
    start: Option<i32>,
    fault: Option<TypeFault>,
) -> Result<i32, TypeFault>
    ensures { Finds result (walk.started first line holds start fault) }
{
    match start {
        None => {
            declarator_rule(first, line, false, fault)?;
            Err(TypeFault::Mismatch { line })
        }
        Some(k) => {
            declarator_rule(first, line, holds, fault)?;
            Ok(k)
        }
    }
}

impl Known {
    fn declare_global(
        &mut self,
        alloc: Global,
        outline: &Outline,
        x: Ident,
        object: ObjectType,
        start: i32,
    ) -> Result<(), TypeFault>
        ensures { Leaves result self.new
            (Ok (tt, steps.global_declared outline.now x object start self.old)) }
    {
        let at = number(self.declared.globals.len())?;
        self.scopes
            .bind(x.name, Home::Global, at, object.copy(alloc)?)?;
        let words = outline.words(&object);
        self.declared.global_words = total(words, self.declared.global_words);
        self.declared.global_names.put(x.name, Some(at))?;
        self.declared.globals.push(c_typed::Global {
            line: x.line,
            object,
            start,
        })?;
        Ok(())
    }
}

fn global_item(
    alloc: Global,
    outline: &Outline,
    known: &mut Known,
    base: &Base,
    item: &DeclItem,
) -> Result<(), TypeFault>
    requires { NegatableValue item.now.value }
    ensures { Leaves result known.new
        (walk.global_item_walk outline.now base.now item.now known.old) }
{
    let d = &item.declarator;
    let object = outline.declared_type(alloc, base, d)?;
    let first = global_first(outline, known, d);
    let fault = global_fault(outline, known, d.name, &object);
    let start = start_of(alloc, &object, &item.value);
    let holds = has_items(object.lengths.as_slice());
    let start = started(first, d.line, holds, start, fault)?;
    known.declare_global(alloc, outline, d.name, object, start)
}

fn global_items(
    alloc: Global,
    outline: &Outline,
    known: &mut Known,
    base: &Base,
    items: &[DeclItem],
) -> Result<(), TypeFault>
    requires { NegatableItems items.now }
    ensures { Leaves result known.new
        (walk.global_items_walk outline.now base.now items.now known.old) }
{
    for item in items {
        global_item(alloc, outline, known, base, item)?;
    }
    Ok(())
}

/// A declaration of globals.
pub fn global_decl(
    alloc: Global,
    outline: &Outline,
    known: &mut Known,
    d: &Decl,
) -> Result<(), TypeFault>
    requires { NegatableItems d.now.items }
    ensures { Leaves result known.new (walk.global_decl_walk outline.now d.now known.old) }
{
    base(outline, known, by_value(d.items.as_slice()), &d.base)?;
    global_items(alloc, outline, known, &d.base, d.items.as_slice())
}
