//! Parameters of functions and of prototypes (C99 6.7.5.3).

ghost use Rattle.std.specs.Prelude.{◌≡◌};
ghost use Rattle.c_typed.specs.Decls as defined;
ghost use Rattle.c_types.specs.tools.DeclWalk as walk;
ghost use Rattle.c_types.specs.tools.Steps.{Finds, Leaves};

use crate::known::Known;
use crate::outline::Outline;
use crate::signatures::parameter_stars;
use crate::tags::base;
use crate::words::total;
use c_ast::{Base, Brackets, Ident, Param, Params, ProtoParam, ProtoParams};
use c_typed::{BigWhat, ObjectType, TypeFault};
use std::alloc::Global;

fn bracket_items(brackets: Brackets) -> bool
    ensures { result ≡ defined.bracket_items brackets }
{
    match brackets {
        Brackets::Length(k) => k.unsigned_abs() > 0,
        _ => true,
    }
}

/// The rules of what stands before a parameter's name.
fn first_rule(
    outline: &Outline,
    known: &Known,
    b: &Base,
    stars: u32,
    brackets: Brackets,
) -> Result<(), TypeFault>
    ensures { Finds result (walk.first_rule outline.now known.now b.now stars brackets) }
{
    if !bracket_items(brackets) {
        return Err(TypeFault::Mismatch { line: b.line() });
    }
    base(outline, known, parameter_stars(stars, brackets) == 0, b)
}

/// The rules of a parameter's name: it is new, and its type is no struct.
fn name_rule(alloc: Global, known: &Known, x: Ident, object: &ObjectType) -> Result<(), TypeFault>
    ensures { Finds result (walk.no_fault (walk.parameter_fault known.now x object.now)) }
{
    if known.scopes.has(x.name) {
        return Err(TypeFault::Twice { line: x.line });
    }
    if !object.is_scalar(alloc) {
        return Err(TypeFault::Mismatch { line: x.line });
    }
    Ok(())
}

/// The frame with a parameter is within its limit.
fn frame_rule(
    outline: &Outline,
    known: &Known,
    x: Ident,
    object: &ObjectType,
) -> Result<(), TypeFault>
    ensures { Finds result (walk.framed outline.now known.now x object.now) }
{
    let words = outline.words(object);
    if total(words, known.frame.words) > 4096 {
        return Err(TypeFault::Big {
            what: BigWhat::Frame,
            line: x.line,
        });
    }
    Ok(())
}

fn parameter(
    alloc: Global,
    outline: &Outline,
    known: &mut Known,
    p: &Param,
) -> Result<(), TypeFault>
    ensures { Leaves result known.new (walk.parameter_walk outline.now p.now known.old) }
{
    first_rule(outline, known, &p.base, p.stars, p.brackets)?;
    let object = outline.parameter_type(alloc, &p.base, p.stars, p.brackets)?;
    name_rule(alloc, known, p.name, &object)?;
    frame_rule(outline, known, p.name, &object)?;
    known.declare_local(alloc, outline, p.name, &object)
}

fn parameters(
    alloc: Global,
    outline: &Outline,
    known: &mut Known,
    ps: &[Param],
) -> Result<(), TypeFault>
    ensures { Leaves result known.new (walk.parameters_walk outline.now ps.now known.old) }
{
    for p in ps {
        parameter(alloc, outline, known, p)?;
    }
    Ok(())
}

/// What stands in a function's parentheses.
pub fn params(
    alloc: Global,
    outline: &Outline,
    known: &mut Known,
    ps: &Params,
) -> Result<(), TypeFault>
    ensures { Leaves result known.new (walk.params_walk outline.now ps.now known.old) }
{
    match ps {
        Params::List(ps) => parameters(alloc, outline, known, ps.as_slice()),
        _ => Ok(()),
    }
}

/// A parameter without a name: what is said of its name is said of its first token.
fn nameless(
    alloc: Global,
    outline: &Outline,
    known: &Known,
    p: &ProtoParam,
    object: &ObjectType,
) -> Result<(), TypeFault>
    ensures { Leaves result known.now
        (walk.nameless_walk outline.now known.now p.now object.now) }
{
    first_rule(outline, known, &p.base, p.stars, p.brackets)?;
    if !object.is_scalar(alloc) {
        return Err(TypeFault::Mismatch {
            line: p.base.line(),
        });
    }
    Ok(())
}

fn named(
    alloc: Global,
    outline: &Outline,
    known: &mut Known,
    p: &ProtoParam,
    object: &ObjectType,
    x: Ident,
) -> Result<(), TypeFault>
    ensures { Leaves result known.new
        (walk.named_walk outline.now known.old p.now object.now x) }
{
    first_rule(outline, known, &p.base, p.stars, p.brackets)?;
    name_rule(alloc, known, x, object)?;
    known.declare_local(alloc, outline, x, object)
}

fn proto_parameter(
    alloc: Global,
    outline: &Outline,
    known: &mut Known,
    p: &ProtoParam,
) -> Result<(), TypeFault>
    ensures { Leaves result known.new (walk.proto_parameter_walk outline.now p.now known.old) }
{
    let object = outline.parameter_type(alloc, &p.base, p.stars, p.brackets)?;
    match p.name {
        None => nameless(alloc, outline, known, p, &object),
        Some(x) => named(alloc, outline, known, p, &object, x),
    }
}

fn proto_parameters(
    alloc: Global,
    outline: &Outline,
    known: &mut Known,
    ps: &[ProtoParam],
) -> Result<(), TypeFault>
    ensures { Leaves result known.new (walk.proto_parameters_walk outline.now ps.now known.old) }
{
    for p in ps {
        proto_parameter(alloc, outline, known, p)?;
    }
    Ok(())
}

/// What stands in a prototype's parentheses.
pub fn proto_params(
    alloc: Global,
    outline: &Outline,
    known: &mut Known,
    ps: &ProtoParams,
) -> Result<(), TypeFault>
    ensures { Leaves result known.new (walk.proto_params_walk outline.now ps.now known.old) }
{
    match ps {
        ProtoParams::List(ps) => proto_parameters(alloc, outline, known, ps.as_slice()),
        _ => Ok(()),
    }
}
