//! Functions (C99 6.9.1).

ghost use Rattle.std.specs.Prelude.{◌≡◌, Ok};
ghost use Rattle.c_typed.specs.Programs as programs;
ghost use Rattle.c_types.specs.tools.Steps.{Finds, Leaves};
ghost use Rattle.c_types.specs.tools.ProgramSteps as steps;
ghost use Rattle.c_types.specs.tools.ProgramWalk as walk;

use crate::blocks::block_items;
use crate::known::{Around, Frame, Known};
use crate::outline::Outline;
use crate::params::params;
use crate::tags::{base, number};
use c_ast::{Base, Function as SourceFunction, Params, ResultType};
use c_typed::{BigWhat, Function, ObjectType, Stmt, TypeFault, Variable};
use sqlite_items::Items;
use std::alloc::Global;

impl Known {
    /// A function begins, with the scope of its parameters and its outermost block.
    fn begin_function(
        &mut self,
        alloc: Global,
        name: u32,
        result_type: Option<ObjectType>,
    ) -> Result<(), TypeFault>
        ensures { Leaves result self.new (Ok (tt, steps.function_begun name result_type self.old)) }
    {
        self.scopes.open()?;
        self.frame = Frame::new(alloc, result_type);
        self.declared
            .function_names
            .put(name, Some(self.declared.functions))?;
        self.declared.functions = number(self.declared.functions as usize + 1)?;
        Ok(())
    }
}

/// The rules of the type of a result.
pub fn result_base(outline: &Outline, known: &Known, t: &ResultType) -> Result<(), TypeFault>
    ensures { Finds result (walk.result_walk outline.now known.now t.now) }
{
    match t {
        ResultType::Void { .. } => Ok(()),
        ResultType::Type { base: b, stars } => base(outline, known, *stars == 0, b),
    }
}

pub fn has_scalar_result(alloc: Global, t: &Option<ObjectType>) -> bool
    ensures { result ≡ programs.has_scalar_result t.now }
{
    match t {
        None => true,
        Some(object) => object.is_scalar(alloc),
    }
}

pub fn is_int(t: &ResultType) -> bool
    ensures { result ≡ programs.is_int t.now }
{
    match t {
        ResultType::Type {
            base: Base::Int { .. },
            stars,
        } => *stars == 0,
        _ => false,
    }
}

fn no_parameters(ps: &Params) -> bool
    ensures { result ≡ programs.no_parameters ps.now }
{
    match ps {
        Params::List(_) => false,
        _ => true,
    }
}

/// Whether a function of this name may be one that answers an `int` without parameters, or another.
pub fn fits_main(outline: &Outline, name: u32, is_plain: bool) -> bool
    ensures { result ≡ walk.fits_main outline.now name is_plain }
{
    !outline.spelling(name).is_main() || is_plain
}

fn is_defined(outline: &Outline, known: &Known, name: u32) -> bool
    ensures { result ≡ walk.is_defined outline.now known.now name }
{
    known.declared.global_names.has(name)
        || known.declared.function_names.has(name)
        || outline.spelling(name).is_builtin()
}

fn is_plain(f: &SourceFunction) -> bool
    ensures { result ≡ walk.is_plain f.now }
{
    is_int(&f.result) && no_parameters(&f.params)
}

fn function_fits(
    alloc: Global,
    outline: &Outline,
    f: &SourceFunction,
    t: &Option<ObjectType>,
) -> bool
    ensures { result ≡ walk.function_fits outline.now f.now t.now }
{
    has_scalar_result(alloc, t) && fits_main(outline, f.name.name, is_plain(f))
}

/// The rules of a function's name.
fn name_rule(
    alloc: Global,
    outline: &Outline,
    known: &Known,
    f: &SourceFunction,
    t: &Option<ObjectType>,
) -> Result<(), TypeFault>
    ensures { Finds result (walk.function_name_walk outline.now known.now f.now t.now) }
{
    let line = f.name.line;
    if is_defined(outline, known, f.name.name) {
        return Err(TypeFault::Twice { line });
    }
    if !function_fits(alloc, outline, f, t) {
        return Err(TypeFault::Mismatch { line });
    }
    if known.declared.functions >= 256 {
        return Err(TypeFault::Big {
            what: BigWhat::Functions,
            line,
        });
    }
    Ok(())
}

fn parameter_count(ps: &Params) -> Result<u32, TypeFault>
    ensures { Finds result (Ok (walk.parameter_count ps.now)) }
{
    match ps {
        Params::List(ps) => number(ps.len()),
        _ => Ok(0),
    }
}

fn copied(alloc: Global, variables: &[Variable]) -> Result<Items<Variable>, TypeFault>
    ensures { Finds result (Ok variables.now) }
{
    let mut copies = Items::new(alloc);
    for variable in variables {
        copies.push(Variable {
            line: variable.line,
            object: variable.object.copy(alloc)?,
        })?;
    }
    Ok(copies)
}

/// The parameters and the body.
fn function_body(
    alloc: Global,
    outline: &Outline,
    known: &mut Known,
    f: &SourceFunction,
    t: Option<ObjectType>,
) -> Result<Items<Stmt>, TypeFault>
    ensures { Leaves result known.new (walk.function_body_walk outline.now f.now t known.old) }
{
    let around = Around {
        in_loop: false,
        in_branch: false,
    };
    known.begin_function(alloc, f.name.name, t)?;
    params(alloc, outline, known, &f.params)?;
    block_items(alloc, outline, known, around, f.body.items.as_slice())
}

/// A function whose name and body these are.
fn whole(
    alloc: Global,
    outline: &Outline,
    known: &Known,
    f: &SourceFunction,
    body: Items<Stmt>,
) -> Result<Function, TypeFault>
    ensures { Finds result (Ok (walk.function_of outline.now f.now body known.now)) }
{
    Ok(Function {
        line: f.name.line,
        result: outline.result_type(alloc, &f.result)?,
        parameters: parameter_count(&f.params)?,
        variables: copied(alloc, known.frame.variables.as_slice())?,
        body,
        close: f.body.close,
    })
}

/// A function: its name is no global's, no function's before and not built in, its result no struct.
pub fn function(
    alloc: Global,
    outline: &Outline,
    known: &mut Known,
    f: &SourceFunction,
) -> Result<Function, TypeFault>
    ensures { Leaves result known.new (walk.function_walk outline.now f.now known.old) }
{
    result_base(outline, known, &f.result)?;
    let t = outline.result_type(alloc, &f.result)?;
    name_rule(alloc, outline, known, f, &t)?;
    let body = function_body(alloc, outline, known, f, t)?;
    let function = whole(alloc, outline, known, f, body)?;
    known.close()?;
    Ok(function)
}
