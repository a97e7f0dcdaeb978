//! Prototypes (C99 6.7.5.3).

ghost use Rattle.std.specs.Prelude.{◌≡◌, ◌&&◌, Ok, map};
ghost use Rattle.std.specs.Option.{option_copied};
ghost use Rattle.c_typed.specs.Types.{is_known};
ghost use Rattle.c_typed.specs.Decls.{is_scalar};
ghost use Rattle.c_typed.specs.Programs as programs;
ghost use Rattle.c_types.specs.tools.Steps.{Finds, Leaves};
ghost use Rattle.c_types.specs.tools.DeclWalk as decls;
ghost use Rattle.c_types.specs.tools.ProgramSteps as steps;
ghost use Rattle.c_types.specs.tools.ProgramWalk as walk;

use crate::functions::{fits_main, has_scalar_result, is_int, result_base};
use crate::known::Known;
use crate::outline::{Outline, Signature};
use crate::params::proto_params;
use c_ast::{Proto, ProtoParam, ProtoParams};
use c_typed::{ObjectType, TypeFault};
use sqlite_items::Items;
use std::alloc::Global;

fn no_parameters(ps: &ProtoParams) -> bool
    ensures { result ≡ programs.no_proto_parameters ps.now }
{
    match ps {
        ProtoParams::List(_) => false,
        _ => true,
    }
}

fn same_objects(left: &[ObjectType], right: &[ObjectType]) -> bool
    ensures { result ≡ programs.same_objects left.now right.now }
{
    if left.len() != right.len() {
        return false;
    }
    for i in 0..left.len() {
        if !left[i].is(&right[i]) {
            return false;
        }
    }
    true
}

fn same_result(left: &Option<ObjectType>, right: &Option<ObjectType>) -> bool
    ensures { result ≡ programs.same_result left.now right.now }
{
    match (left, right) {
        (None, None) => true,
        (Some(left), Some(right)) => left.is(right),
        _ => false,
    }
}

/// Whether a part of a prototype or of a function has no fault of its own: no unknown tag, and no struct.
fn is_sound(alloc: Global, t: &ObjectType) -> bool
    ensures { result ≡ (is_known t.now && is_scalar t.now) }
{
    t.is_known() && t.is_scalar(alloc)
}

fn are_sound(alloc: Global, types: &[ObjectType]) -> bool
    ensures { result ≡ programs.are_sound types.now }
{
    for t in types {
        if !is_sound(alloc, t) {
            return false;
        }
    }
    true
}

fn all_sound(alloc: Global, t: &Option<ObjectType>, types: &[ObjectType]) -> bool
    ensures { result ≡ programs.are_sound (programs.types_in t.now types.now) }
{
    match t {
        None => are_sound(alloc, types),
        Some(t) => is_sound(alloc, t) && are_sound(alloc, types),
    }
}

/// Whether a prototype's types are those of its function; where a part of one of them has a fault of its own, they are not
/// compared.
fn agrees(alloc: Global, t: &Option<ObjectType>, types: &[ObjectType], s: &Signature) -> bool
    ensures { result ≡ walk.agrees t.now types.now s.now }
{
    !(all_sound(alloc, t, types) && all_sound(alloc, &s.result, s.parameters.as_slice()))
        || (same_result(t, &s.result) && same_objects(types, s.parameters.as_slice()))
}

impl Outline {
    fn proto_types_of(
        &self,
        alloc: Global,
        ps: &[ProtoParam],
    ) -> Result<Items<ObjectType>, TypeFault>
        ensures { Finds result
            (Ok (map (λ p. decls.parameter_type self.now p.base p.stars p.brackets) ps.now)) }
    {
        let mut types = Items::new(alloc);
        for p in ps {
            types.push(self.parameter_type(alloc, &p.base, p.stars, p.brackets)?)?;
        }
        Ok(types)
    }

    fn proto_types(&self, alloc: Global, ps: &ProtoParams) -> Result<Items<ObjectType>, TypeFault>
        ensures { Finds result (Ok (walk.proto_types self.now ps.now)) }
    {
        match ps {
            ProtoParams::List(ps) => self.proto_types_of(alloc, ps.as_slice()),
            _ => Ok(Items::new(alloc)),
        }
    }

    /// The function of this name.
    fn defined(&self, name: u32) -> Option<&Signature>
        ensures { option_copied result ≡ walk.defined self.now name }
    {
        let at = self.numbers.get(name)?;
        self.functions.get(at as usize)
    }
}

fn is_plain(p: &Proto) -> bool
    ensures { result ≡ walk.is_plain_proto p.now }
{
    is_int(&p.result) && no_parameters(&p.params)
}

fn proto_fits(
    alloc: Global,
    outline: &Outline,
    p: &Proto,
    t: &Option<ObjectType>,
    types: &[ObjectType],
    s: &Signature,
) -> bool
    ensures { result ≡ walk.proto_fits outline.now p.now t.now types.now s.now }
{
    has_scalar_result(alloc, t)
        && agrees(alloc, t, types, s)
        && fits_main(outline, p.name.name, is_plain(p))
}

fn is_known_otherwise(outline: &Outline, known: &Known, name: u32) -> bool
    ensures { result ≡ walk.is_known_otherwise outline.now known.now name }
{
    known.declared.global_names.has(name) || outline.spelling(name).is_builtin()
}

/// The rules of a prototype's name, of which a function is defined somewhere.
fn name_rule(alloc: Global, outline: &Outline, known: &Known, p: &Proto) -> Result<(), TypeFault>
    ensures { Finds result (walk.proto_name_walk outline.now known.now p.now
        (walk.defined outline.now p.now.name.name)) }
{
    let line = p.name.line;
    let Some(s) = outline.defined(p.name.name) else {
        return Err(TypeFault::Unknown { line });
    };
    if is_known_otherwise(outline, known, p.name.name) {
        return Err(TypeFault::Twice { line });
    }
    let t = outline.result_type(alloc, &p.result)?;
    let types = outline.proto_types(alloc, &p.params)?;
    if !proto_fits(alloc, outline, p, &t, types.as_slice(), s) {
        return Err(TypeFault::Mismatch { line });
    }
    Ok(())
}

impl Known {
    fn declare_prototype(&mut self, name: u32) -> Result<(), TypeFault>
        ensures { Leaves result self.new (Ok (tt, steps.prototype_declared name self.old)) }
    {
        Ok(
            self.declared
                .prototype_names
                .put(name, Some(self.declared.functions))?,
        )
    }
}

/// A prototype: its parameters are a scope.
pub fn proto(
    alloc: Global,
    outline: &Outline,
    known: &mut Known,
    p: &Proto,
) -> Result<(), TypeFault>
    ensures { Leaves result known.new (walk.proto_walk outline.now p.now known.old) }
{
    result_base(outline, known, &p.result)?;
    name_rule(alloc, outline, known, p)?;
    known.declare_prototype(p.name.name)?;
    known.open()?;
    proto_params(alloc, outline, known, &p.params)?;
    known.close()
}
