//! Structs (C99 6.7.2.1).

ghost use Rattle.std.specs.Prelude.{◌≡◌, Ok};
ghost use Rattle.c_typed.specs.Decls as defined;
ghost use Rattle.c_types.specs.tools.Steps.{Leaves};
ghost use Rattle.c_types.specs.tools.ProgramSteps as steps;
ghost use Rattle.c_types.specs.tools.ProgramWalk as walk;

use crate::decls::{declarator_rule, has_items};
use crate::known::Known;
use crate::outline::Outline;
use crate::tags::{base, number};
use crate::words::total;
use c_ast::{Base, Declarator, Field, Ident, StructDef};
use c_typed::{BigWhat, ObjectType, TypeFault};
use std::alloc::Global;

impl Known {
    fn begin_struct(&mut self) -> Result<(), TypeFault>
        ensures { Leaves result self.new (Ok (tt, steps.struct_begun self.old)) }
    {
        self.declared.structs = number(self.declared.structs as usize + 1)?;
        self.declared.field_words = 0;
        Ok(())
    }

    fn end_struct(&mut self, tag: u32) -> Result<(), TypeFault>
        ensures { Leaves result self.new (Ok (tt, steps.struct_ended tag self.old)) }
    {
        Ok(self.declared.tags.put(tag, Some(self.declared.structs))?)
    }

    /// Whether the struct round this place has a field of this name.
    fn has_field(&self, name: u32) -> bool
        ensures { result ≡ steps.is_field self.now name }
    {
        match self.declared.fields.get(name) {
            None => false,
            Some(k) => k == self.declared.structs,
        }
    }

    fn declare_field(
        &mut self,
        outline: &Outline,
        x: Ident,
        object: &ObjectType,
    ) -> Result<(), TypeFault>
        ensures { Leaves result self.new
            (Ok (tt, steps.field_declared outline.now x object.now self.old)) }
    {
        let words = outline.words(object);
        self.declared
            .fields
            .put(x.name, Some(self.declared.structs))?;
        self.declared.field_words = total(words, self.declared.field_words);
        Ok(())
    }
}

/// The first fault at a field's name, if there is one.
fn field_fault(outline: &Outline, known: &Known, x: Ident, object: &ObjectType) -> Option<TypeFault>
    ensures { result ≡ walk.field_fault outline.now known.now x object.now }
{
    if known.has_field(x.name) {
        return Some(TypeFault::Twice { line: x.line });
    }
    let words = outline.words(object);
    if total(words, known.declared.field_words) > 24576 {
        return Some(TypeFault::Big {
            what: BigWhat::Shape,
            line: x.line,
        });
    }
    None
}

/// Whether the name's fault is told before one of the declarator's first token.
fn field_first(known: &Known, d: &Declarator) -> bool
    ensures { result ≡ walk.field_first known.now d.now }
{
    d.stars == 0 && known.has_field(d.name.name)
}

fn field_item(
    alloc: Global,
    outline: &Outline,
    known: &mut Known,
    base: &Base,
    d: &Declarator,
) -> Result<(), TypeFault>
    ensures { Leaves result known.new
        (walk.field_item_walk outline.now base.now d.now known.old) }
{
    let object = outline.declared_type(alloc, base, d)?;
    let first = field_first(known, d);
    let fault = field_fault(outline, known, d.name, &object);
    declarator_rule(first, d.line, has_items(object.lengths.as_slice()), fault)?;
    known.declare_field(outline, d.name, &object)
}

fn field_items(
    alloc: Global,
    outline: &Outline,
    known: &mut Known,
    base: &Base,
    items: &[Declarator],
) -> Result<(), TypeFault>
    ensures { Leaves result known.new
        (walk.field_items_walk outline.now base.now items.now known.old) }
{
    for d in items {
        field_item(alloc, outline, known, base, d)?;
    }
    Ok(())
}

/// Whether one of these has no star, so that their base is meant by value.
fn by_value(items: &[Declarator]) -> bool
    ensures { result ≡ defined.by_value items.now }
{
    for d in items {
        if d.stars == 0 {
            return true;
        }
    }
    false
}

/// The fields of one line.
fn field_line(
    alloc: Global,
    outline: &Outline,
    known: &mut Known,
    field: &Field,
) -> Result<(), TypeFault>
    ensures { Leaves result known.new (walk.field_line_walk outline.now field.now known.old) }
{
    let items = field.items.as_slice();
    base(outline, known, by_value(items), &field.base)?;
    field_items(alloc, outline, known, &field.base, items)
}

fn field_lines(
    alloc: Global,
    outline: &Outline,
    known: &mut Known,
    fields: &[Field],
) -> Result<(), TypeFault>
    ensures { Leaves result known.new (walk.fields_walk outline.now fields.now known.old) }
{
    for field in fields {
        field_line(alloc, outline, known, field)?;
    }
    Ok(())
}

/// A struct: its tag is new.
pub fn struct_def(
    alloc: Global,
    outline: &Outline,
    known: &mut Known,
    d: &StructDef,
) -> Result<(), TypeFault>
    ensures { Leaves result known.new (walk.struct_walk outline.now d.now known.old) }
{
    if known.declared.tags.has(d.tag.name) {
        return Err(TypeFault::Twice { line: d.tag.line });
    }
    known.begin_struct()?;
    field_lines(alloc, outline, known, d.fields.as_slice())?;
    known.end_struct(d.tag.name)
}
