//! Whole programs (C99 6.9).

ghost use Rattle.std.specs.Prelude.{◌≡◌, Ok, map, length};
ghost use Rattle.std.specs.List.{All};
ghost use Rattle.c_ast.specs.Ast.{IsWritten};
ghost use Rattle.c_ast.specs.Leaves.{leaves_of};
ghost use Rattle.c_types.specs.tools.Negatable.{NegatableStarts};
ghost use Rattle.c_types.specs.tools.Steps.{Finds, Leaves};
ghost use Rattle.c_types.specs.tools.ProgramWalk as walk;

use crate::functions::function;
use crate::gather::push_some;
use crate::globals::global_decl;
use crate::known::Known;
use crate::outline::{Member, Outline, Shape, Signature};
use crate::protos::proto;
use crate::structs::struct_def;
use crate::tags::number;
use c_ast::Item;
use c_typed::{Function, ObjectType, Struct, TypeFault};
use dfi_base::{Line, Text};
use sqlite_items::Items;
use std::alloc::Global;

/// What a typed program consists of.
#[derive(Drop)]
pub struct Program {
    pub structs: Items<Struct>,
    pub globals: Items<c_typed::Global>,
    pub functions: Items<Function>,
    pub main: u32,
}

/// An item; what it defines, if it is a function.
fn item(
    alloc: Global,
    outline: &Outline,
    known: &mut Known,
    i: &Item,
) -> Result<Option<Function>, TypeFault>
    requires { NegatableStarts i.now }
    ensures { Leaves result known.new (walk.item_walk outline.now i.now known.old) }
{
    match i {
        Item::Struct(d) => {
            struct_def(alloc, outline, known, d)?;
            Ok(None)
        }
        Item::Decl(d) => {
            global_decl(alloc, outline, known, d)?;
            Ok(None)
        }
        Item::Function(f) => Ok(Some(function(alloc, outline, known, f)?)),
        Item::Proto(p) => {
            proto(alloc, outline, known, p)?;
            Ok(None)
        }
    }
}

/// The items in turn; the functions that they define.
fn items(
    alloc: Global,
    outline: &Outline,
    known: &mut Known,
    is: &[Item],
) -> Result<Items<Function>, TypeFault>
    requires { All NegatableStarts is.now }
    ensures { Leaves result known.new (walk.items_walk outline.now is.now known.old) }
{
    let mut functions = Items::new(alloc);
    for i in is {
        let function = item(alloc, outline, known, i)?;
        push_some(&mut functions, function)?;
    }
    Ok(functions)
}

fn is_main(outline: &Outline, s: &Signature) -> bool
    ensures { result ≡ walk.is_main_function outline.now s.now }
{
    outline.spelling(s.name).is_main()
}

/// The index of the first function `main`.
fn main_index(outline: &Outline, signatures: &[Signature]) -> Option<usize>
    ensures { result ≡ walk.main_from outline.now 0 signatures.now }
{
    for (i, s) in signatures.iter().enumerate() {
        if is_main(outline, s) {
            return Some(i);
        }
    }
    None
}

fn main_number(outline: &Outline, last: Line) -> Result<u32, TypeFault>
    ensures { Finds result (walk.main_walk outline.now last) }
{
    match main_index(outline, outline.functions.as_slice()) {
        None => Err(TypeFault::NoMain { line: last }),
        Some(i) => number(i),
    }
}

fn field_types(alloc: Global, members: &[Member]) -> Result<Items<ObjectType>, TypeFault>
    ensures { Finds result (Ok (map (λ m. m.object) members.now)) }
{
    let mut types = Items::new(alloc);
    for member in members {
        types.push(member.object.copy(alloc)?)?;
    }
    Ok(types)
}

fn structs_of(alloc: Global, shapes: &[Shape]) -> Result<Items<Struct>, TypeFault>
    ensures { Finds result (Ok (map walk.struct_of shapes.now)) }
{
    let mut structs = Items::new(alloc);
    for shape in shapes {
        structs.push(Struct {
            fields: field_types(alloc, shape.members.as_slice())?,
            words: shape.words,
        })?;
    }
    Ok(structs)
}

/// A program of which this is the outline.
fn outlined(alloc: Global, outline: &Outline, is: &[Item], last: Line) -> Result<Program, TypeFault>
    requires { All NegatableStarts is.now }
    ensures { Finds result (walk.program_by outline.now is.now last) }
{
    let mut known = Known::new(alloc)?;
    let functions = items(alloc, outline, &mut known, is)?;
    let globals = known.into_globals();
    let main = main_number(outline, last)?;
    let structs = structs_of(alloc, outline.shapes.as_slice())?;
    Ok(Program {
        structs,
        globals,
        functions,
        main,
    })
}

/// The parts of the typed program of these items, or the first fault in them.
pub fn walk(alloc: Global, names: &[Text], is: &[Item], last: Line) -> Result<Program, TypeFault>
    requires { All (IsWritten (length names.now)) (leaves_of is.now) }
    ensures { Finds result (walk.program_walk names.now is.now last) }
{
    let outline = Outline::new(alloc, names, is)?;
    outlined(alloc, &outline, is, last)
}
