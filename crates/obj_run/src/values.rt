ghost use Rattle.std.specs.Prelude.{◌≡◌, ◌<◌, Some, length, slice_get, slice_index};
ghost use Rattle.tac_ir.specs.GoodForm.{GoodForm};
ghost use Rattle.tac_ir.specs.Layout.{parts_of, vars_of, shapes_of_globals};
ghost use Rattle.tac_ir.specs.Places.{end_of_path};
ghost use Rattle.code_layout.specs.LayoutOf.{IsLayoutOf};
ghost use Rattle.code_layout.specs.LeadsTo.{LeadsTo};
ghost use Rattle.obj_run.specs.Objects.{part_at};

use crate::sites::first_variable;
use code_layout::Layout;
use dfi_base::Name;
use obj_mem::{Maker, Obj, Value};
use tac_ir::{BinOp, Code, Place, Shape, UnOp};
use tac_thread::{Domain, FlatWords};

/// Whose the frame of a call is: the call's maker, or main's.
#[derive(Clone, Copy, Debug, PartialEq, Eq)]
pub struct ObjStack {
    pub maker: Maker,
}

/// Integers, null and pointers into objects.
pub struct ObjValues;

impl Domain for ObjValues {
    type Value = Value;

    type Stack = ObjStack;

    ghost use Rattle.obj_run.specs.Objects.{object_meaning};

    ghost meaning = { object_meaning };

    fn int(k: i32) -> Value {
        Value::Int(k)
    }

    fn null() -> Value {
        Value::Null
    }

    fn truth(a: &Value) -> Option<bool> {
        a.truth()
    }

    fn un(op: UnOp, a: &Value) -> Option<Value> {
        let word = FlatWords::un(op, &a.word()?)?;
        Some(Value::of_word(word))
    }

    fn bin(op: BinOp, a: &Value, b: &Value) -> Option<Value> {
        let (a, b) = (a.word()?, b.word()?);
        let word = FlatWords::bin(op, &a, &b)?;
        Some(Value::of_word(word))
    }

    fn place(c: &Code, l: &Layout, fun: u32, s: &ObjStack, p: &Place) -> Value {
        match p {
            Place::Global { var, path } => {
                let maker = Maker {
                    thread: Name(0),
                    count: 0,
                };
                part_at(c, l, *var, maker, shape_of_global(c, *var), path.as_slice())
            }
            Place::Local { var, path } => {
                let site = first_variable(c, fun) + *var;
                let shape = shape_at(vars_of(c, fun), *var);
                part_at(c, l, site, s.maker, shape, path.as_slice())
            }
        }
    }

    fn field(c: &Code, l: &Layout, a: &Value, shape: u32, k: u32) -> Option<Value> {
        let words = l.shape_words(shape_at(parts_of(c, shape), k));
        a.part(l.shape_words(shape), l.field_offset(shape, k), words)
    }

    fn decay(_c: &Code, l: &Layout, a: &Value, shape: u32) -> Option<Value> {
        a.items(l.shape_words(shape))
    }

    fn index(a: &Value, i: &Value, w: u32) -> Option<Value> {
        a.moved(*i, w)
    }

    fn enter(_c: &Code, _l: &Layout, _s: &ObjStack, _fun: u32, maker: Maker) -> Option<ObjStack> {
        Some(ObjStack { maker })
    }

    fn share(s: &ObjStack, _n: u32, _i: u32) -> Option<ObjStack> {
        Some(*s)
    }

    fn link(_s: &ObjStack) -> Option<u32> {
        None
    }
}

// The pointer to a part of an object of this shape.
fn part_at(c: &Code, l: &Layout, site: u32, maker: Maker, shape: u32, path: &[u32]) -> Value
    requires form { GoodForm c.now }
    requires laid { IsLayoutOf c.now l.now }
    requires path { LeadsTo c.now shape path.now }
    ensures { result ≡ part_at c.now site maker shape path.now }
{
    let len = l.shape_words(shape);
    let offset = l.along(c, shape, path);
    let end = offset + l.shape_words(end_of_path(c, shape, path));
    Value::Ptr {
        obj: Obj { site, maker, len },
        off: i64::from(offset),
        lo: i64::from(offset),
        hi: i64::from(end),
    }
}

// The shape of what a path of fields comes to.
fn end_of_path(c: &Code, shape: u32, path: &[u32]) -> u32
    requires { LeadsTo c.now shape path.now }
    ensures { end_of_path c.now shape path.now ≡ Some result }
{
    let mut here = shape;
    for k in path {
        here = shape_at(parts_of(c, here), *k);
    }
    here
}

// The parts of a struct.
fn parts_of(c: &Code, shape: u32) -> &[u32]
    ensures { result.now ≡ parts_of c.now shape }
{
    match c.shapes.get(shape as usize) {
        Some(Shape::Struct { parts }) => parts.as_slice(),
        _ => &[],
    }
}

// The variables of a function.
fn vars_of(c: &Code, fun: u32) -> &[u32]
    ensures { result.now ≡ vars_of c.now fun }
{
    match c.funs.get(fun as usize) {
        None => &[],
        Some(fun) => fun.vars.as_slice(),
    }
}

// The shape of variable or part `n`, and 0 where there is none.
fn shape_at(shapes: &[u32], n: u32) -> u32
    ensures { result ≡ slice_index shapes.now n }
{
    shapes.get(n as usize).copied().unwrap_or(0)
}

fn shape_of_global(c: &Code, var: u32) -> u32
    requires { var < length (shapes_of_globals c.now) }
    ensures { result ≡ slice_index (shapes_of_globals c.now) var }
{
    c.globals.as_slice()[var as usize].shape
}
