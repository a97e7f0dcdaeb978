ghost use Rattle.std.specs.Prelude.{◌≡◌, ◌+◌, ◌<◌, ◌≤◌, length, IfOk};
ghost use Rattle.tac_ir.specs.GoodForm.{GoodForm};
ghost use Rattle.tac_ir.specs.Layout.{parts_of};
ghost use Rattle.test_threads.specs.Deep.{level, nested, deep_shapes, short_main, deep_code};

use code_layout::Layout;
use dfi_base::Memory;
use sqlite_items::Items;
use std::alloc::{AllocError, Global};
use tac_ir::{Code, Fun, Instr, Lined, Shape};
use tac_thread::{Domain, FlatWords};

/// How a shape stands round another one.
#[derive(Clone, Copy)]
pub enum Nesting {
    /// An array of length 1.
    Array,
    /// A struct of one part.
    Struct,
    /// A struct of that and an int.
    Pair,
}

fn level(alloc: Global, nesting: Nesting, inner: u32) -> Result<Shape, AllocError>
    ensures { IfOk result (λ shape. shape ≡ level nesting inner) }
{
    match nesting {
        Nesting::Array => Ok(Shape::Array {
            len: 1,
            item: inner,
        }),
        Nesting::Struct => {
            let parts = Items::from_slice(alloc, &[inner])?;
            Ok(Shape::Struct { parts })
        }
        Nesting::Pair => {
            let parts = Items::from_slice(alloc, &[inner, 0])?;
            Ok(Shape::Struct { parts })
        }
    }
}

// So many shapes, each round the one before it.
fn nested(alloc: Global, nesting: Nesting, depth: u32) -> Result<Vec<Shape>, AllocError>
    requires { depth ≤ 24000 }
    ensures { IfOk result (λ shapes. shapes.items ≡ nested nesting depth) }
{
    let mut shapes = vec![in alloc; Shape::Int, Shape::Ptr]?;
    for i in 0..depth {
        let outer = level(alloc, nesting, i + 1)?;
        shapes.push(outer)?;
    }
    Ok(shapes)
}

// And a pair round the last of them.
fn deep_shapes(alloc: Global, nesting: Nesting, depth: u32) -> Result<Vec<Shape>, AllocError>
    requires { depth ≤ 24000 }
    ensures { IfOk result (λ shapes. shapes.items ≡ deep_shapes nesting depth) }
{
    let mut shapes = nested(alloc, nesting, depth)?;
    let pair = level(alloc, Nesting::Pair, depth + 1)?;
    shapes.push(pair)?;
    Ok(shapes)
}

fn short_main(alloc: Global) -> Result<Fun, AllocError>
    ensures { IfOk result (λ main. main ≡ short_main) }
{
    let instrs = vec![in alloc;
        Lined {
            line: 1,
            instr: Instr::Const { to: 0, k: 0 }
        },
        Lined {
            line: 1,
            instr: Instr::Ret { a: 0, read: None }
        },
    ]?;
    Ok(Fun {
        params: 0,
        vars: Items::new(alloc),
        code: Items::from_vec(instrs),
        line: 1,
    })
}

fn deep_code(alloc: Global, nesting: Nesting, depth: u32) -> Result<Code, AllocError>
    requires { depth ≤ 24000 }
    ensures { IfOk result (λ c. c ≡ deep_code nesting depth) }
{
    let funs = vec![in alloc; short_main(alloc)?]?;
    let shapes = deep_shapes(alloc, nesting, depth)?;
    Ok(Code {
        shapes: Items::from_vec(shapes),
        globals: Items::new(alloc),
        sites: Items::new(alloc),
        main: 0,
        funs: Items::from_vec(funs),
    })
}

fn deep(alloc: Global, nesting: Nesting, depth: u32) -> Result<Code, AllocError>
    requires { depth ≤ 24000 }
    ensures form { IfOk result GoodForm }
    ensures parts { IfOk result (λ c. 1 < length (parts_of c (depth + 2))) }
{
    deep_code(alloc, nesting, depth)
}

/// The words of so many levels round a pointer, as the int behind them tells.
pub fn words(alloc: Global, nesting: Nesting, depth: u32) -> Result<Option<u32>, Memory>
    requires { depth ≤ 24000 }
{
    let code = deep(alloc, nesting, depth)?;
    let layout = Layout::of(alloc, &code)?;
    Ok(FlatWords::field(&code, &layout, &0, depth + 2, 1))
}
