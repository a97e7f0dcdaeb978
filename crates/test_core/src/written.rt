ghost use Rattle.std.specs.Prelude.{◌≡◌, ◌∷◌, [], IfOk, pos, false};
ghost use Rattle.code_layout.specs.LaidOut.{IsLaidOut};

use sqlite_items::Items;
use std::alloc::{AllocError, Global as Alloc};
use tac_ir::{Classes, Code, Fun, Global, Instr, Lined, Module, Place, Points, Sets, Shape, Size};

// The globals `a`, an array of 4 integers, and `x`, an integer.
fn some_shapes(alloc: Alloc) -> Result<Items<Shape>, AllocError>
    ensures { IfOk result (λ shapes. shapes ≡ Shape.Int ∷ Shape.Ptr ∷ Shape.Array 4 0 ∷ []) }
{
    let array = Shape::Array { len: 4, item: 0 };
    let shapes = vec![in alloc; Shape::Int, Shape::Ptr, array]?;
    Ok(Items::from_vec(shapes))
}

fn some_globals(alloc: Alloc) -> Result<Items<Global>, AllocError>
    ensures { IfOk result (λ globals. globals
        ≡ record { shape = 2; start = pos 0; line = 1 }
        ∷ record { shape = 0; start = pos 0; line = 2 } ∷ []) }
{
    let a = Global {
        shape: 2,
        start: 0,
        line: 1,
    };
    let x = Global {
        shape: 0,
        start: 0,
        line: 2,
    };
    Items::from_slice(alloc, &[a, x])
}

fn lined(line: u32, instr: Instr) -> Lined {
    Lined { line, instr }
}

fn global(alloc: Alloc, var: u32) -> Place {
    Place::Global {
        var,
        path: Items::new(alloc),
    }
}

// x = 3; a[4] = 9; out(x); return 0;
fn some_lines(alloc: Alloc) -> Result<Vec<Lined>, AllocError> {
    let x = global(alloc, 1);
    let a = global(alloc, 0);
    let read = global(alloc, 1);
    let lines = vec![in alloc;
        lined(4, Instr::Const { to: 0, k: 3 }),
        lined(
            4,
            Instr::Set {
                place: x,
                a: 0,
                def: 3
            }
        ),
        lined(5, Instr::Addr { to: 1, place: a }),
        lined(
            5,
            Instr::Decay {
                to: 2,
                a: 1,
                shape: 2
            }
        ),
        lined(5, Instr::Const { to: 3, k: 4 }),
        lined(
            5,
            Instr::Index {
                to: 4,
                a: 2,
                b: 3,
                words: 1
            }
        ),
        lined(5, Instr::Const { to: 5, k: 9 }),
        lined(5, Instr::Store { a: 4, b: 5, def: 4 }),
        lined(
            6,
            Instr::Get {
                to: 6,
                place: read,
                read: 1
            }
        ),
        lined(6, Instr::Out { a: 6 }),
        lined(7, Instr::Const { to: 7, k: 0 }),
        lined(7, Instr::Ret { a: 7, read: None }),
    ]?;
    Ok(lines)
}

fn some_code(alloc: Alloc) -> Result<Code, AllocError>
    ensures { IfOk result IsLaidOut }
{
    let shapes = some_shapes(alloc)?;
    let globals = some_globals(alloc)?;
    let code = Items::from_vec(some_lines(alloc)?);
    let fun = Fun {
        params: 0,
        vars: Items::new(alloc),
        code,
        line: 3,
    };
    let mut funs = Items::new(alloc);
    funs.push(fun)?;
    Ok(Code {
        shapes,
        globals,
        sites: Items::new(alloc),
        main: 0,
        funs,
    })
}

fn some_sets(alloc: Alloc) -> Result<Items<Items<u32>>, AllocError>
    ensures { IfOk result (λ sets. sets ≡ (3 ∷ []) ∷ [] ∷ (1 ∷ 2 ∷ 3 ∷ 4 ∷ []) ∷ []) }
{
    let one = Items::from_slice(alloc, &[3])?;
    let every = Items::from_slice(alloc, &[1, 2, 3, 4])?;
    let sets = vec![in alloc; one, Items::new(alloc), every]?;
    Ok(Items::from_vec(sets))
}

/// The module of the journals that are written by hand: it stores beyond an array, and reads the variable behind it.
pub fn written_module(alloc: Alloc) -> Result<Module, AllocError>
    ensures { IfOk result (λ m. IsLaidOut m.code) }
{
    let code = some_code(alloc)?;
    let classes = Classes {
        list: Items::from_slice(alloc, &[1, 1, 2, 1])?,
    };
    let lists = some_sets(alloc)?;
    let removed = Items::from_slice(alloc, &[false, false, false])?;
    Ok(Module {
        size: Size::Small,
        code,
        classes,
        sets: Sets { lists },
        removed,
        points: Points {
            rows: Items::new(alloc),
        },
        reach: Items::new(alloc),
    })
}
