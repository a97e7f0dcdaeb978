ghost use Rattle.std.specs.Prelude.{◌≡◌, ◌++◌, map, replicate, false, IfOk};
ghost use Rattle.test_samples.specs.Rows.{shapes_of, fun_of, set_of, module_of};

use crate::row::{Row, lines_of};
use sqlite_items::Items;
use std::alloc::{AllocError, Global};
use tac_ir::{Classes, Code, Fun, Global as Variable, Module, Points, Sets, Shape, Site, Size};

/// A function of a sample: the number of its parameters, the shapes of its variables, and its instructions.
#[derive(Clone, Copy)]
pub struct Function<'a> {
    pub params: u32,
    pub vars: &'a [u32],
    pub rows: &'a [Row],
}

/// A module of a test: the size of its memory, the lengths of its arrays, whose shapes are numbered from 2, its globals and functions, the number of
/// `main`, the class of each definition, and the least and the greatest member of each read's set, which has no others. Both are 0
/// where it has none.
#[derive(Clone, Copy)]
pub struct Sample<'a> {
    pub size: Size,
    pub arrays: &'a [u32],
    pub globals: &'a [Variable],
    pub sites: &'a [Site],
    pub main: u32,
    pub funs: &'a [Function<'a>],
    pub classes: &'a [u32],
    pub sets: &'a [(u32, u32)],
}

fn shapes_of(alloc: Global, arrays: &[u32]) -> Result<Vec<Shape>, AllocError>
    ensures { IfOk result (λ shapes. shapes.items ≡ shapes_of arrays.now) }
{
    let mut shapes = vec![in alloc; Shape::Int, Shape::Ptr]?;
    for len in arrays {
        shapes.push(Shape::Array { len: *len, item: 0 })?;
    }
    Ok(shapes)
}

fn fun_of(alloc: Global, fun: &Function<'_>) -> Result<Fun, AllocError>
    ensures { IfOk result (λ f. f ≡ fun_of fun.now) }
{
    Ok(Fun {
        params: fun.params,
        vars: Items::from_slice(alloc, fun.vars)?,
        code: Items::from_vec(lines_of(alloc, fun.rows)?),
        line: 1,
    })
}

fn funs_of(alloc: Global, rows: &[Function<'_>]) -> Result<Vec<Fun>, AllocError>
    ensures { IfOk result (λ funs. funs.items ≡ map fun_of rows.now) }
{
    let mut funs = Vec::new(alloc);
    for row in rows {
        funs.push(fun_of(alloc, row)?)?;
    }
    Ok(funs)
}

fn set_of(alloc: Global, members: (u32, u32)) -> Result<Items<u32>, AllocError>
    ensures { IfOk result (λ set. set ≡ set_of members) }
{
    let (least, greatest) = members;
    if greatest == 0 {
        Ok(Items::new(alloc))
    } else if least < greatest {
        Items::from_slice(alloc, &[least, greatest])
    } else {
        Items::from_slice(alloc, &[least])
    }
}

fn sets_of(alloc: Global, rows: &[(u32, u32)]) -> Result<Vec<Items<u32>>, AllocError>
    ensures { IfOk result (λ sets. sets.items ≡ map set_of rows.now) }
{
    let mut sets = Vec::new(alloc);
    for row in rows {
        sets.push(set_of(alloc, *row)?)?;
    }
    Ok(sets)
}

// So many reads are checked.
fn checked(alloc: Global, reads: usize) -> Result<Items<bool>, AllocError>
    ensures { IfOk result (λ removed. removed ≡ replicate reads false) }
{
    let mut removed = Vec::new(alloc);
    removed.resize(reads, false)?;
    Ok(Items::from_vec(removed))
}

fn code_of(alloc: Global, sample: &Sample<'_>) -> Result<Code, AllocError>
    ensures { IfOk result (λ code. code ≡ (module_of sample.now).code) }
{
    Ok(Code {
        shapes: Items::from_vec(shapes_of(alloc, sample.arrays)?),
        globals: Items::from_slice(alloc, sample.globals)?,
        sites: Items::from_slice(alloc, sample.sites)?,
        main: sample.main,
        funs: Items::from_vec(funs_of(alloc, sample.funs)?),
    })
}

/// The module of a sample. Each read is checked.
pub fn module_of(alloc: Global, sample: &Sample<'_>) -> Result<Module, AllocError>
    ensures { IfOk result (λ m. m ≡ module_of sample.now) }
{
    let code = code_of(alloc, sample)?;
    let sets = sets_of(alloc, sample.sets)?;
    let removed = checked(alloc, sample.sets.len())?;
    Ok(Module {
        size: sample.size,
        code,
        classes: Classes {
            list: Items::from_slice(alloc, sample.classes)?,
        },
        sets: Sets {
            lists: Items::from_vec(sets),
        },
        removed,
        points: Points {
            rows: Items::new(alloc),
        },
        reach: Items::new(alloc),
    })
}
