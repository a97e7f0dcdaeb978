ghost use Rattle.std.specs.Prelude.{IfOk};
ghost use Rattle.word_table.specs.Tables.{CanRun};

use crate::build::{Function, Sample, module_of};
use crate::row::{Row, Spot};
use std::alloc::{AllocError, Global};
use tac_ir::{Module, Site, Size};

const UNSET_MAIN: [Row; 4] = [
    Row::Get(0, Spot::Local(0), 1),
    Row::Out(0),
    Row::Const(1, 0),
    Row::Halt(1),
];

/// `int main() { int x; putint(x); }`
const UNSET: Sample<'static> = Sample {
    size: Size::Small,
    arrays: &[],
    globals: &[],
    sites: &[],
    main: 0,
    funs: &[Function {
        params: 0,
        vars: &[0],
        rows: &UNSET_MAIN,
    }],
    classes: &[],
    sets: &[(0, 0)],
};

pub fn unset(alloc: Global) -> Result<Module, AllocError>
    ensures { IfOk result CanRun }
{
    module_of(alloc, &UNSET)
}

const INT: Site = Site { shape: 0, line: 1 };

const REUSING_MAIN: [Row; 11] = [
    Row::Const(0, 1),
    Row::New(1, 0, 0),
    Row::Const(2, 7),
    Row::Store(1, 2, 1),
    Row::Free(1),
    Row::Const(3, 1),
    Row::New(4, 3, 0),
    Row::Load(5, 4, 1),
    Row::Out(5),
    Row::Const(6, 0),
    Row::Halt(6),
];

/// A block of one `int` is written and freed, and the next block is read before it is written.
const REUSING: Sample<'static> = Sample {
    size: Size::Small,
    arrays: &[],
    globals: &[],
    sites: &[INT],
    main: 0,
    funs: &[Function {
        params: 0,
        vars: &[],
        rows: &REUSING_MAIN,
    }],
    classes: &[1],
    sets: &[(1, 1)],
};

pub fn reusing(alloc: Global) -> Result<Module, AllocError>
    ensures { IfOk result CanRun }
{
    module_of(alloc, &REUSING)
}

const READING_MAIN: [Row; 8] = [
    Row::In(0),
    Row::Out(0),
    Row::Left(1),
    Row::Out(1),
    Row::In(2),
    Row::Out(2),
    Row::Const(3, 0),
    Row::Halt(3),
];

/// Puts out a number of the input, how many are left, and the next one.
const READING: Sample<'static> = Sample {
    size: Size::Small,
    arrays: &[],
    globals: &[],
    sites: &[],
    main: 0,
    funs: &[Function {
        params: 0,
        vars: &[],
        rows: &READING_MAIN,
    }],
    classes: &[],
    sets: &[],
};

pub fn reading(alloc: Global) -> Result<Module, AllocError>
    ensures { IfOk result CanRun }
{
    module_of(alloc, &READING)
}
