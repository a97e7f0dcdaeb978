ghost use Rattle.std.specs.Prelude.{IfOk};
ghost use Rattle.word_table.specs.Tables.{CanRun};

use crate::build::{Function, Sample, module_of};
use crate::row::{Row, Spot};
use std::alloc::{AllocError, Global};
use tac_ir::{BinOp, Global as Variable, Module, Size};

const INT: Variable = Variable {
    shape: 0,
    start: 0,
    line: 1,
};

const ARRAY: Variable = Variable {
    shape: 2,
    start: 0,
    line: 1,
};

const NEIGHBOUR_MAIN: [Row; 12] = [
    Row::Const(0, 3),
    Row::Set(Spot::Global(1), 0, 3),
    Row::Addr(1, Spot::Global(0)),
    Row::Decay(2, 1, 2),
    Row::Const(3, 4),
    Row::Index(4, 2, 3),
    Row::Const(5, 9),
    Row::Store(4, 5, 4),
    Row::Get(6, Spot::Global(1), 1),
    Row::Out(6),
    Row::Const(7, 0),
    Row::Halt(7),
];

/// `int a[4]; int x; int main() { x = 3; a[4] = 9; putint(x); }`
const NEIGHBOUR: Sample<'static> = Sample {
    size: Size::Small,
    arrays: &[4],
    globals: &[ARRAY, INT],
    sites: &[],
    main: 0,
    funs: &[Function {
        params: 0,
        vars: &[],
        rows: &NEIGHBOUR_MAIN,
    }],
    classes: &[1, 1, 2, 1],
    sets: &[(3, 3)],
};

pub fn neighbour(alloc: Global) -> Result<Module, AllocError>
    ensures { IfOk result CanRun }
{
    module_of(alloc, &NEIGHBOUR)
}

const WILD_MAIN: [Row; 8] = [
    Row::Addr(0, Spot::Global(0)),
    Row::Decay(1, 0, 2),
    Row::Const(2, 70000),
    Row::Index(3, 1, 2),
    Row::Const(4, 1),
    Row::Store(3, 4, 2),
    Row::Const(5, 0),
    Row::Halt(5),
];

/// `int a[1]; int main() { a[70000] = 1; }`
const WILD: Sample<'static> = Sample {
    size: Size::Small,
    arrays: &[1],
    globals: &[ARRAY],
    sites: &[],
    main: 0,
    funs: &[Function {
        params: 0,
        vars: &[],
        rows: &WILD_MAIN,
    }],
    classes: &[1, 2],
    sets: &[],
};

pub fn wild(alloc: Global) -> Result<Module, AllocError>
    ensures { IfOk result CanRun }
{
    module_of(alloc, &WILD)
}

const FREEING_MAIN: [Row; 4] = [
    Row::Addr(0, Spot::Global(0)),
    Row::Free(0),
    Row::Const(1, 0),
    Row::Halt(1),
];

/// `int x; int main() { free(&x); }`
const FREEING: Sample<'static> = Sample {
    size: Size::Small,
    arrays: &[],
    globals: &[INT],
    sites: &[],
    main: 0,
    funs: &[Function {
        params: 0,
        vars: &[],
        rows: &FREEING_MAIN,
    }],
    classes: &[1],
    sets: &[],
};

pub fn freeing(alloc: Global) -> Result<Module, AllocError>
    ensures { IfOk result CanRun }
{
    module_of(alloc, &FREEING)
}

const DIVIDING_MAIN: [Row; 18] = [
    Row::Const(0, -2147483648),
    Row::Set(Spot::Local(0), 0, 1),
    Row::Get(1, Spot::Local(0), 1),
    Row::Const(2, -1),
    Row::Bin(3, BinOp::Quo, 1, 2),
    Row::Out(3),
    Row::Get(4, Spot::Local(0), 2),
    Row::Const(5, -1),
    Row::Bin(6, BinOp::Rem, 4, 5),
    Row::Out(6),
    Row::Const(7, 1),
    Row::Get(8, Spot::Local(0), 3),
    Row::Get(9, Spot::Local(0), 4),
    Row::Bin(10, BinOp::Sub, 8, 9),
    Row::Bin(11, BinOp::Quo, 7, 10),
    Row::Out(11),
    Row::Const(12, 0),
    Row::Halt(12),
];

/// `m` is the least `int`: `putint(m / -1); putint(m % -1); putint(1 / (m - m));`
const DIVIDING: Sample<'static> = Sample {
    size: Size::Small,
    arrays: &[],
    globals: &[],
    sites: &[],
    main: 0,
    funs: &[Function {
        params: 0,
        vars: &[0],
        rows: &DIVIDING_MAIN,
    }],
    classes: &[1],
    sets: &[(1, 1), (1, 1), (1, 1), (1, 1)],
};

pub fn dividing(alloc: Global) -> Result<Module, AllocError>
    ensures { IfOk result CanRun }
{
    module_of(alloc, &DIVIDING)
}
