ghost use Rattle.std.specs.Prelude.{IfOk};
ghost use Rattle.word_table.specs.Tables.{CanRun};

use crate::build::{Function, Sample, module_of};
use crate::row::{Row, Spot};
use std::alloc::{AllocError, Global};
use tac_ir::{BinOp, Global as Variable, Module, Size};

const INT: Variable = Variable {
    shape: 0,
    start: 0,
    line: 1,
};

/// `int main() { while (1) { } }`, without its test
const LOOPING: Sample<'static> = Sample {
    size: Size::Small,
    arrays: &[],
    globals: &[],
    sites: &[],
    main: 0,
    funs: &[Function {
        params: 0,
        vars: &[],
        rows: &[Row::Turn, Row::Jump(0)],
    }],
    classes: &[],
    sets: &[],
};

pub fn looping(alloc: Global) -> Result<Module, AllocError>
    ensures { IfOk result CanRun }
{
    module_of(alloc, &LOOPING)
}

const WORKING_MAIN: [Row; 6] = [
    Row::Turn,
    Row::Get(0, Spot::Global(0), 1),
    Row::Const(1, 1),
    Row::Bin(2, BinOp::Add, 0, 1),
    Row::Set(Spot::Global(0), 2, 2),
    Row::Jump(0),
];

/// `int x; int main() { while (1) { x = x + 1; } }`, without its test
const WORKING: Sample<'static> = Sample {
    size: Size::Small,
    arrays: &[],
    globals: &[INT],
    sites: &[],
    main: 0,
    funs: &[Function {
        params: 0,
        vars: &[],
        rows: &WORKING_MAIN,
    }],
    classes: &[1, 1],
    sets: &[(1, 2)],
};

pub fn working(alloc: Global) -> Result<Module, AllocError>
    ensures { IfOk result CanRun }
{
    module_of(alloc, &WORKING)
}

const ENDLESS_MAIN: [Row; 3] = [Row::Call(0, 1, 1), Row::Const(1, 0), Row::Halt(1)];

const ENDLESS_AGAIN: [Row; 3] = [Row::Call(0, 1, 2), Row::Const(1, 0), Row::Ret(1, 1)];

const ENDLESS_FUNS: [Function<'static>; 2] = [
    Function {
        params: 0,
        vars: &[],
        rows: &ENDLESS_MAIN,
    },
    Function {
        params: 0,
        vars: &[],
        rows: &ENDLESS_AGAIN,
    },
];

/// A function that calls itself without end.
const ENDLESS: Sample<'static> = Sample {
    size: Size::Small,
    arrays: &[],
    globals: &[],
    sites: &[],
    main: 0,
    funs: &ENDLESS_FUNS,
    classes: &[1, 1],
    sets: &[(1, 2)],
};

pub fn endless(alloc: Global) -> Result<Module, AllocError>
    ensures { IfOk result CanRun }
{
    module_of(alloc, &ENDLESS)
}

/// The same in the large memory.
const ENDLESS_LARGE: Sample<'static> = Sample {
    size: Size::Large,
    arrays: &[],
    globals: &[],
    sites: &[],
    main: 0,
    funs: &ENDLESS_FUNS,
    classes: &[1, 1],
    sets: &[(1, 2)],
};

pub fn endless_large(alloc: Global) -> Result<Module, AllocError>
    ensures { IfOk result CanRun }
{
    module_of(alloc, &ENDLESS_LARGE)
}

// `int f(int *p) { p[2] = 7; return 0; }`
const OVERRUN_CALLEE: [Row; 10] = [
    Row::Set(Spot::Local(0), 0, 1),
    Row::Get(1, Spot::Local(0), 1),
    Row::Const(2, 2),
    Row::Index(3, 1, 2),
    Row::Const(4, 7),
    Row::Store(3, 4, 2),
    Row::Const(5, 0),
    Row::Ret(5, 2),
    Row::Const(6, 0),
    Row::Ret(6, 3),
];

const OVERRUN_MAIN: [Row; 9] = [
    Row::Const(0, 3),
    Row::Set(Spot::Local(1), 0, 3),
    Row::Addr(1, Spot::Local(0)),
    Row::Decay(2, 1, 2),
    Row::Pass(3, 0, 4, 2),
    Row::Get(4, Spot::Local(1), 4),
    Row::Out(4),
    Row::Const(5, 0),
    Row::Halt(5),
];

/// `int main() { int a[2]; int x; x = 3; f(a); putint(x); }`
const OVERRUN: Sample<'static> = Sample {
    size: Size::Small,
    arrays: &[2],
    globals: &[],
    sites: &[],
    main: 1,
    funs: &[
        Function {
            params: 1,
            vars: &[1],
            rows: &OVERRUN_CALLEE,
        },
        Function {
            params: 0,
            vars: &[2, 0],
            rows: &OVERRUN_MAIN,
        },
    ],
    classes: &[1, 2, 3, 4],
    sets: &[(1, 1), (4, 4), (4, 4), (3, 3)],
};

pub fn overrun(alloc: Global) -> Result<Module, AllocError>
    ensures { IfOk result CanRun }
{
    module_of(alloc, &OVERRUN)
}

// `int f(int *p) { p[2] = 1; return 0; }`
const DIVERTED_CALLEE: [Row; 10] = [
    Row::Set(Spot::Local(0), 0, 1),
    Row::Get(1, Spot::Local(0), 1),
    Row::Const(2, 2),
    Row::Index(3, 1, 2),
    Row::Const(4, 1),
    Row::Store(3, 4, 2),
    Row::Const(5, 0),
    Row::Ret(5, 2),
    Row::Const(6, 0),
    Row::Ret(6, 3),
];

const DIVERTED_MAIN: [Row; 7] = [
    Row::Addr(0, Spot::Local(0)),
    Row::Decay(1, 0, 2),
    Row::Pass(2, 0, 3, 1),
    Row::Const(3, 4),
    Row::Out(3),
    Row::Const(4, 0),
    Row::Halt(4),
];

/// `int main() { int a[2]; f(a); putint(4); }`
const DIVERTED: Sample<'static> = Sample {
    size: Size::Small,
    arrays: &[2],
    globals: &[],
    sites: &[],
    main: 1,
    funs: &[
        Function {
            params: 1,
            vars: &[1],
            rows: &DIVERTED_CALLEE,
        },
        Function {
            params: 0,
            vars: &[2],
            rows: &DIVERTED_MAIN,
        },
    ],
    classes: &[1, 2, 3],
    sets: &[(1, 1), (3, 3), (3, 3)],
};

pub fn diverted(alloc: Global) -> Result<Module, AllocError>
    ensures { IfOk result CanRun }
{
    module_of(alloc, &DIVERTED)
}
