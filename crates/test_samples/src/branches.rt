ghost use Rattle.std.specs.Prelude.{IfOk};
ghost use Rattle.word_table.specs.Tables.{CanRun};

use crate::build::{Function, Sample, module_of};
use crate::row::{Row, Spot};
use std::alloc::{AllocError, Global};
use tac_ir::{BinOp, Global as Variable, Module, Size};

const INT: Variable = Variable {
    shape: 0,
    start: 0,
    line: 1,
};

const BRANCHING_MAIN: [Row; 13] = [
    Row::Const(0, 1),
    Row::Set(Spot::Global(0), 0, 3),
    Row::Fork(9, 3, 6),
    Row::Const(1, 2),
    Row::Set(Spot::Global(0), 1, 4),
    Row::End,
    Row::Get(2, Spot::Global(0), 1),
    Row::Set(Spot::Global(1), 2, 5),
    Row::End,
    Row::Get(3, Spot::Global(1), 2),
    Row::Out(3),
    Row::Const(4, 0),
    Row::Halt(4),
];

/// `int x; int y; int main() { x = 1; par { { x = 2; } { y = x; } } putint(y); }`
const BRANCHING: Sample<'static> = Sample {
    size: Size::Small,
    arrays: &[],
    globals: &[INT, INT],
    sites: &[],
    main: 0,
    funs: &[Function {
        params: 0,
        vars: &[],
        rows: &BRANCHING_MAIN,
    }],
    classes: &[1, 1, 2, 2, 3],
    sets: &[(3, 4), (5, 5)],
};

pub fn branching(alloc: Global) -> Result<Module, AllocError>
    ensures { IfOk result CanRun }
{
    module_of(alloc, &BRANCHING)
}

const NESTING_MAIN: [Row; 12] = [
    Row::Fork(9, 1, 7),
    Row::Fork(6, 2, 4),
    Row::Out(0),
    Row::End,
    Row::Out(0),
    Row::End,
    Row::End,
    Row::Out(0),
    Row::End,
    Row::Out(0),
    Row::Const(1, 7),
    Row::Halt(1),
];

/// `int main() { par { { par { { putint(0); } { putint(0); } } } { putint(0); } } putint(0); return 7; }`
const NESTING: Sample<'static> = Sample {
    size: Size::Small,
    arrays: &[],
    globals: &[],
    sites: &[],
    main: 0,
    funs: &[Function {
        params: 0,
        vars: &[],
        rows: &NESTING_MAIN,
    }],
    classes: &[],
    sets: &[],
};

pub fn nesting(alloc: Global) -> Result<Module, AllocError>
    ensures { IfOk result CanRun }
{
    module_of(alloc, &NESTING)
}

const STOPPING_MAIN: [Row; 8] = [
    Row::Fork(6, 1, 3),
    Row::Bin(0, BinOp::Quo, 0, 0),
    Row::End,
    Row::Out(0),
    Row::Out(0),
    Row::End,
    Row::Const(0, 0),
    Row::Halt(0),
];

/// Two branches, of which the first divides by 0 and the second writes two numbers.
const STOPPING: Sample<'static> = Sample {
    size: Size::Small,
    arrays: &[],
    globals: &[],
    sites: &[],
    main: 0,
    funs: &[Function {
        params: 0,
        vars: &[],
        rows: &STOPPING_MAIN,
    }],
    classes: &[],
    sets: &[],
};

pub fn stopping(alloc: Global) -> Result<Module, AllocError>
    ensures { IfOk result CanRun }
{
    module_of(alloc, &STOPPING)
}

const DEEPENING_MAIN: [Row; 3] = [Row::Call(0, 1, 1), Row::Const(1, 0), Row::Halt(1)];

const DEEPENING_AGAIN: [Row; 6] = [
    Row::Fork(4, 1, 3),
    Row::Call(0, 1, 2),
    Row::End,
    Row::End,
    Row::Const(1, 0),
    Row::Ret(1, 1),
];

/// A function that forks into a call of itself and a branch that ends at once.
const DEEPENING: Sample<'static> = Sample {
    size: Size::Small,
    arrays: &[],
    globals: &[],
    sites: &[],
    main: 0,
    funs: &[
        Function {
            params: 0,
            vars: &[],
            rows: &DEEPENING_MAIN,
        },
        Function {
            params: 0,
            vars: &[],
            rows: &DEEPENING_AGAIN,
        },
    ],
    classes: &[1, 1],
    sets: &[(1, 2)],
};

pub fn deepening(alloc: Global) -> Result<Module, AllocError>
    ensures { IfOk result CanRun }
{
    module_of(alloc, &DEEPENING)
}

// `int g() { int a[4081]; par { { } .. { } } }`, with fifteen blocks.
const SHARING_G: [Row; 18] = [
    Row::Fifteen,
    Row::End,
    Row::End,
    Row::End,
    Row::End,
    Row::End,
    Row::End,
    Row::End,
    Row::End,
    Row::End,
    Row::End,
    Row::End,
    Row::End,
    Row::End,
    Row::End,
    Row::End,
    Row::Const(0, 0),
    Row::Ret(0, 1),
];

// `int f(int n) { int a[4094]; if (n > 0) { f(n - 1); } else { g(); } return 0; }`
const SHARING_F: [Row; 15] = [
    Row::Set(Spot::Local(0), 0, 1),
    Row::Get(1, Spot::Local(0), 2),
    Row::Const(2, 0),
    Row::Bin(3, BinOp::Gt, 1, 2),
    Row::Test(3, 5, 10),
    Row::Get(4, Spot::Local(0), 3),
    Row::Const(5, 1),
    Row::Bin(6, BinOp::Sub, 4, 5),
    Row::Pass(7, 1, 2, 6),
    Row::Jump(11),
    Row::Call(8, 0, 3),
    Row::Const(9, 0),
    Row::Ret(9, 4),
    Row::Const(10, 0),
    Row::Ret(10, 5),
];

const SHARING_MAIN: [Row; 4] = [
    Row::Const(0, 5),
    Row::Pass(1, 1, 4, 0),
    Row::Const(2, 0),
    Row::Halt(2),
];

/// `int main() { int a[4095]; f(5); }`
const SHARING: Sample<'static> = Sample {
    size: Size::Small,
    arrays: &[4081, 4094, 4095],
    globals: &[],
    sites: &[],
    main: 2,
    funs: &[
        Function {
            params: 0,
            vars: &[2],
            rows: &SHARING_G,
        },
        Function {
            params: 1,
            vars: &[0, 3],
            rows: &SHARING_F,
        },
        Function {
            params: 0,
            vars: &[4],
            rows: &SHARING_MAIN,
        },
    ],
    classes: &[1, 2, 3, 2],
    sets: &[(3, 3), (1, 1), (1, 1), (2, 4), (2, 4)],
};

pub fn sharing(alloc: Global) -> Result<Module, AllocError>
    ensures { IfOk result CanRun }
{
    module_of(alloc, &SHARING)
}
