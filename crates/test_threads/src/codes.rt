ghost use Rattle.std.specs.Prelude.{IfOk};
ghost use Rattle.tac_ir.specs.GoodForm.{GoodForm};

use std::alloc::{AllocError, Global};
use tac_ir::{BinOp, Module, Size};
use test_samples::branches::deepening;
use test_samples::{Function, Row, Sample, Spot, module_of};

/// Counts up from a number to 0, and puts out each number.
pub fn counting(alloc: Global, from: i32) -> Result<Module, AllocError>
    ensures { IfOk result (λ m. GoodForm m.code) }
{
    let rows = [
        Row::Const(0, from),
        Row::Const(1, 1),
        Row::Turn,
        Row::Test(0, 4, 7),
        Row::Out(0),
        Row::Bin(0, BinOp::Add, 0, 1),
        Row::Jump(2),
        Row::Halt(0),
    ];
    let main = [Function {
        params: 0,
        vars: &[],
        rows: &rows,
    }];
    let sample = Sample {
        size: Size::Small,
        arrays: &[],
        globals: &[],
        sites: &[],
        main: 0,
        funs: &main,
        classes: &[],
        sets: &[],
    };
    module_of(alloc, &sample)
}

const TWICE_MAIN: [Row; 11] = [
    Row::Const(0, -2),
    Row::Const(1, 1),
    Row::Turn,
    Row::Test(0, 4, 10),
    Row::Fork(8, 5, 7),
    Row::Out(0),
    Row::End,
    Row::End,
    Row::Bin(0, BinOp::Add, 0, 1),
    Row::Jump(2),
    Row::Halt(0),
];

const TWICE: Sample<'static> = Sample {
    size: Size::Small,
    arrays: &[],
    globals: &[],
    sites: &[],
    main: 0,
    funs: &[Function {
        params: 0,
        vars: &[],
        rows: &TWICE_MAIN,
    }],
    classes: &[],
    sets: &[],
};

/// Forks twice, into a branch that puts out a temporary and one that ends at once.
pub fn twice(alloc: Global) -> Result<Module, AllocError>
    ensures { IfOk result (λ m. GoodForm m.code) }
{
    module_of(alloc, &TWICE)
}

/// A function that forks into a call of itself and a branch that ends at once, and `main`, which calls it.
pub fn nesting(alloc: Global) -> Result<Module, AllocError>
    ensures { IfOk result (λ m. GoodForm m.code) }
{
    deepening(alloc)
}

const CALLING_MAIN: [Row; 5] = [
    Row::Const(0, 5),
    Row::Pass(1, 1, 1, 0),
    Row::Pass(2, 1, 2, 1),
    Row::Out(2),
    Row::Halt(2),
];

const ADDING_TWO: [Row; 3] = [Row::Pass(1, 2, 3, 0), Row::Pass(1, 2, 4, 1), Row::Ret(1, 1)];

const ADDING_ONE: [Row; 3] = [
    Row::Const(1, 1),
    Row::Bin(2, BinOp::Add, 0, 1),
    Row::Ret(2, 2),
];

const CALLING: Sample<'static> = Sample {
    size: Size::Small,
    arrays: &[],
    globals: &[],
    sites: &[],
    main: 0,
    funs: &[
        Function {
            params: 0,
            vars: &[],
            rows: &CALLING_MAIN,
        },
        Function {
            params: 1,
            vars: &[0],
            rows: &ADDING_TWO,
        },
        Function {
            params: 1,
            vars: &[0],
            rows: &ADDING_ONE,
        },
    ],
    classes: &[],
    sets: &[],
};

/// Adds 2 to a number twice, by a function that calls another one twice.
pub fn calling(alloc: Global) -> Result<Module, AllocError>
    ensures { IfOk result (λ m. GoodForm m.code) }
{
    module_of(alloc, &CALLING)
}

const SUMMING_MAIN: [Row; 4] = [
    Row::Const(0, 3),
    Row::Pass(1, 1, 1, 0),
    Row::Out(1),
    Row::Halt(1),
];

const SUMMING_DOWN: [Row; 6] = [
    Row::Test(0, 1, 5),
    Row::Const(1, -1),
    Row::Bin(2, BinOp::Add, 0, 1),
    Row::Pass(3, 1, 2, 2),
    Row::Bin(0, BinOp::Add, 0, 3),
    Row::Ret(0, 1),
];

const SUMMING: Sample<'static> = Sample {
    size: Size::Small,
    arrays: &[],
    globals: &[],
    sites: &[],
    main: 0,
    funs: &[
        Function {
            params: 0,
            vars: &[],
            rows: &SUMMING_MAIN,
        },
        Function {
            params: 1,
            vars: &[0],
            rows: &SUMMING_DOWN,
        },
    ],
    classes: &[],
    sets: &[],
};

/// Puts out the sum of the numbers from 3 down, by a function that calls itself.
pub fn summing(alloc: Global) -> Result<Module, AllocError>
    ensures { IfOk result (λ m. GoodForm m.code) }
{
    module_of(alloc, &SUMMING)
}

const SHARING_MAIN: [Row; 9] = [
    Row::Fork(7, 1, 4),
    Row::Const(0, 7),
    Row::Set(Spot::Local(0), 0, 1),
    Row::End,
    Row::Call(1, 1, 2),
    Row::Out(1),
    Row::End,
    Row::Get(2, Spot::Local(0), 1),
    Row::Halt(2),
];

const SHARING_READS: [Row; 5] = [
    Row::Addr(0, Spot::Local(0)),
    Row::Const(1, 2),
    Row::Index(2, 0, 1),
    Row::Load(3, 2, 2),
    Row::Ret(3, 3),
];

const SHARING: Sample<'static> = Sample {
    size: Size::Small,
    arrays: &[3],
    globals: &[],
    sites: &[],
    main: 0,
    funs: &[
        Function {
            params: 0,
            vars: &[0],
            rows: &SHARING_MAIN,
        },
        Function {
            params: 0,
            vars: &[2],
            rows: &SHARING_READS,
        },
    ],
    classes: &[],
    sets: &[],
};

/// Forks: one branch writes main's variable, the other calls a function that reads an array of its own, and `main` then
/// reads its variable.
pub fn sharing(alloc: Global) -> Result<Module, AllocError>
    ensures { IfOk result (λ m. GoodForm m.code) }
{
    module_of(alloc, &SHARING)
}
