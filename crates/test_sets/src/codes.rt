ghost use Rattle.std.specs.Prelude.{IfOk};
ghost use Rattle.tac_ir.specs.GoodForm.{GoodForm};

use std::alloc::{AllocError, Global};
use tac_ir::{Module, Size};
use test_samples::{Function, Row, Sample, module_of};

const FORKED_MAIN: [Row; 11] = [
    Row::Const(0, 0),
    Row::Const(1, 1),
    Row::Fork(9, 3, 6),
    Row::Const(2, 2),
    Row::Const(3, 3),
    Row::End,
    Row::Const(2, 4),
    Row::Const(3, 5),
    Row::End,
    Row::Const(0, 6),
    Row::Halt(0),
];

const FORKED: Sample<'static> = Sample {
    size: Size::Small,
    arrays: &[],
    globals: &[],
    sites: &[],
    main: 0,
    funs: &[Function {
        params: 0,
        vars: &[],
        rows: &FORKED_MAIN,
    }],
    classes: &[],
    sets: &[],
};

/// Two branches of two instructions each.
pub fn forked(alloc: Global) -> Result<Module, AllocError>
    ensures { IfOk result (λ m. GoodForm m.code) }
{
    module_of(alloc, &FORKED)
}

const CALLING_MAIN: [Row; 8] = [
    Row::Const(0, 0),
    Row::Fork(6, 2, 4),
    Row::Call(1, 1, 1),
    Row::End,
    Row::Call(1, 2, 2),
    Row::End,
    Row::Call(1, 3, 3),
    Row::Halt(0),
];

const FIRST: [Row; 3] = [Row::Const(0, 0), Row::Call(1, 3, 4), Row::Ret(0, 1)];

const SECOND: [Row; 3] = [Row::Const(0, 0), Row::Call(1, 3, 5), Row::Ret(0, 2)];

const SHARED: [Row; 2] = [Row::Const(0, 0), Row::Ret(0, 3)];

const CALLING: Sample<'static> = Sample {
    size: Size::Small,
    arrays: &[],
    globals: &[],
    sites: &[],
    main: 0,
    funs: &[
        Function {
            params: 0,
            vars: &[],
            rows: &CALLING_MAIN,
        },
        Function {
            params: 0,
            vars: &[],
            rows: &FIRST,
        },
        Function {
            params: 0,
            vars: &[],
            rows: &SECOND,
        },
        Function {
            params: 0,
            vars: &[],
            rows: &SHARED,
        },
    ],
    classes: &[],
    sets: &[],
};

/// Two branches that call a function each, both of which call one more; and `main` calls it after the join.
pub fn calling(alloc: Global) -> Result<Module, AllocError>
    ensures { IfOk result (λ m. GoodForm m.code) }
{
    module_of(alloc, &CALLING)
}
