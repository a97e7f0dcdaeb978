//! The programs, as rows of instructions.

use tac_ir::{Global, Size};
use test_samples::{Function, Row, Sample, Spot};

const ARRAYS_MAIN: [Row; 23] = [
    Row::Addr(0, Spot::Global(0)),
    Row::Decay(1, 0, 2),
    Row::Set(Spot::Local(0), 1, 3),
    Row::In(2),
    Row::Test(2, 5, 8),
    Row::Addr(3, Spot::Global(1)),
    Row::Decay(4, 3, 2),
    Row::Set(Spot::Local(0), 4, 4),
    Row::In(5),
    Row::Set(Spot::Local(1), 5, 5),
    Row::Get(6, Spot::Local(0), 1),
    Row::Get(7, Spot::Local(1), 2),
    Row::Index(8, 6, 7),
    Row::Const(9, 5),
    Row::Store(8, 9, 6),
    Row::Addr(10, Spot::Global(1)),
    Row::Decay(11, 10, 2),
    Row::Const(12, 0),
    Row::Index(13, 11, 12),
    Row::Load(14, 13, 3),
    Row::Out(14),
    Row::Const(15, 0),
    Row::Halt(15),
];

/// Two arrays `a` and `b` of two integers, a pointer `p` to one of them, and an index `i`: `p[i]` is written, and `b[0]` is read.
pub const ARRAYS: Sample<'static> = Sample {
    size: Size::Small,
    arrays: &[2],
    globals: &[
        Global {
            shape: 2,
            start: 0,
            line: 1,
        },
        Global {
            shape: 2,
            start: 0,
            line: 1,
        },
    ],
    sites: &[],
    main: 0,
    funs: &[Function {
        params: 0,
        vars: &[1, 0],
        rows: &ARRAYS_MAIN,
    }],
    classes: &[],
    sets: &[],
};

/// A global that is written twice.
pub const TWICE: Sample<'static> = Sample {
    size: Size::Small,
    arrays: &[],
    globals: &[Global {
        shape: 0,
        start: 0,
        line: 1,
    }],
    sites: &[],
    main: 0,
    funs: &[Function {
        params: 0,
        vars: &[],
        rows: &[
            Row::Const(0, 0),
            Row::Set(Spot::Global(0), 0, 2),
            Row::Set(Spot::Global(0), 0, 3),
            Row::Get(1, Spot::Global(0), 1),
            Row::Halt(1),
        ],
    }],
    classes: &[],
    sets: &[],
};

/// A function that writes a variable of its own twice, and is called once.
pub const ONCE: Sample<'static> = Sample {
    size: Size::Small,
    arrays: &[],
    globals: &[],
    sites: &[],
    main: 0,
    funs: &[
        Function {
            params: 0,
            vars: &[],
            rows: &[Row::Call(0, 1, 1), Row::Halt(0)],
        },
        Function {
            params: 0,
            vars: &[0],
            rows: &[
                Row::Const(0, 0),
                Row::Set(Spot::Local(0), 0, 2),
                Row::Set(Spot::Local(0), 0, 3),
                Row::Get(1, Spot::Local(0), 1),
                Row::Ret(1, 2),
            ],
        },
    ],
    classes: &[],
    sets: &[],
};

/// The same, but it calls itself.
pub const ITSELF: Sample<'static> = Sample {
    size: Size::Small,
    arrays: &[],
    globals: &[],
    sites: &[],
    main: 0,
    funs: &[
        Function {
            params: 0,
            vars: &[],
            rows: &[Row::Call(0, 1, 1), Row::Halt(0)],
        },
        Function {
            params: 0,
            vars: &[0],
            rows: &[
                Row::Const(0, 0),
                Row::Set(Spot::Local(0), 0, 2),
                Row::Set(Spot::Local(0), 0, 3),
                Row::Get(1, Spot::Local(0), 1),
                Row::Call(2, 1, 4),
                Row::Ret(1, 2),
            ],
        },
    ],
    classes: &[],
    sets: &[],
};

/// The same, but two branches of its caller call it once each.
pub const BESIDE: Sample<'static> = Sample {
    size: Size::Small,
    arrays: &[],
    globals: &[],
    sites: &[],
    main: 0,
    funs: &[
        Function {
            params: 0,
            vars: &[],
            rows: &[
                Row::Fork(5, 1, 3),
                Row::Call(0, 1, 1),
                Row::End,
                Row::Call(1, 1, 2),
                Row::End,
                Row::Const(2, 0),
                Row::Halt(2),
            ],
        },
        Function {
            params: 0,
            vars: &[0],
            rows: &[
                Row::Const(0, 0),
                Row::Set(Spot::Local(0), 0, 3),
                Row::Set(Spot::Local(0), 0, 4),
                Row::Get(1, Spot::Local(0), 1),
                Row::Ret(1, 2),
            ],
        },
    ],
    classes: &[],
    sets: &[],
};
