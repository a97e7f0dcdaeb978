ghost use Rattle.std.specs.Prelude.{IfOk};
ghost use Rattle.word_table.specs.Tables.{CanRun};

use crate::build::{Function, Sample, module_of};
use crate::row::Row;
use std::alloc::{AllocError, Global};
use tac_ir::{Module, Size};

const FOURTEEN_DEEP: [Row; 44] = [
    Row::Fork(42, 1, 41),
    Row::Fork(40, 2, 39),
    Row::Fork(38, 3, 37),
    Row::Fork(36, 4, 35),
    Row::Fork(34, 5, 33),
    Row::Fork(32, 6, 31),
    Row::Fork(30, 7, 29),
    Row::Fork(28, 8, 27),
    Row::Fork(26, 9, 25),
    Row::Fork(24, 10, 23),
    Row::Fork(22, 11, 21),
    Row::Fork(20, 12, 19),
    Row::Fork(18, 13, 17),
    Row::Fork(16, 14, 15),
    Row::End,
    Row::End,
    Row::End,
    Row::End,
    Row::End,
    Row::End,
    Row::End,
    Row::End,
    Row::End,
    Row::End,
    Row::End,
    Row::End,
    Row::End,
    Row::End,
    Row::End,
    Row::End,
    Row::End,
    Row::End,
    Row::End,
    Row::End,
    Row::End,
    Row::End,
    Row::End,
    Row::End,
    Row::End,
    Row::End,
    Row::End,
    Row::End,
    Row::Const(0, 0),
    Row::Halt(0),
];

/// `par` blocks with an empty branch beside each, fourteen deep.
const FOURTEEN: Sample<'static> = Sample {
    size: Size::Small,
    arrays: &[],
    globals: &[],
    sites: &[],
    main: 0,
    funs: &[Function {
        params: 0,
        vars: &[],
        rows: &FOURTEEN_DEEP,
    }],
    classes: &[],
    sets: &[],
};

pub fn fourteen(alloc: Global) -> Result<Module, AllocError>
    ensures { IfOk result CanRun }
{
    module_of(alloc, &FOURTEEN)
}

const FIFTEEN_DEEP: [Row; 47] = [
    Row::Fork(45, 1, 44),
    Row::Fork(43, 2, 42),
    Row::Fork(41, 3, 40),
    Row::Fork(39, 4, 38),
    Row::Fork(37, 5, 36),
    Row::Fork(35, 6, 34),
    Row::Fork(33, 7, 32),
    Row::Fork(31, 8, 30),
    Row::Fork(29, 9, 28),
    Row::Fork(27, 10, 26),
    Row::Fork(25, 11, 24),
    Row::Fork(23, 12, 22),
    Row::Fork(21, 13, 20),
    Row::Fork(19, 14, 18),
    Row::Fork(17, 15, 16),
    Row::End,
    Row::End,
    Row::End,
    Row::End,
    Row::End,
    Row::End,
    Row::End,
    Row::End,
    Row::End,
    Row::End,
    Row::End,
    Row::End,
    Row::End,
    Row::End,
    Row::End,
    Row::End,
    Row::End,
    Row::End,
    Row::End,
    Row::End,
    Row::End,
    Row::End,
    Row::End,
    Row::End,
    Row::End,
    Row::End,
    Row::End,
    Row::End,
    Row::End,
    Row::End,
    Row::Const(0, 0),
    Row::Halt(0),
];

/// `par` blocks with an empty branch beside each, fifteen deep.
const FIFTEEN: Sample<'static> = Sample {
    size: Size::Small,
    arrays: &[],
    globals: &[],
    sites: &[],
    main: 0,
    funs: &[Function {
        params: 0,
        vars: &[],
        rows: &FIFTEEN_DEEP,
    }],
    classes: &[],
    sets: &[],
};

pub fn fifteen(alloc: Global) -> Result<Module, AllocError>
    ensures { IfOk result CanRun }
{
    module_of(alloc, &FIFTEEN)
}
