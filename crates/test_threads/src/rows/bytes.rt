use crate::program::Program;
use crate::row::{Row, Shown, Values};

static ROWS: [Row; 5] = [
    Row {
        title: "a loop puts out what it counts",
        program: Program::Counting { from: -3 },
        values: Values::Bytes,
        limit: 100,
        shown: Shown::All,
    },
    Row {
        title: "a name that lives twice is two lives",
        program: Program::Twice,
        values: Values::Bytes,
        limit: 100,
        shown: Shown::All,
    },
    Row {
        title: "calls without links",
        program: Program::Calling,
        values: Values::Bytes,
        limit: 100,
        shown: Shown::All,
    },
    Row {
        title: "a sum by calls without links",
        program: Program::Summing,
        values: Values::Bytes,
        limit: 100,
        shown: Shown::All,
    },
    Row {
        title: "an index that the domain lacks is bad",
        program: Program::Sharing,
        values: Values::Bytes,
        limit: 4,
        shown: Shown::All,
    },
];

/// Runs over words of 8 bits.
pub fn rows() -> &'static [Row] {
    &ROWS
}
