use crate::program::Program;
use crate::row::{Room, Row, Shown, Values};

static ROWS: [Row; 2] = [
    Row {
        title: "a thread that is 14 deep waits for good",
        program: Program::Nesting,
        values: Values::Bytes,
        limit: 100,
        shown: Shown::Last,
    },
    Row {
        title: "a million events",
        program: Program::Counting { from: -500_000 },
        values: Values::Words(Room {
            end: 5000,
            wrong: None,
        }),
        limit: 2_000_000,
        shown: Shown::Last,
    },
];

/// Runs of which the last event is shown.
pub fn rows() -> &'static [Row] {
    &ROWS
}
