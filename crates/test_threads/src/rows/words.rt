use crate::program::Program;
use crate::row::{Room, Row, Shown, Values};

static ROWS: [Row; 6] = [
    Row {
        title: "a call writes its link, and a return reads it",
        program: Program::Calling,
        values: Values::Words(Room {
            end: 105,
            wrong: None,
        }),
        limit: 100,
        shown: Shown::All,
    },
    Row {
        title: "a wrong link leads behind the call that it names",
        program: Program::Calling,
        values: Values::Words(Room {
            end: 105,
            wrong: Some(4),
        }),
        limit: 9,
        shown: Shown::All,
    },
    Row {
        title: "a link that names no call of the caller is as none",
        program: Program::Calling,
        values: Values::Words(Room {
            end: 105,
            wrong: Some(1),
        }),
        limit: 100,
        shown: Shown::All,
    },
    Row {
        title: "a function calls itself",
        program: Program::Summing,
        values: Values::Words(Room {
            end: 109,
            wrong: None,
        }),
        limit: 100,
        shown: Shown::All,
    },
    Row {
        title: "a call without room has no stack",
        program: Program::Summing,
        values: Values::Words(Room {
            end: 108,
            wrong: None,
        }),
        limit: 8,
        shown: Shown::All,
    },
    Row {
        title: "branches share the room of their parent",
        program: Program::Sharing,
        values: Values::Words(Room {
            end: 133,
            wrong: None,
        }),
        limit: 100,
        shown: Shown::All,
    },
];

/// Runs over words of 32 bits.
pub fn rows() -> &'static [Row] {
    &ROWS
}
