use crate::row::{MILLION, Row};
use crate::sample::Sample;

static ROWS: [Row; 3] = [
    Row {
        title: "a store beyond a global array",
        sample: Sample::Neighbour,
        input: &[],
        names: None,
        budget: MILLION,
    },
    Row {
        title: "a store beyond an array in the frame of the caller",
        sample: Sample::Overrun,
        input: &[],
        names: None,
        budget: MILLION,
    },
    Row {
        title: "a store onto the return link",
        sample: Sample::Diverted,
        input: &[],
        names: None,
        budget: MILLION,
    },
];

/// Stores beyond an array.
pub fn rows() -> &'static [Row] {
    &ROWS
}
