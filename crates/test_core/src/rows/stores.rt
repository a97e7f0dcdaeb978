use crate::row::{MILLION, Row};
use crate::sample::Sample;

static ROWS: [Row; 4] = [
    Row {
        title: "a variable that was never written",
        sample: Sample::Unset,
        input: &[],
        names: None,
        budget: MILLION,
    },
    Row {
        title: "a block in the place of one that was freed",
        sample: Sample::Reusing,
        input: &[],
        names: None,
        budget: MILLION,
    },
    Row {
        title: "an input of two numbers",
        sample: Sample::Reading,
        input: &[5, 6],
        names: None,
        budget: MILLION,
    },
    Row {
        title: "no input",
        sample: Sample::Reading,
        input: &[],
        names: None,
        budget: MILLION,
    },
];

/// Memory that was not written, a block of the heap, and the input.
pub fn rows() -> &'static [Row] {
    &ROWS
}
