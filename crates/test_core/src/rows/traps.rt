use crate::row::{MILLION, Row};
use crate::sample::Sample;

static ROWS: [Row; 3] = [
    Row {
        title: "a store outside memory",
        sample: Sample::Wild,
        input: &[],
        names: None,
        budget: MILLION,
    },
    Row {
        title: "a block that was not taken is freed",
        sample: Sample::Freeing,
        input: &[],
        names: None,
        budget: MILLION,
    },
    Row {
        title: "a division by zero",
        sample: Sample::Dividing,
        input: &[],
        names: None,
        budget: MILLION,
    },
];

/// Runs that a trap ends.
pub fn rows() -> &'static [Row] {
    &ROWS
}
