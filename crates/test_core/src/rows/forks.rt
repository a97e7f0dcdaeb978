use crate::row::{MILLION, Row};
use crate::sample::Sample;

static ROWS: [Row; 4] = [
    Row {
        title: "forks fourteen deep",
        sample: Sample::Fourteen,
        input: &[],
        names: None,
        budget: MILLION,
    },
    Row {
        title: "forks fifteen deep",
        sample: Sample::Fifteen,
        input: &[],
        names: None,
        budget: MILLION,
    },
    Row {
        title: "fourteen words for fifteen branches",
        sample: Sample::Sharing,
        input: &[],
        names: None,
        budget: MILLION,
    },
    Row {
        title: "a fork too deep without a word to share",
        sample: Sample::Deepening,
        input: &[],
        names: None,
        budget: MILLION,
    },
];

/// Forks, and what ends them.
pub fn rows() -> &'static [Row] {
    &ROWS
}
