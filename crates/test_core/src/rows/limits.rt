use crate::row::{MILLION, Row};
use crate::sample::Sample;

static ROWS: [Row; 8] = [
    Row {
        title: "recursion without end",
        sample: Sample::Endless,
        input: &[],
        names: None,
        budget: MILLION,
    },
    Row {
        title: "recursion without end in the large memory",
        sample: Sample::EndlessLarge,
        input: &[],
        names: None,
        budget: 2_000_000,
    },
    Row {
        title: "a loop without end",
        sample: Sample::Looping,
        input: &[],
        names: None,
        budget: MILLION,
    },
    Row {
        title: "a loop without end and a budget of one",
        sample: Sample::Looping,
        input: &[],
        names: None,
        budget: 1,
    },
    Row {
        title: "a loop that counts",
        sample: Sample::Working,
        input: &[],
        names: None,
        budget: 999,
    },
    Row {
        title: "a budget that ends a run",
        sample: Sample::Branching,
        input: &[],
        names: None,
        budget: 5,
    },
    Row {
        title: "a budget that is just enough",
        sample: Sample::Branching,
        input: &[],
        names: None,
        budget: 7,
    },
    Row {
        title: "a budget of one entry for each fork",
        sample: Sample::Fourteen,
        input: &[],
        names: None,
        budget: 14,
    },
];

/// Runs without end, and runs up to their budgets.
pub fn rows() -> &'static [Row] {
    &ROWS
}
