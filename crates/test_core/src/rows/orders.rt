use crate::row::{MILLION, ROOT, Row};
use crate::sample::Sample;
use dfi_base::Name;

const FIRST: Name = Name(17);

const SECOND: Name = Name(18);

static ROWS: [Row; 7] = [
    Row {
        title: "the first branch before the second",
        sample: Sample::Branching,
        input: &[],
        names: Some(&[ROOT, ROOT, FIRST, SECOND, SECOND, ROOT, ROOT]),
        budget: MILLION,
    },
    Row {
        title: "the second branch before the first",
        sample: Sample::Branching,
        input: &[],
        names: Some(&[ROOT, ROOT, SECOND, SECOND, FIRST, ROOT, ROOT]),
        budget: MILLION,
    },
    Row {
        title: "a branch before its fork",
        sample: Sample::Branching,
        input: &[],
        names: Some(&[ROOT, FIRST]),
        budget: MILLION,
    },
    Row {
        title: "a name after the end",
        sample: Sample::Branching,
        input: &[],
        names: Some(&[ROOT, ROOT, FIRST, SECOND, SECOND, ROOT, ROOT, ROOT]),
        budget: MILLION,
    },
    Row {
        title: "names that end before the run",
        sample: Sample::Branching,
        input: &[],
        names: Some(&[ROOT, ROOT]),
        budget: MILLION,
    },
    Row {
        title: "as many names as the budget",
        sample: Sample::Branching,
        input: &[],
        names: Some(&[ROOT, ROOT]),
        budget: 2,
    },
    Row {
        title: "more names than the budget",
        sample: Sample::Branching,
        input: &[],
        names: Some(&[ROOT, ROOT, FIRST]),
        budget: 2,
    },
];

/// Runs of one module by given names.
pub fn rows() -> &'static [Row] {
    &ROWS
}
