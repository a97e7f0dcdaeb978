use crate::sample::Sample;
use dfi_base::Name;

/// A run to print: of a module on an input, by given names or else by the least ones, within a budget.
#[derive(Clone, Copy)]
pub struct Row {
    pub title: &'static str,
    pub sample: Sample,
    pub input: &'static [i32],
    pub names: Option<&'static [Name]>,
    pub budget: u64,
}

/// The budget of a run that is to end by itself.
pub const MILLION: u64 = 1_000_000;

pub const ROOT: Name = Name(1);
