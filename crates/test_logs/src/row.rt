ghost use Rattle.std.specs.Prelude.{IfOk};
ghost use Rattle.word_table.specs.Tables.{CanRun};

use dfi_base::Name;
use std::alloc::{AllocError, Global};
use tac_ir::Module;
use test_samples::branches;

/// A module to run, by its name in `test_samples`.
#[derive(Clone, Copy)]
pub enum Sample {
    Branching,
    Nesting,
    Stopping,
}

impl Sample {
    pub fn module(self, alloc: Global) -> Result<Module, AllocError>
        ensures { IfOk result CanRun }
    {
        match self {
            Sample::Branching => branches::branching(alloc),
            Sample::Nesting => branches::nesting(alloc),
            Sample::Stopping => branches::stopping(alloc),
        }
    }
}

/// A run of a sample by these names, within a budget, and the names of the entries that stand behind it.
#[derive(Drop)]
pub struct Row {
    pub sample: Sample,
    pub budget: u64,
    pub names: Vec<Name>,
    pub behind: Vec<Name>,
}

/// The row of a line.
pub fn row_of(alloc: Global, line: &str) -> Result<Option<Row>, AllocError> {
    let words: Vec<&str> = line.split(' ').collect(alloc)?;
    match words.as_slice() {
        ["branching", words @ ..] => row_by(alloc, Sample::Branching, words),
        ["nesting", words @ ..] => row_by(alloc, Sample::Nesting, words),
        ["stopping", words @ ..] => row_by(alloc, Sample::Stopping, words),
        _ => Ok(None),
    }
}

fn row_by(alloc: Global, sample: Sample, words: &[&str]) -> Result<Option<Row>, AllocError> {
    let [budget, words @ ..] = words else {
        return Ok(None);
    };
    let Ok(budget) = budget.parse::<u64>() else {
        return Ok(None);
    };
    let mut names = Vec::new(alloc);
    let mut behind = Vec::new(alloc);
    let mut is_behind = false;
    for word in words {
        match word.parse::<u64>() {
            Ok(name) if is_behind => behind.push(Name(name))?,
            Ok(name) => names.push(Name(name))?,
            Err(_) => is_behind = true,
        }
    }
    Ok(Some(Row {
        sample,
        budget,
        names,
        behind,
    }))
}
