//! The words of a command line, and what they ask for.
#![tactic(auto)]

mod commands;
mod job;
mod line;
mod number;

ghost use Rattle.std.specs.Prelude.{map, string_bytes};
ghost use Rattle.dfi_words.specs.Reads.{Answers, ReadOneWay};

use crate::commands::{one_file, one_number, replay, run, trial};
pub use job::{Job, WordFault};
use std::alloc::Global;

/// What the words after the program's name ask for.
pub fn read_words(alloc: Global, words: &[String]) -> Result<Job, WordFault>
    ensures { Answers (map string_bytes words.now) result }
{
    let Some(command) = words.first() else {
        return Err(WordFault::Refused);
    };
    match command.as_str() {
        "build" => Ok(Job::Build {
            src: one_file(alloc, words)?,
        }),
        "check" => Ok(Job::Check {
            file: one_file(alloc, words)?,
        }),
        "sets" => Ok(Job::Sets {
            src: one_file(alloc, words)?,
        }),
        "replay" => replay(alloc, words),
        "run" => run(alloc, words),
        "gen" => Ok(Job::Gen {
            n: one_number(alloc, words)?,
        }),
        "trial" => trial(alloc, words),
        _ => Err(WordFault::Refused),
    }
}

/// Words ask for one job at most.
pub fn words_are_read_one_way()
    ensures { ReadOneWay }
{}
