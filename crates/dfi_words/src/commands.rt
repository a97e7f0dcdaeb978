ghost use Rattle.std.specs.Prelude.{◌≡◌, ◌≢◌, ℕ, List, Option, [], ◌∷◌, map, drop, codes, string_bytes, unwrap_or};
ghost use Rattle.clap.specs.Words.{all_of, first_of, found_of, rows_of};
ghost use Rattle.dfi_words.specs.Answers.{AnswersTo, Means};
ghost use Rattle.dfi_words.specs.tools.Found.{plain_id};
ghost use Rattle.dfi_words.specs.tools.Jobs.{file_of, one_file_of, replay_of, run_of, words_in};
ghost use Rattle.dfi_words.specs.Number.{IsNumberIn, up_to};
ghost use Rattle.dfi_words.specs.Options.{GivesNumber};
ghost use Rattle.dfi_words.specs.Reads.{Asks, IsLine, IsRun, budget, sources, stripes, workers};
ghost use Rattle.dfi_words.specs.Split.{Text};

use crate::job::{Job, WordFault};
use crate::line::{plain_line, plain_words, replay_line, run_line};
use crate::number::number_up_to;
use clap::ArgMatches;
use dfi_base::Text;
use dfi_base::limits::{
    BUDGET_LIMIT, DEFAULT_BUDGET, DEFAULT_STRIPES, DEFAULT_WORKERS, STRIPE_LIMIT, WORKER_LIMIT,
};
use std::alloc::Global;

/// The most that the number of a generated source may be.
const MOST_SOURCES: u32 = 200;

/// The threads of a run, the locks that share its memory, and the entries that it may make.
#[derive(Clone, Copy)]
struct Settings {
    workers: u32,
    stripes: u32,
    budget: u32,
}

/// The name of a file, which is not empty.
fn file_name(alloc: Global, word: &str) -> Result<Text, WordFault>
    ensures { Means (file_of word.now) result }
{
    if word.is_empty() {
        return Err(WordFault::Refused);
    }
    Ok(Text::new(alloc, word.as_bytes())?)
}

/// The name of the only file.
fn only_file(alloc: Global, plain: Option<&[&str]>) -> Result<Text, WordFault>
    ensures { Means (one_file_of (words_in plain.entry)) result }
{
    match plain {
        Some([file]) => file_name(alloc, file),
        _ => Err(WordFault::Refused),
    }
}

/// The one number of a generated source.
fn only_number(plain: Option<&[&str]>) -> Result<u32, WordFault>
    ensures { AnswersTo (λ n. (number : List ℕ) × (words_in plain.entry ≡ number ∷ []) × IsNumberIn sources number n) result }
{
    match plain {
        Some([number]) => number_up_to(MOST_SOURCES, number),
        _ => Err(WordFault::Refused),
    }
}

/// The number of an option, or its default where it is left out.
fn setting(line: &ArgMatches<'_>, name: &str, most: u32, default: u32) -> Result<u32, WordFault>
    ensures { AnswersTo (GivesNumber (record { range = up_to most; default = default }) (first_of name.now (rows_of (found_of line.now)))) result }
{
    match line.get_str(name) {
        Some(text) => number_up_to(most, text),
        None => Ok(default),
    }
}

/// How many entries a run may make.
fn budget(line: &ArgMatches<'_>) -> Result<u32, WordFault>
    ensures { AnswersTo (GivesNumber budget (first_of (codes "budget") (rows_of (found_of line.now)))) result }
{
    setting(line, "budget", BUDGET_LIMIT, DEFAULT_BUDGET)
}

/// How a run on threads is made.
fn run_settings(line: &ArgMatches<'_>) -> Result<Settings, WordFault>
    ensures { AnswersTo (λ s. IsRun (λ name. first_of name (rows_of (found_of line.now))) s.workers s.stripes s.budget) result }
{
    Ok(Settings {
        workers: setting(line, "workers", WORKER_LIMIT, DEFAULT_WORKERS)?,
        stripes: setting(line, "stripes", STRIPE_LIMIT, DEFAULT_STRIPES)?,
        budget: budget(line)?,
    })
}

/// A replay of the plain words: two files, and a third where names are given.
fn replay_job(alloc: Global, plain: Option<&[&str]>, budget: u64) -> Result<Job, WordFault>
    ensures { Means (replay_of (words_in plain.entry) budget) result }
{
    match plain {
        Some([file, input]) => Ok(Job::Replay {
            file: file_name(alloc, file)?,
            input: file_name(alloc, input)?,
            names: None,
            budget,
        }),
        Some([file, input, names]) => Ok(Job::Replay {
            file: file_name(alloc, file)?,
            input: file_name(alloc, input)?,
            names: Some(file_name(alloc, names)?),
            budget,
        }),
        _ => Err(WordFault::Refused),
    }
}

/// A run of the plain words, which are two files.
fn run_job(alloc: Global, plain: Option<&[&str]>, how: Settings) -> Result<Job, WordFault>
    ensures { Means (run_of (words_in plain.entry) how.workers how.stripes how.budget) result }
{
    match plain {
        Some([file, input]) => Ok(Job::Run {
            file: file_name(alloc, file)?,
            input: file_name(alloc, input)?,
            workers: how.workers,
            stripes: how.stripes,
            budget: how.budget as u64,
        }),
        _ => Err(WordFault::Refused),
    }
}

/// The file of a command that takes one file and no option.
pub fn one_file(alloc: Global, words: &[String]) -> Result<Text, WordFault>
    ensures { AnswersTo (λ file. IsLine (drop 1 (map string_bytes words.now)) [] [] (file ∷ [])) result }
{
    let line = plain_line(alloc, words)?;
    only_file(alloc, plain_words(&line))
}

/// The number of a command that takes one number and no option.
pub fn one_number(alloc: Global, words: &[String]) -> Result<u32, WordFault>
    ensures { AnswersTo (λ n. (number : List ℕ) × IsLine (drop 1 (map string_bytes words.now)) [] [] (number ∷ []) × IsNumberIn sources number n) result }
{
    let line = plain_line(alloc, words)?;
    only_number(plain_words(&line))
}

/// A run along names, or by the least runnable thread.
pub fn replay(alloc: Global, words: &[String]) -> Result<Job, WordFault>
    ensures { AnswersTo (Asks (codes "replay") (drop 1 (map string_bytes words.now))) result }
{
    let line = replay_line(alloc, words)?;
    let budget = budget(&line)?;
    replay_job(alloc, plain_words(&line), budget as u64)
}

/// A run of a file on threads.
pub fn run(alloc: Global, words: &[String]) -> Result<Job, WordFault>
    ensures { AnswersTo (Asks (codes "run") (drop 1 (map string_bytes words.now))) result }
{
    let line = run_line(alloc, words)?;
    let how = run_settings(&line)?;
    run_job(alloc, plain_words(&line), how)
}

/// A run of a generated source on threads.
pub fn trial(alloc: Global, words: &[String]) -> Result<Job, WordFault>
    ensures { AnswersTo (Asks (codes "trial") (drop 1 (map string_bytes words.now))) result }
{
    let line = run_line(alloc, words)?;
    let n = only_number(plain_words(&line))?;
    let how = run_settings(&line)?;
    Ok(Job::Trial {
        n,
        workers: how.workers,
        stripes: how.stripes,
        budget: how.budget as u64,
    })
}
