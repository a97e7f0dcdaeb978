//! What words ask for.

use dfi_base::{Memory, Text};
use dfi_words::{Job, WordFault, read_words};
use std::alloc::Global;

// The words of a line.
fn words_of(alloc: Global, rest: &str) -> Result<Vec<String>, Memory> {
    let mut words = Vec::new(alloc);
    for word in rest.split(',') {
        words.push(String::from_str(alloc, word)?)?;
    }
    Ok(words)
}

// A name between bars.
fn push_name(text: &mut Vec<u8>, name: &Text) -> Result<(), Memory> {
    text.extend_from_slice(b" |")?;
    text.extend_from_slice(name.bytes())?;
    text.push(b'|')?;
    Ok(())
}

// A command with the names of its files.
fn with_names(alloc: Global, command: &str, names: &[&Text]) -> Result<Vec<u8>, Memory> {
    let mut text = Vec::from_slice(alloc, command.as_bytes())?;
    for name in names {
        push_name(&mut text, name)?;
    }
    Ok(text)
}

fn tell_replay(
    alloc: Global,
    file: &Text,
    input: &Text,
    names: &Option<Text>,
) -> Result<Vec<u8>, Memory> {
    match names {
        Some(names) => with_names(alloc, "replay", &[file, input, names]),
        None => with_names(alloc, "replay", &[file, input]),
    }
}

// The numbers of a job, as they stand behind its names.
fn numbers_of(alloc: Global, job: &Job) -> Result<String, Memory> {
    let mut text = String::new(alloc);
    match job {
        Job::Build { .. } | Job::Check { .. } | Job::Sets { .. } => writeln!(text)?,
        Job::Replay { budget, .. } => writeln!(text, " budget {budget}")?,
        Job::Gen { n } => writeln!(text, " {n}")?,
        Job::Run {
            workers,
            stripes,
            budget,
            ..
        } => writeln!(text, " workers {workers} stripes {stripes} budget {budget}")?,
        Job::Trial {
            n,
            workers,
            stripes,
            budget,
        } => writeln!(
            text,
            " {n} workers {workers} stripes {stripes} budget {budget}"
        )?,
    }
    Ok(text)
}

fn tell_job(alloc: Global, job: &Job) -> Result<Vec<u8>, Memory> {
    let mut text = match job {
        Job::Build { src } => with_names(alloc, "build", &[src])?,
        Job::Check { file } => with_names(alloc, "check", &[file])?,
        Job::Sets { src } => with_names(alloc, "sets", &[src])?,
        Job::Replay {
            file,
            input,
            names,
            ..
        } => tell_replay(alloc, file, input, names)?,
        Job::Run { file, input, .. } => with_names(alloc, "run", &[file, input])?,
        Job::Gen { .. } => with_names(alloc, "gen", &[])?,
        Job::Trial { .. } => with_names(alloc, "trial", &[])?,
    };
    let numbers = numbers_of(alloc, job)?;
    text.extend_from_slice(numbers.as_bytes())?;
    Ok(text)
}

fn tell(alloc: Global, words: &[String]) -> Result<Vec<u8>, Memory> {
    match read_words(alloc, words) {
        Ok(job) => tell_job(alloc, &job),
        Err(WordFault::Refused) => Ok(Vec::from_slice(alloc, b"refused\n")?),
        Err(WordFault::Memory) => Err(Memory),
    }
}

/// The job of these words.
pub fn tell_words(alloc: Global, rest: &str) -> Result<Vec<u8>, Memory> {
    let words = words_of(alloc, rest)?;
    tell(alloc, &words)
}

/// The job of no words.
pub fn tell_none(alloc: Global) -> Result<Vec<u8>, Memory> {
    tell(alloc, &[])
}
