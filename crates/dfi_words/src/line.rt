ghost use Rattle.std.specs.Prelude.{◌≡◌, ℕ, List, [], codes, map, string_bytes, unwrap_or};
ghost use Rattle.clap.specs.Words.{all_of, app_of, found_of, rows_of, with_rule};
ghost use Rattle.dfi_words.specs.tools.Found.{AreNames, FoundBy, GivesCommand, line_app, option_arg, plain_id};
ghost use Rattle.dfi_words.specs.tools.Jobs.{words_in};
ghost use Rattle.dfi_words.specs.Reads.{replay_options, run_options};
ghost use Rattle.dfi_words.specs.Split.{Text};

use crate::job::WordFault;
use clap::{Arg, ArgAction, ArgMatches, Command};
use std::alloc::Global;

/// The id of the plain words. No option has this name.
const PLAIN: &str = "words";

/// The name of every command to `clap`, which would stand in the texts of its errors alone.
const NAME: &str = "dfi";

/// A command that takes plain words, as many as there are, and no option.
fn command<'a>(alloc: Global) -> Result<Command<'a>, WordFault>
    ensures { GivesCommand (line_app (codes "dfi") []) result }
{
    let plain = Arg::new(alloc, PLAIN).action(ArgAction::Append);
    let command = Command::new(alloc, NAME).disable_help_flag(true);
    Ok(command.arg(plain)?)
}

/// The same command, with an option of this name.
fn with_option<'a>(
    alloc: Global,
    command: Command<'a>,
    name: &'a str,
) -> Result<Command<'a>, WordFault>
    ensures { GivesCommand (with_rule (app_of command.entry) (option_arg name.entry.now)) result }
{
    let option = Arg::new(alloc, name).long(name);
    Ok(command.arg(option)?)
}

/// What the command finds in the words.
fn found<'a>(command: Command<'a>, words: &'a [String]) -> Result<ArgMatches<'a>, WordFault>
    ensures { (name : Text) (known : List Text) → app_of command.entry ≡ line_app name known → AreNames name known
        → FoundBy known (map string_bytes words.now) result }
{
    Ok(command.try_get_matches_from(words)?)
}

/// The words of a command with no option.
pub fn plain_line<'a>(alloc: Global, words: &'a [String]) -> Result<ArgMatches<'a>, WordFault>
    ensures { FoundBy [] (map string_bytes words.now) result }
{
    let command = command(alloc)?;
    found(command, words)
}

/// The words of a command with a budget.
pub fn replay_line<'a>(alloc: Global, words: &'a [String]) -> Result<ArgMatches<'a>, WordFault>
    ensures { FoundBy replay_options (map string_bytes words.now) result }
{
    let command = command(alloc)?;
    let command = with_option(alloc, command, "budget")?;
    found(command, words)
}

/// The words of a command that runs threads.
pub fn run_line<'a>(alloc: Global, words: &'a [String]) -> Result<ArgMatches<'a>, WordFault>
    ensures { FoundBy run_options (map string_bytes words.now) result }
{
    let command = command(alloc)?;
    let command = with_option(alloc, command, "workers")?;
    let command = with_option(alloc, command, "stripes")?;
    let command = with_option(alloc, command, "budget")?;
    found(command, words)
}

/// The plain words that were found, in their order; `None` where there are none.
pub fn plain_words<'m, 'a>(line: &'m ArgMatches<'a>) -> Option<&'m [&'a str]>
    ensures { words_in result ≡ unwrap_or (all_of plain_id (rows_of (found_of line.now))) [] }
{
    line.get_raw(PLAIN)
}
