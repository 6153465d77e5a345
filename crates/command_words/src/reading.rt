//! The command that the words ask for, as `clap` reads them.
ghost use Rattle.std.specs.Prelude.{◌≡◌, codes, map, option_and_then, string_bytes};
ghost use Rattle.clap.specs.Words.{first_of, found_of, rows_of, subcommand_rows_of};
ghost use Rattle.score_base.specs.Numbers.{number};
ghost use Rattle.command_words.specs.Commands.{Answers, command_of, drill_by, has_dashes, size_of};
ghost use Rattle.command_words.specs.Grammar.{Tells, command_at, told};

use crate::commands::{Command, NoCommand};
use crate::grammar::command_line;
use crate::limits::MAX_SIZE;
use clap::error::ErrorKind;
use clap::{ArgMatches, Error};
use score_base::number;
use std::alloc::Global;

/// A number from 1 to [`MAX_SIZE`].
fn size(word: &[u8]) -> Option<u64>
    ensures { result ≡ size_of word.now }
{
    let n = number(word)?;
    if 1 <= n && n <= MAX_SIZE {
        Some(n)
    } else {
        None
    }
}

/// The number that `--seed` was given.
fn seed_given(matches: &ArgMatches<'_>) -> Option<u64>
    ensures { result ≡ option_and_then number (first_of (codes "seed") (rows_of (found_of matches.now))) }
{
    match matches.get_str("seed") {
        Some(word) => number(word.as_bytes()),
        None => None,
    }
}

/// The size that `--size` was given.
fn size_given(matches: &ArgMatches<'_>) -> Option<u64>
    ensures { result ≡ option_and_then size_of (first_of (codes "size") (rows_of (found_of matches.now))) }
{
    match matches.get_str("size") {
        Some(word) => size(word.as_bytes()),
        None => None,
    }
}

/// The drill with this seed and this size, where there are both.
fn drill(seed: Option<u64>, size: Option<u64>) -> Option<Command>
    ensures { result ≡ drill_by seed size }
{
    match (seed, size) {
        (Some(seed), Some(size)) => Some(Command::Drill { seed, size }),
        _ => None,
    }
}

/// A command, or [`NoCommand::Usage`].
fn told(command: Option<Command>) -> Result<Command, NoCommand>
    ensures { result ≡ told command }
{
    match command {
        Some(command) => Ok(command),
        None => Err(NoCommand::Usage),
    }
}

/// The command that `clap` found.
fn found(matches: &ArgMatches<'_>) -> Option<Command>
    ensures { result ≡ option_and_then command_at (subcommand_rows_of matches.now) }
{
    match matches.subcommand() {
        None => None,
        Some((name, inner)) => {
            if name == "run" {
                Some(Command::Run)
            } else {
                drill(seed_given(inner), size_given(inner))
            }
        }
    }
}

/// Whether a word is `--`.
fn has_dashes(words: &[String]) -> bool
    ensures { result ≡ has_dashes (map string_bytes words.now) }
{
    for word in words {
        if word.as_str() == "--" {
            return true;
        }
    }
    false
}

/// What `clap`'s answer comes to: memory is wanting where `clap` says so, and nowhere else.
fn answer(parsed: Result<ArgMatches<'_>, Error>) -> Result<Command, NoCommand>
    ensures { Tells parsed.entry result }
{
    match parsed {
        Ok(matches) => told(found(&matches)),
        Err(error) => {
            if error.kind() == ErrorKind::OutOfMemory {
                Err(NoCommand::Memory)
            } else {
                Err(NoCommand::Usage)
            }
        }
    }
}

/// The command that these words ask for, without the program's name. It answers [`NoCommand::Usage`] exactly
/// where they ask for none; [`NoCommand::Memory`] is want of memory.
pub fn command_of(alloc: Global, words: &[String]) -> Result<Command, NoCommand>
    ensures { Answers (command_of (map string_bytes words.entry.now)) result }
{
    if has_dashes(words) {
        return Err(NoCommand::Usage);
    }
    match command_line(alloc) {
        Ok(line) => answer(line.try_get_matches_from(words)),
        Err(_) => Err(NoCommand::Memory),
    }
}
