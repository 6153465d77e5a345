//! The words of the command line, read by `clap`.
//!
//! `specs/Commands.antt` says which words ask for which command (`command_of`): `run` alone, or `drill` with
//! `--seed` and `--size`, each once, in either order, each as two words or as one with `=`. [`command_of`] is
//! exactly this: a command is answered where the words ask for it, [`NoCommand::Usage`] where they ask for
//! none, and [`NoCommand::Memory`] only where `clap` says that memory ran out. `specs/Grammar.antt` has what
//! `clap` is told of the words, and what its matches mean.
//!
//! A word `--` is refused before `clap` sees the words, which would read what stands behind it otherwise.
//! Each seed and each size has words that ask for it, and no other size is asked for ([`law_command_words`]).
//! Nothing is printed: `clap`'s own text of an error is dropped.
#![tactic(auto)]

mod commands;
mod grammar;
mod laws;
mod limits;
mod reading;

pub use commands::{Command, NoCommand};
pub use laws::law_command_words;
pub use limits::MAX_SIZE;
pub use reading::command_of;

#[cfg(test)]
mod tests;
