//! What `clap` is told of the words.
ghost use Rattle.std.specs.Prelude.{◌≡◌, IfOk};
ghost use Rattle.clap.specs.Words.{app_of};
ghost use Rattle.command_words.specs.Grammar.{command_line};

use clap::{Arg, ArgAction};
use std::alloc::{AllocError, Global};

/// The command line: `run`, or `drill` with its two options.
pub(crate) fn command_line<'a>(alloc: Global) -> Result<clap::Command<'a>, AllocError>
    ensures { IfOk result (λ c. app_of c ≡ command_line) }
{
    let seed = Arg::new(alloc, "seed")
        .long("seed")
        .required(true)
        .action(ArgAction::Set);
    let size = Arg::new(alloc, "size")
        .long("size")
        .required(true)
        .action(ArgAction::Set);
    let run = clap::Command::new(alloc, "run");
    let drill = clap::Command::new(alloc, "drill").arg(seed)?.arg(size)?;
    clap::Command::new(alloc, "score")
        .no_binary_name(true)
        .disable_help_flag(true)
        .disable_help_subcommand(true)
        .subcommand_required(true)
        .subcommand(run)?
        .subcommand(drill)
}
