//! The command line of a program that serves as tabd does.

ghost use Rattle.std.specs.Prelude.{◌≤◌, IfOk, map};
ghost use Rattle.clap.specs.Words.{subcommand_of};
ghost use Rattle.tab_words.specs.CommandLine.{command_line};
ghost use Rattle.tab_uses.specs.Outboxes.{IsOutboxOf};

use clap::Error;
use std::alloc::Global;
use std::convert::AsStr;
use tab_words::{Run, words};

/// The capacity of an outbox, by these words, of which the first is the program's name.
pub fn outbox_asked<'a, S: AsStr>(alloc: Global, given: &'a [S]) -> Result<u32, Error>
    ensures range { IfOk result (λ n. (1 ≤ n) × (n ≤ 65536)) }
    ensures asked { IfOk result
        (IsOutboxOf (subcommand_of command_line (map S.text given.entry.now))) }
{
    match words(alloc, given)? {
        Run::Replay { outbox } => Ok(outbox),
        Run::Serve(_, service) => Ok(service.sizes.outbox),
    }
}
