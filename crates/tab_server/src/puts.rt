//! Detection of steps that may put items into mailboxes.

ghost use Rattle.std.specs.Prelude.{◌≡◌, ◌≢◌, false, IsFalse};
ghost use Rattle.tab_server.specs.Putting.{asks_write as asks_write_of, may_put as may_put_of, with_command, with_step, IsSilent};

use std::mem;
use tab_book::{TransactionEnd, Transition};
use tab_model::{Command, Operation};

/// Records whether the session's steps since the last `take` may have put items into mailboxes. A commit may if its
/// transaction has requested a write. A schema command may, and one that begins or ends a subscription.
#[derive(Clone, Copy, Debug)]
pub struct Puts {
    /// True if the open transaction has requested a write.
    writes: bool,
    may_have: bool,
}

impl Puts {
    /// Creates the state before the first step.
    pub fn new() -> Puts
        ensures writes { IsFalse result.writes }
        ensures puts { IsFalse result.may_have }
    {
        Puts {
            writes: false,
            may_have: false,
        }
    }

    /// Records a command before its step.
    pub fn ask(&mut self, command: &Command)
        ensures asked { self.new ≡ with_command self.old command.now }
        ensures silent { IsFalse self.new.may_have → command.now ≢ Command.Commit
            → IsSilent command.now }
    {
        self.writes |= asks_write(command);
        self.may_have |= may_put(command);
    }

    /// Records the effect of a step on the transaction.
    pub fn step(&mut self, transaction: Transition)
        ensures { self.new ≡ with_step self.old transaction }
    {
        let commits = matches!(transaction.ended, Some(TransactionEnd::Commit));
        self.may_have |= commits && self.writes;
        self.writes &= transaction.after > 0;
    }

    /// Returns whether items may have been put since the last call.
    pub fn take(&mut self) -> bool
        ensures taken { result ≡ self.old.may_have }
        ensures left { self.new ≡ record self.old { may_have = false } }
    {
        mem::replace(&mut self.may_have, false)
    }
}

/// Returns whether a command is an operation that changes its table.
fn asks_write(command: &Command) -> bool
    ensures { result ≡ asks_write_of command.now }
{
    matches!(
        command,
        Command::Do(Operation::Write(_) | Operation::Delete(..) | Operation::DeleteObject(_)),
    )
}

/// Returns whether a command may put items without a transaction.
fn may_put(command: &Command) -> bool
    ensures { result ≡ may_put_of command.now }
{
    matches!(
        command,
        Command::Schema(_) | Command::Subscribe(..) | Command::Unsubscribe(..),
    )
}
