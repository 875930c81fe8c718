//! A session that is played: its answers are written down beforehand, and so is what it is to be asked.

ghost use Rattle.std.specs.Prelude.{◌≡◌, ◌≢◌, IsTrue, IsOk};
ghost use Rattle.tab_model.specs.Outcome.{is_abort};
ghost use Rattle.tab_model.specs.declared.data.Reply.TheVariants as reply;

use std::alloc::{AllocError, Global};
use tab_lists::SharedTerms;
use tab_model::{Command, Limit, Reply, SharedReply};
use tab_oneshot::Steps;
use tab_term::{Term, Terms};
use tab_test_tools::atom;

/// A session whose answers are given, one letter each; after their end it answers `BadTerm`.
#[derive(Drop)]
pub struct Played {
    pub alloc: Global,
    pub answers: &'static [u8],
    /// One letter for each call. `o` is the whole command, `d` an operation, `b` a begin, `c` a commit. `a` is an abort
    /// of the list, `z` an abort of 0, `w` a wait, `+` again.
    pub wanted: &'static [u8],
    /// The number of parts that the whole command is to have.
    pub parts: usize,
    pub answered: usize,
    pub asked: usize,
    pub differs: bool,
}

impl Played {
    /// It was asked all that it was to be asked, and nothing else.
    pub fn is_right(&self) -> bool {
        !self.differs && self.asked == self.wanted.len()
    }

    fn hear(&mut self, call: u8) {
        if self.wanted.get(self.asked) != Some(&call) {
            self.differs = true;
        }
        self.asked = self.asked.saturating_add(1);
    }

    fn letter(&mut self) -> u8 {
        let letter = match self.answers.get(self.answered) {
            Some(letter) => *letter,
            None => b'.',
        };
        self.answered = self.answered.saturating_add(1);
        letter
    }
}

fn call_of(command: &Command, whole: usize) -> u8 {
    match command {
        Command::OneShot(parts, _) => {
            if parts.as_slice().len() == whole {
                b'o'
            } else {
                b'?'
            }
        }
        Command::Do(_) => b'd',
        Command::Begin => b'b',
        Command::Commit => b'c',
        Command::Abort(Term::Int(0)) => b'z',
        Command::Abort(_) => b'a',
        _ => b'?',
    }
}

fn table(alloc: Global) -> Reply
    ensures { result ≢ reply.Waiting }
{
    match atom(alloc, "t") {
        Ok(name) => Reply::NoTable(name),
        Err(_) => Reply::NoMemory,
    }
}

fn reply_of(alloc: Global, letter: u8) -> Reply
    ensures { result ≢ reply.Waiting }
{
    match letter {
        b'T' => Reply::Tid(1),
        b'k' => Reply::Done,
        b'f' => Reply::Found(SharedTerms::from_terms(Terms::from_vec(Vec::new(alloc)))),
        b'n' => table(alloc),
        b'u' => Reply::UserAbort(Term::Int(9)),
        b'j' => Reply::AtomicOk,
        b'A' => Reply::Atomic(4),
        b'R' => Reply::Restart,
        b's' => Reply::SystemLimit(Limit::Nesting),
        b'E' => Reply::NoMemory,
        b'B' => Reply::BadSession,
        b'X' => Reply::NoTransaction,
        b'W' => Reply::WaitingNow,
        b'Q' => Reply::NotWaiting,
        b'I' => Reply::InTransaction,
        _ => Reply::BadTerm,
    }
}

fn is_free(command: &Command) -> bool
    ensures { result ≡ is_abort command.now }
{
    match command {
        Command::Abort(_) => true,
        _ => false,
    }
}

/// An abort is never refused for memory.
fn told(alloc: Global, letter: u8, is_free: bool) -> Result<SharedReply, AllocError>
    ensures { IsTrue is_free → IsOk result }
{
    if is_free {
        return Ok(SharedReply::new(reply_of(alloc, letter)));
    }
    match letter {
        b'E' => Err(AllocError),
        b'w' => Ok(SharedReply::new(Reply::Waiting)),
        _ => Ok(SharedReply::new(reply_of(alloc, letter))),
    }
}

impl Steps for Played {
    ghost shows = { λ x calls y. Unit {0} };

    ghost shows_none = { λ x. tt };

    ghost shows_on = { λ x y z first more h k. tt };

    fn step(&mut self, command: Command) -> Result<SharedReply, AllocError> {
        let is_free = is_free(&command);
        self.hear(call_of(&command, self.parts));
        let letter = self.letter();
        told(self.alloc, letter, is_free)
    }

    fn wait(&mut self) -> Option<Result<SharedReply, AllocError>> {
        self.hear(b'w');
        let letter = self.letter();
        match letter {
            b'N' => None,
            b'E' => Some(Err(AllocError)),
            _ => Some(Ok(SharedReply::new(reply_of(self.alloc, letter)))),
        }
    }

    fn again(&mut self) {
        self.hear(b'+');
    }
}
