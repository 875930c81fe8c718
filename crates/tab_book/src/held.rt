//! Several steps of one session under one hold of the lock.

ghost use Rattle.std.specs.Prelude.{◌≡◌, IsTrue, IfOk, IsOk};
ghost use mathlib.Core.List.{IsPrefix};
ghost use Rattle.tab_book.specs.Replies.{IsAnswer};
ghost use Rattle.tab_book.specs.Steps.{ask_of, is_never_refused};

use crate::book::Book;
use crate::log::Seen;
use crate::shared::{Seat, Shared};
use crate::step::{Answered, Step};
use std::alloc::AllocError;
use std::sync::MutexGuard;
use tab_core::Rest;
use tab_post::Host;

/// The most steps under one hold.
const STEPS: usize = 1_000;

/// A session's hold of a shared book, from a step until `give_back`. Steps under one hold are adjacent: no other
/// session's step is between them. It releases itself after a thousand steps, so that others are not kept long.
#[derive(Drop)]
pub struct Held<'a, H: Host> {
    host: &'a H,
    shared: &'a Shared<H>,
    book: Option<MutexGuard<'a, Book<H>>>,
    steps: usize,
    /// True if one of the steps may let another session go on.
    releases: bool,
    /// What was seen of the log.
    pub seen: Seen<H>,
}

impl<'a, H: Host> Held<'a, H> {
    /// A hold that has not locked the book yet.
    pub fn new(host: &'a H, shared: &'a Shared<H>) -> Held<'a, H> {
        Held {
            host,
            shared,
            book: None,
            steps: 0,
            releases: false,
            seen: shared.seen(),
        }
    }

    /// Makes a step of the session; the book stays locked.
    pub fn step(&mut self, seat: &Seat, step: Step) -> Result<Answered, AllocError>
        ensures never { IsTrue (is_never_refused step) → IsOk result }
        ensures answer { IfOk result (λ r.
            IsAnswer self.old.seen self.new.seen seat.now (ask_of step) r) }
        ensures grows { IsPrefix self.old.seen self.new.seen }
    {
        if self.steps >= STEPS {
            self.give_back();
        }
        let mut book = match self.book.take() {
            Some(book) => book,
            None => self.shared.hold(self.host),
        };
        let answered = book.step_shown(seat.session(), step, &mut self.seen);
        self.book = Some(book);
        if let Ok(answered) = &answered {
            self.steps = self.steps.saturating_add(1);
            self.releases |= answered.releases;
        }
        answered
    }

    /// The back-off state of the session.
    pub fn rest(&self, seat: &Seat) -> Rest {
        match &self.book {
            Some(book) => book.rest(seat.session()),
            None => self.shared.hold(self.host).rest(seat.session()),
        }
    }

    /// Unlocks the book, and wakes the sessions that may go on since.
    pub fn give_back(&mut self)
        ensures seen { self.new.seen ≡ self.old.seen }
    {
        self.steps = 0;
        let releases = self.releases;
        self.releases = false;
        if let Some(book) = self.book.take() {
            self.shared.let_go(self.host, book, releases);
        }
    }
}
