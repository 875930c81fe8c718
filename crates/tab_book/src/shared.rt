//! A book that threads share.

ghost use Rattle.std.specs.Prelude.{◌≡◌, ◌≢◌, ◌≤◌, [], IsTrue, IfOk, IfSome, IsOk};
ghost use mathlib.Core.List.{IsPrefix};
ghost use Rattle.tab_model.specs.declared.data.Reply.TheVariants as reply;
ghost use Rattle.tab_model.specs.declared.ask.Ask.TheVariants.{Retry, Do as DoCommand};
ghost use Rattle.tab_model.specs.Outcome.{is_abort};
ghost use Rattle.tab_post.specs.Ends.{received, room_in, mailbox_of};
ghost use Rattle.tab_book.specs.Inboxes.{IsDrained, TakesIt};
ghost use Rattle.tab_book.specs.Replies.{HasJoined, IsAnswer, IsReply, IsCallReply, Leaves};
ghost use Rattle.tab_book.specs.Steps.{ask_of, is_never_refused};

use crate::bells::Bells;
use crate::book::Book;
use crate::log::Seen;
use crate::step::{Answered, Drained, JoinFault, Step, Transition};
use std::alloc::{AllocError, Global};
use std::marker::Model;
use std::sync::atomic::{AtomicBool, Ordering};
use std::sync::{Mutex, MutexGuard};
use std::thread;
use std::time::Duration;
use tab_core::Rest;
use tab_model::{Command, Reply, SharedReply};
use tab_post::{Host, Inbox, NewMailbox, Room};

/// Names a session of a book that is shared. Contracts see it as the session's number.
#[derive(Clone, Copy, Debug, PartialEq, Eq)]
pub struct Seat {
    session: u32,
}

impl Model for Seat {
    ghost use Rattle.std.specs.Prelude.{ℕ};

    ghost Value = { ℕ };

    ghost view = { λ a. a.session };

    ghost inverse = { λ n. record { session = n } };
}

impl Seat {
    /// The session's number, from 1 on; each join has a greater one.
    pub fn session(&self) -> u32
        ensures { result ≡ self.now }
    {
        self.session
    }
}

/// The number of tries before a thread waits for the lock. A thread that waits has to be woken, and then each release
/// is a switch of threads. But a thread that tries for long keeps a processor from others, and leaves the turn to luck.
const TRIES: u32 = 512;

/// The milliseconds of a sleep, if it is not woken: `NAP` in a back-off or at the begin of a wait, `SLEEP` after that.
const NAP: u64 = 20;

const SLEEP: u64 = 1_000;

/// The most index entries that are changed later under one hold. They take some 10 milliseconds.
const SETTLED: usize = 8_192;

/// A book under a lock, and the conditions that its sessions sleep on. A caller that locks it and makes steps returns
/// it by `let_go`, which wakes the sessions that may go on; the calls here do.
#[derive(Drop)]
pub struct Shared<H: Host> {
    pub book: Mutex<Book<H>>,
    bells: Bells,
    alloc: Global,
    room: Room,
    /// The log as it was at the begin.
    seen: Seen<H>,
    ghost has_room: { 1 ≤ room.items },
}

impl<H: Host> Shared<H> {
    /// The book in its lock, with a bell for each session. Each mailbox holds as much as `room` says. It takes no memory.
    pub fn new(book: Book<H>, room: Room) -> Shared<H>
        requires { 1 ≤ room.items }
        ensures { result.room ≡ room }
    {
        let alloc = book.alloc;
        let seen = book.log.seen();
        Shared {
            book: Mutex::new(book),
            bells: Bells::new(),
            alloc,
            room,
            seen,
        }
    }

    /// What a session's mailbox holds.
    pub fn room(&self) -> Room
        ensures { result ≡ self.now.room }
    {
        self.room
    }

    /// A beginning of the log, for a thread that sees more of it by its calls.
    pub fn seen(&self) -> Seen<H>
        ensures { result ≡ self.now.seen }
    {
        self.seen.again()
    }

    /// Locks the book. It tries for a while before it sleeps.
    pub fn hold(&self, host: &H) -> MutexGuard<'_, Book<H>> {
        for _ in 0..TRIES {
            if let Some(book) = self.book.try_lock() {
                return book;
            }
            thread::yield_now();
        }
        self.book.lock(host)
    }

    /// Unlocks the book. If a step released something, it wakes the sessions that may go on since. What was replaced is dropped after
    /// that, and the changes that steps left for the indexes are made in them, some at a time: others' steps come between.
    pub fn let_go(&self, host: &H, mut book: MutexGuard<'_, Book<H>>, releases: bool) {
        let replaced = book.take_replaced();
        let mut owed = book.take_owed();
        if releases {
            let ready = book.ready();
            drop(book);
            self.bells.ring(&ready);
        } else {
            drop(book);
        }
        drop(replaced);
        while owed > 0 {
            let made = self.hold(host).settle(SETTLED);
            if made == 0 {
                return;
            }
            owed = owed.saturating_sub(made);
            self.pause();
        }
    }

    // Others that want the lock get it meanwhile, also if they sleep.
    fn pause(&self) {
        for _ in 0..TRIES {
            thread::yield_now();
        }
    }

    /// Joins a session, with a mailbox of its own, whose receiving end it returns. The mailbox is created before the
    /// book is locked, since it has room for its capacity.
    pub fn join(&self, host: &H, seen: &mut Seen<H>) -> Result<(Seat, Inbox<H>), JoinFault>
        ensures number { IfOk result (λ r. 1 ≤ r.0) }
        ensures joined { IfOk result (λ r.
            HasJoined seen.old seen.new r.0 (mailbox_of r.1)) }
        ensures grows { IsPrefix seen.old seen.new }
        ensures inbox { IfOk result (λ r. received r.1 ≡ []) }
        ensures room { IfOk result (λ r. room_in r.1 ≡ self.now.room) }
    {
        let Ok(mailbox) = NewMailbox::new(self.alloc, self.room) else {
            return Err(JoinFault::NoMemory);
        };
        let (session, inbox) = self.hold(host).join_shown(mailbox, seen)?;
        Ok((Seat { session }, inbox))
    }

    /// Makes a command of the session. If it has to wait for a lock, it waits and asks again after each release, until
    /// it has another reply. If memory is refused while it asks again, the request stays queued, and an abort ends it.
    pub fn call(
        &self,
        host: &H,
        seat: &Seat,
        command: Command,
        seen: &mut Seen<H>,
    ) -> Result<SharedReply, AllocError>
        ensures reply { IfOk result (λ r. IsCallReply seen.old seen.new seat.now command r) }
        ensures grows { IsPrefix seen.old seen.new }
    {
        let told = self.step(host, seat, command, seen)?;
        if matches!(told.reply(), Reply::Waiting) {
            return self.retry(host, seat, seen);
        }
        Ok(told)
    }

    /// Makes a command of the session, once: the reply is `Waiting` if it has to wait for a lock.
    pub fn step(
        &self,
        host: &H,
        seat: &Seat,
        command: Command,
        seen: &mut Seen<H>,
    ) -> Result<SharedReply, AllocError>
        ensures abort { IsTrue (is_abort command) → IsOk result }
        ensures reply { IfOk result (λ r.
            IsReply seen.old seen.new seat.now (DoCommand command) r) }
        ensures grows { IsPrefix seen.old seen.new }
    {
        let answered = self.make(host, seat, Step::Do(command), seen)?;
        Ok(answered.told)
    }

    /// Asks for the lock that the session waits for, after each release once more, until it has another reply.
    pub fn retry(
        &self,
        host: &H,
        seat: &Seat,
        seen: &mut Seen<H>,
    ) -> Result<SharedReply, AllocError>
        ensures over { IfOk result (λ r. r ≢ reply.Waiting) }
        ensures reply { IfOk result (λ r. IsReply seen.old seen.new seat.now Retry r) }
        ensures grows { IsPrefix seen.old seen.new }
    {
        for _ in host.forever() {
            if let Some(answered) = self.retry_once(host, seat, SLEEP, seen)? {
                return Ok(answered.told);
            }
        }
        unreachable!()
    }

    /// Asks for the lock that the session waits for, after each release once more, until it has another reply. None
    /// once `over` is set: `wake` makes the session look.
    pub fn retry_until(
        &self,
        host: &H,
        seat: &Seat,
        over: &AtomicBool,
        seen: &mut Seen<H>,
    ) -> Result<Option<Answered>, AllocError>
        ensures over { IfOk result (λ answered. IfSome answered (λ a. a.told ≢ reply.Waiting)) }
        ensures answer { IfOk result (λ answered. IfSome answered (λ a.
            IsAnswer seen.old seen.new seat.now Retry a)) }
        ensures grows { IsPrefix seen.old seen.new }
    {
        let bell = self.bells.of(seat.session);
        for _ in host.forever() {
            let rung = bell.notifications();
            if over.load(Ordering::SeqCst) {
                return Ok(None);
            }
            let answered = self.make(host, seat, Step::Retry, seen)?;
            if !matches!(answered.told.reply(), Reply::Waiting) {
                return Ok(Some(answered));
            }
            bell.sleep(host, rung, Duration::from_millis(SLEEP));
        }
        unreachable!()
    }

    /// Wakes the session, so that it looks whether its wait is over.
    pub fn wake(&self, seat: &Seat) {
        self.bells.of(seat.session).notify_all();
    }

    /// Asks for the lock that the session waits for, at most `naps` times. After each it sleeps for `NAP` milliseconds,
    /// or until it is woken. None if it still has to wait.
    pub fn retry_for(
        &self,
        host: &H,
        seat: &Seat,
        naps: u32,
        seen: &mut Seen<H>,
    ) -> Result<Option<Answered>, AllocError>
        ensures over { IfOk result (λ answered. IfSome answered (λ a. a.told ≢ reply.Waiting)) }
        ensures answer { IfOk result (λ answered. IfSome answered (λ a.
            IsAnswer seen.old seen.new seat.now Retry a)) }
        ensures grows { IsPrefix seen.old seen.new }
    {
        for _ in 0..naps {
            if let Some(answered) = self.retry_once(host, seat, NAP, seen)? {
                return Ok(Some(answered));
            }
        }
        Ok(None)
    }

    /// Asks for the lock that the session waits for. If it still has to wait, it sleeps until it is woken, for
    /// `at_most` milliseconds.
    fn retry_once(
        &self,
        host: &H,
        seat: &Seat,
        at_most: u64,
        seen: &mut Seen<H>,
    ) -> Result<Option<Answered>, AllocError>
        ensures over { IfOk result (λ answered. IfSome answered (λ a. a.told ≢ reply.Waiting)) }
        ensures answer { IfOk result (λ answered. IfSome answered (λ a.
            IsAnswer seen.old seen.new seat.now Retry a)) }
        ensures grows { IsPrefix seen.old seen.new }
    {
        let bell = self.bells.of(seat.session);
        let rung = bell.notifications();
        let answered = self.make(host, seat, Step::Retry, seen)?;
        if !matches!(answered.told.reply(), Reply::Waiting) {
            return Ok(Some(answered));
        }
        bell.sleep(host, rung, Duration::from_millis(at_most));
        Ok(None)
    }

    /// Backs off after a restart until the session's lock is free and it is the oldest that backs off for it, for at
    /// most `naps` sleeps. It makes way for an older one for one sleep in which the lock was free, and no longer: that
    /// one may have gone to sleep. False if it should back off longer.
    pub fn rest(&self, host: &H, seat: &Seat, naps: u32) -> bool {
        let bell = self.bells.of(seat.session);
        let mut behind = false;
        for _ in 0..naps {
            let rung = bell.notifications();
            match self.rest_of(host, seat) {
                Rest::Over | Rest::Free => return true,
                Rest::Behind if behind => return true,
                Rest::Behind => behind = true,
                Rest::Held => behind = false,
            }
            bell.sleep(host, rung, Duration::from_millis(NAP));
            behind = behind && bell.notifications() == rung;
        }
        matches!(self.rest_of(host, seat), Rest::Over | Rest::Free)
    }

    fn rest_of(&self, host: &H, seat: &Seat) -> Rest {
        self.hold(host).rest(seat.session)
    }

    /// Takes one item more at the session's inbox, or shows that all is taken, under one hold of the lock.
    pub fn drained(&self, host: &H, seat: &Seat, inbox: &mut Inbox<H>) -> Drained
        ensures takes { TakesIt (received inbox.old) result (received inbox.new) }
        ensures mailbox { mailbox_of inbox.new ≡ mailbox_of inbox.old }
        ensures of_a_running_book { IsDrained seat.now (mailbox_of inbox.old) (received inbox.old)
            result (received inbox.new) }
    {
        self.hold(host).drained(seat.session, inbox)
    }

    /// The session's transaction ends, and its post is dropped. Returns what became of the transaction.
    pub fn leave(&self, host: &H, seat: &Seat, seen: &mut Seen<H>) -> Transition
        ensures leaves { Leaves seen.old seen.new seat.now result }
        ensures grows { IsPrefix seen.old seen.new }
    {
        match self.make(host, seat, Step::Leave, seen) {
            Ok(answered) => answered.transaction,
            Err(_) => unreachable!(),
        }
    }

    /// Returns whether the journal replays from its base to the tables. The book is locked meanwhile.
    pub fn audit(&self, host: &H) -> Result<bool, AllocError> {
        self.hold(host).audit()
    }

    /// A step, after which those are woken that may go on since.
    fn make(
        &self,
        host: &H,
        seat: &Seat,
        step: Step,
        seen: &mut Seen<H>,
    ) -> Result<Answered, AllocError>
        ensures never { IsTrue (is_never_refused step) → IsOk result }
        ensures answer { IfOk result (λ r.
            IsAnswer seen.old seen.new seat.now (ask_of step) r) }
        ensures grows { IsPrefix seen.old seen.new }
    {
        let mut book = self.hold(host);
        let answered = book.step_shown(seat.session, step, seen)?;
        self.let_go(host, book, answered.releases);
        Ok(answered)
    }
}
