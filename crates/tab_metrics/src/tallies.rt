//! The counters of each session.

use std::array;
use std::sync::atomic::{AtomicU32, AtomicU64, Ordering};
use tab_book::SESSIONS;
use tab_server::Count;

/// The counters of one session. They are free if `session` is 0, which is the number of no session.
#[derive(Drop)]
struct Tally {
    session: AtomicU32,
    written: AtomicU64,
    items: AtomicU64,
    /// The time since which its operation waits, in microseconds; 0 if none waits.
    waits: AtomicU64,
}

impl Tally {
    fn new() -> Tally {
        Tally {
            session: AtomicU32::new(0),
            written: AtomicU64::new(0),
            items: AtomicU64::new(0),
            waits: AtomicU64::new(0),
        }
    }

    fn is_of(&self, session: u32) -> bool {
        self.session.load(Ordering::SeqCst) == session
    }

    /// Takes the counters for this session if they are free. Returns whether they were.
    fn take(&self, session: u32) -> bool {
        let taken = self
            .session
            .compare_exchange(0, session, Ordering::SeqCst, Ordering::SeqCst);
        taken.is_ok()
    }

    fn give_back(&self) {
        self.written.store(0, Ordering::SeqCst);
        self.items.store(0, Ordering::SeqCst);
        self.waits.store(0, Ordering::SeqCst);
        self.session.store(0, Ordering::SeqCst);
    }
}

/// The counters of each joined session. Threads use them without a lock.
#[derive(Drop)]
pub(crate) struct Tallies {
    tallies: [Tally; SESSIONS],
}

impl Tallies {
    pub fn new() -> Tallies {
        Tallies {
            tallies: array::from_fn(|_| Tally::new()),
        }
    }

    pub fn join(&self, session: u32) {
        for step in 0..SESSIONS {
            if self.tallies[(session as usize).wrapping_add(step) % SESSIONS].take(session) {
                return;
            }
        }
    }

    pub fn leave(&self, session: u32) {
        if let Some(tally) = self.of(session) {
            tally.give_back();
        }
    }

    /// Adds `many` to the session's counter of written bytes or of sent items. It has no other counter.
    pub fn count(&self, session: u32, count: Count, many: u64) {
        let Some(tally) = self.of(session) else {
            return;
        };
        match count {
            Count::Written => {
                tally.written.fetch_add(many, Ordering::SeqCst);
            }
            Count::Items => {
                tally.items.fetch_add(many, Ordering::SeqCst);
            }
            _ => {}
        }
    }

    /// The session's operation waits since this time.
    pub fn wait(&self, session: u32, since: u64) {
        if let Some(tally) = self.of(session) {
            tally.waits.store(since, Ordering::SeqCst);
        }
    }

    /// The session's operation waits no more. Returns the time since which it has waited; 0 if that is not known.
    pub fn go_on(&self, session: u32) -> u64 {
        match self.of(session) {
            Some(tally) => tally.waits.swap(0, Ordering::SeqCst),
            None => 0,
        }
    }

    /// Returns the bytes that were written to the session, and the number of items of its outbox that were sent.
    pub fn sent(&self, session: u32) -> (u64, u64) {
        match self.of(session) {
            Some(tally) => (
                tally.written.load(Ordering::SeqCst),
                tally.items.load(Ordering::SeqCst),
            ),
            None => (0, 0),
        }
    }

    /// Finds the session's counters, mostly at the first place.
    fn of(&self, session: u32) -> Option<&Tally> {
        for step in 0..SESSIONS {
            let tally = &self.tallies[(session as usize).wrapping_add(step) % SESSIONS];
            if tally.is_of(session) {
                return Some(tally);
            }
        }
        None
    }
}
