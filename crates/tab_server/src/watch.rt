//! A stream is watched while its session waits for a lock.

ghost use Rattle.std.specs.Prelude.{◌≡◌, ◌↔◌, IsTrue};

use std::sync::atomic::{AtomicBool, Ordering};
use std::sync::{Condvar, Mutex, Wait};

/// The state of the thread that reads requests.
#[derive(Clone, Copy, Debug, PartialEq, Eq)]
enum Phase {
    Serving,
    /// A request waits for a lock.
    Waiting,
    Ended,
}

/// One of a session's waits.
#[derive(Clone, Copy, Debug, PartialEq, Eq)]
pub struct Waited {
    number: u64,
    /// True if it ends by an abort that is next in the stream.
    pub hears: bool,
}

#[derive(Clone, Copy, Debug)]
struct Doing {
    phase: Phase,
    /// The last wait.
    wait: Waited,
}

impl Doing {
    /// Returns whether this wait goes on.
    fn is_in(self, wait: Waited) -> bool
        ensures { IsTrue result ↔ ((self.phase ≡ Phase.Waiting) × (self.wait ≡ wait)) }
    {
        self.phase == Phase::Waiting && self.wait == wait
    }
}

/// Announces when a session's stream is to be watched. While a request waits for a lock no other thread reads the
/// stream, and its end would not be seen.
#[derive(Drop)]
pub struct Watch {
    doing: Mutex<Doing>,
    changed: Condvar,
    /// True if an abort has ended the last wait.
    aborted: AtomicBool,
}

impl Watch {
    /// No request waits.
    pub fn new() -> Watch {
        Watch {
            doing: Mutex::new(Doing {
                phase: Phase::Serving,
                wait: Waited {
                    number: 0,
                    hears: false,
                },
            }),
            changed: Condvar::new(),
            aborted: AtomicBool::new(false),
        }
    }

    /// Begins the wait of a request for a lock, which an abort that is next in the stream ends if `hears`.
    pub fn begin<R: Wait>(&self, rt: &R, hears: bool) {
        let mut doing = self.doing.lock(rt);
        self.aborted.store(false, Ordering::SeqCst);
        let number = doing.wait.number.wrapping_add(1);
        *doing = Doing {
            phase: Phase::Waiting,
            wait: Waited { number, hears },
        };
        drop(doing);
        self.changed.notify_all();
    }

    /// It waits no more.
    pub fn end<R: Wait>(&self, rt: &R) {
        self.set(rt, Phase::Serving);
    }

    /// No more requests come.
    pub fn stop<R: Wait>(&self, rt: &R) {
        self.set(rt, Phase::Ended);
    }

    /// Waits until a request waits for a lock. None if no more come.
    pub fn wanted<R: Wait>(&self, rt: &R) -> Option<Waited> {
        let doing = self.changed.wait_while(
            rt,
            self.doing.lock(rt),
            |doing| doing.phase == Phase::Serving,
        );
        if doing.phase == Phase::Waiting {
            Some(doing.wait)
        } else {
            None
        }
    }

    /// Returns whether this wait goes on.
    pub fn waits<R: Wait>(&self, rt: &R, wait: Waited) -> bool {
        self.doing.lock(rt).is_in(wait)
    }

    /// Waits until this wait is over.
    pub fn over<R: Wait>(&self, rt: &R, wait: Waited) {
        let doing = self
            .changed
            .wait_while(rt, self.doing.lock(rt), |doing| doing.is_in(wait));
        drop(doing);
    }

    /// Ends this wait by an abort, if it goes on. Returns whether it did.
    pub fn abort<R: Wait>(&self, rt: &R, wait: Waited) -> bool {
        let doing = self.doing.lock(rt);
        let ends = doing.is_in(wait);
        if ends {
            self.aborted.store(true, Ordering::SeqCst);
        }
        drop(doing);
        ends
    }

    /// True once an abort has ended the last wait.
    pub fn aborted(&self) -> &AtomicBool
        ensures { result.now ≡ self.now.aborted }
    {
        &self.aborted
    }

    fn set<R: Wait>(&self, rt: &R, phase: Phase) {
        self.doing.lock(rt).phase = phase;
        self.changed.notify_all();
    }
}
