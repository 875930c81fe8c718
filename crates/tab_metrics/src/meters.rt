//! The counters of a server, and its open transactions.

use crate::tallies::Tallies;
use arrayvec::ArrayVec;
use std::sync::atomic::{AtomicU64, Ordering};
use std::sync::{Mutex, Wait};
use std::time::{Clock, Duration, Instant, SystemTime};
use tab_book::SESSIONS;
use tab_server::{Count, Note};

/// A session's open transaction.
#[derive(Clone, Copy, Default)]
struct Open {
    session: u32,
    /// The time of its begin, if the clock could be read.
    since: Option<Instant>,
    /// True if it was reported as open for long.
    reported: bool,
    /// True if its session is being ended.
    ended: bool,
}

/// The constants of a server's run.
#[derive(Clone, Copy, Debug, PartialEq, Eq)]
pub struct About {
    pub version: &'static str,
    /// The most connections that are served; with `--forever`, at once.
    pub connections: u32,
}

/// The counters, each from the server's start on, and the transactions that are open.
#[derive(Drop)]
pub struct Meters {
    about: About,
    read: AtomicU64,
    written: AtomicU64,
    items: AtomicU64,
    commits: AtomicU64,
    aborts: AtomicU64,
    restarts: AtomicU64,
    waits: AtomicU64,
    given_up: AtomicU64,
    overflows: AtomicU64,
    started: AtomicU64,
    ended: AtomicU64,
    idle: AtomicU64,
    refused: AtomicU64,
    /// Sessions that were ended since their transaction was open for too long.
    limited: AtomicU64,
    /// Operations that wait for a lock.
    waiting: AtomicU64,
    /// The microseconds that operations have waited for locks.
    waited: AtomicU64,
    /// The time of the start, if the clock could be read.
    start: Option<SystemTime>,
    open: Mutex<ArrayVec<Open, SESSIONS>>,
    tallies: Tallies,
}

impl Meters {
    /// Nothing has happened yet.
    pub fn new<R: Clock>(rt: &R, about: About) -> Meters {
        Meters {
            about,
            read: AtomicU64::new(0),
            written: AtomicU64::new(0),
            items: AtomicU64::new(0),
            commits: AtomicU64::new(0),
            aborts: AtomicU64::new(0),
            restarts: AtomicU64::new(0),
            waits: AtomicU64::new(0),
            given_up: AtomicU64::new(0),
            overflows: AtomicU64::new(0),
            started: AtomicU64::new(0),
            ended: AtomicU64::new(0),
            idle: AtomicU64::new(0),
            refused: AtomicU64::new(0),
            limited: AtomicU64::new(0),
            waiting: AtomicU64::new(0),
            waited: AtomicU64::new(0),
            start: SystemTime::now(rt).ok(),
            open: Mutex::new(ArrayVec::new()),
            tallies: Tallies::new(),
        }
    }

    fn counter(&self, count: Count) -> &AtomicU64 {
        match count {
            Count::Read => &self.read,
            Count::Written => &self.written,
            Count::Items => &self.items,
            Count::Commits => &self.commits,
            Count::Aborts => &self.aborts,
            Count::Restarts => &self.restarts,
            Count::Waits => &self.waits,
            Count::GivenUp => &self.given_up,
        }
    }

    /// Counts `many` more of these.
    pub fn count(&self, count: Count, many: u64) {
        add(self.counter(count), many);
    }

    /// Adds `many` to a counter, and to that of the session if it has one.
    pub fn count_of(&self, session: u32, count: Count, many: u64) {
        add(self.counter(count), many);
        self.tallies.count(session, count, many);
    }

    /// Returns the bytes that were written to the session, and the number of items of its outbox that were sent.
    pub fn sent(&self, session: u32) -> (u64, u64) {
        self.tallies.sent(session)
    }

    /// Counts a server's report, if it has a counter.
    pub fn note(&self, note: Note) {
        match note {
            Note::Started(session) => {
                add(&self.started, 1);
                self.tallies.join(session);
            }
            Note::Ended(session) => {
                add(&self.ended, 1);
                self.tallies.leave(session);
            }
            Note::Idle(_) => add(&self.idle, 1),
            Note::NoSeat => add(&self.refused, 1),
            Note::Overflowed(_, _) => add(&self.overflows, 1),
            _ => {}
        }
    }

    /// The constants of the server's run.
    pub fn about(&self) -> About {
        self.about
    }

    /// Sessions that were ended since they were idle for too long.
    pub fn idle(&self) -> u64 {
        self.idle.load(Ordering::SeqCst)
    }

    /// Connections that were closed at once, since as many were served as may be.
    pub fn refused(&self) -> u64 {
        self.refused.load(Ordering::SeqCst)
    }

    /// Sessions that were ended since their transaction was open for too long.
    pub fn limited(&self) -> u64 {
        self.limited.load(Ordering::SeqCst)
    }

    /// Operations that wait for a lock.
    pub fn waiting(&self) -> u64 {
        self.waiting.load(Ordering::SeqCst)
    }

    /// The time that operations have waited for locks, without those that still wait.
    pub fn waited(&self) -> Duration {
        Duration::from_micros(self.waited.load(Ordering::SeqCst))
    }

    /// The time of the start in seconds from 1970 on. None if the clock could not be read.
    pub fn start(&self) -> Option<u64> {
        let since = self.start?.duration_since(SystemTime::UNIX_EPOCH).ok()?;
        Some(since.as_secs())
    }

    /// Sessions that have started.
    pub fn started(&self) -> u64 {
        self.started.load(Ordering::SeqCst)
    }

    /// Sessions that are joined.
    pub fn sessions(&self) -> u64 {
        let ended = self.ended.load(Ordering::SeqCst);
        self.started().saturating_sub(ended)
    }

    /// Sessions whose outbox was full, each as often as it was.
    pub fn overflows(&self) -> u64 {
        self.overflows.load(Ordering::SeqCst)
    }

    /// The number of these since the start.
    pub fn total(&self, count: Count) -> u64 {
        self.counter(count).load(Ordering::SeqCst)
    }

    /// The session's operation waits for a lock.
    pub fn wait<R: Clock>(&self, rt: &R, session: u32) {
        add(&self.waiting, 1);
        self.tallies.wait(session, micros(rt));
    }

    /// The session's operation waits no more.
    pub fn go_on<R: Clock>(&self, rt: &R, session: u32) {
        self.waiting.fetch_sub(1, Ordering::SeqCst);
        let since = self.tallies.go_on(session);
        if since > 0 {
            add(&self.waited, micros(rt).saturating_sub(since));
        }
    }

    /// The session has opened a transaction.
    pub fn begin<R: Wait + Clock>(&self, rt: &R, session: u32) {
        let since = Instant::now(rt).ok();
        let _kept = self.open.lock(rt).try_push(Open {
            session,
            since,
            reported: false,
            ended: false,
        });
    }

    /// The session's transaction is open no more. Returns how many seconds it was open; 0 if the clock can't be read.
    pub fn end<R: Wait + Clock>(&self, rt: &R, session: u32) -> u64 {
        let mut open = self.open.lock(rt);
        let ended = open.iter().find(|open| open.session == session).copied();
        open.retain(|open| open.session != session);
        drop(open);
        seconds(rt, ended)
    }

    /// The seconds since the session's transaction began; 0 if it has none, or if the clock can't be read.
    pub fn seconds<R: Wait + Clock>(&self, rt: &R, session: u32) -> u64 {
        let open = self.open.lock(rt);
        let found = open.iter().find(|open| open.session == session).copied();
        drop(open);
        seconds(rt, found)
    }

    /// Returns whether a transaction that `take_late` has not returned yet is open for at least `least` seconds.
    pub fn any_is_late<R: Wait + Clock>(&self, rt: &R, least: u64) -> bool {
        let open = self.open.lock(rt);
        open.iter()
            .any(|open| !open.reported && seconds(rt, Some(*open)) >= least)
    }

    /// Returns the seconds since the session's transaction began, if they are at least `least` and were not returned before.
    pub fn take_late<R: Wait + Clock>(&self, rt: &R, session: u32, least: u64) -> Option<u64> {
        let mut open = self.open.lock(rt);
        for open in open.iter_mut() {
            let age = seconds(rt, Some(*open));
            if open.session == session && !open.reported && age >= least {
                open.reported = true;
                return Some(age);
            }
        }
        None
    }

    /// Returns the sessions whose transaction is open for at least `most` seconds, each once, with these seconds.
    pub fn take_over<R: Wait + Clock>(&self, rt: &R, most: u64) -> ArrayVec<(u32, u64), SESSIONS> {
        let mut over = ArrayVec::new();
        for open in self.open.lock(rt).iter_mut() {
            let age = seconds(rt, Some(*open));
            if !open.ended && age >= most {
                open.ended = true;
                add(&self.limited, 1);
                let _kept = over.try_push((open.session, age));
            }
        }
        over
    }

    /// The number of open transactions.
    pub fn open<R: Wait>(&self, rt: &R) -> u64 {
        self.open.lock(rt).len() as u64
    }

    /// The seconds since the oldest of them began; 0 if there is none.
    pub fn oldest<R: Wait + Clock>(&self, rt: &R) -> u64 {
        let first = self.open.lock(rt).first().copied();
        seconds(rt, first)
    }
}

/// The seconds since it began.
fn seconds<R: Clock>(rt: &R, open: Option<Open>) -> u64 {
    let Some(
        Open {
            since: Some(since),
            ..
        },
    ) = open
    else {
        return 0;
    };
    match since.elapsed(rt) {
        Ok(age) => age.as_secs(),
        Err(_) => 0,
    }
}

/// The microseconds since a start, which stays the same; 0 if the clock can't be read.
fn micros<R: Clock>(rt: &R) -> u64 {
    match rt.monotonic() {
        Ok(time) => {
            let micros = u64::from(time.subsec_micros());
            time.as_secs()
                .saturating_mul(1_000_000)
                .saturating_add(micros)
        }
        Err(_) => 0,
    }
}

fn add(counter: &AtomicU64, many: u64) {
    counter.fetch_add(many, Ordering::SeqCst);
}
