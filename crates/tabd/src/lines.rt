//! What a server says while it goes on, on standard error.

use crate::draining::Drained;
use crate::slow::Slow;
use std::alloc::{AllocError, Global};
use std::io;
use std::net::{Shutdown, TcpStream};
use std::sync::atomic::{AtomicBool, Ordering};
use std::sync::{Mutex, Wait};
use std::time::{Clock, Duration};
use tab_book::Activity;
use tab_etf::{Source, Target, give_all};
use tab_metrics::{Holdings, Meters, Paged, Roster, page_of, sessions_of, transaction_text};
use tab_server::{Count, Counts, Gate, Note, Notes};
use tab_words::Log;

/// The settings of lines and counters.
#[derive(Drop)]
pub struct Told {
    pub log: Log,
    pub meters: Option<Meters>,
    pub slow: Option<u32>,
    /// The most seconds that a transaction may be open.
    pub limit: Option<u32>,
    /// The most seconds that a session may be idle.
    pub idle: Option<u32>,
}

/// A device for lines, of which each is whole.
#[derive(Drop)]
pub struct Lines<R, E, I> {
    rt: R,
    alloc: Global,
    log: Log,
    device: Mutex<E>,
    /// The reason of the server's end.
    reason: Mutex<Option<String>>,
    /// The counters, if they are served or transactions are timed.
    meters: Option<Meters>,
    /// A transaction that was open for so many seconds has a line.
    slow: Option<u32>,
    /// The most seconds that a transaction may be open.
    limit: Option<u32>,
    roster: Roster,
    idle: Option<u32>,
    input: Mutex<I>,
    /// True if clients are served.
    begun: AtomicBool,
}

impl<R: Wait, E: Target, I: Source> Lines<R, E, I> {
    /// Writes lines to this device, under a lock; of the log only those that are asked for.
    pub fn new(rt: R, alloc: Global, told: Told, device: E, input: I) -> Lines<R, E, I> {
        let Told {
            log,
            meters,
            slow,
            limit,
            idle,
        } = told;
        Lines {
            rt,
            alloc,
            log,
            device: Mutex::new(device),
            reason: Mutex::new(None),
            meters,
            slow,
            limit,
            roster: Roster::new(),
            idle,
            input: Mutex::new(input),
            begun: AtomicBool::new(false),
        }
    }

    /// Writes the reason of the server's end, after the line of its end.
    pub fn put_reason(&self) {
        if let Some(reason) = self.reason.lock(&self.rt).take() {
            self.put(&reason);
        }
    }

    /// No one is left to hear that a line failed.
    fn put(&self, line: &str) {
        let mut device = self.device.lock(&self.rt);
        let _told = give_all(&mut *device, line.as_bytes());
    }

    /// Writes a line of a session, with the address of its client if it has one.
    fn put_of(&self, session: u32, what: &str) {
        let line = match self.roster.peer(&self.rt, session) {
            Some(peer) => format!(in self.alloc; "tabd: session {session} ({peer}) {what}\n"),
            None => format!(in self.alloc; "tabd: session {session} {what}\n"),
        };
        if let Ok(line) = line {
            self.put(&line);
        }
    }

    /// Writes a line of a session, if sessions have lines.
    fn log_of(&self, session: u32, what: &str) {
        if matches!(self.log, Log::Full) {
            self.put_of(session, what);
        }
    }

    /// Writes a line of a transaction that was open for `seconds` seconds, if that is long.
    fn log_slow(&self, session: u32, seconds: u64) {
        match self.slow {
            Some(least) if seconds >= u64::from(least) => {
                if let Ok(what) = format!(in self.alloc; "had a transaction open for {seconds} s") {
                    self.put_of(session, &what);
                }
            }
            _ => {}
        }
    }

    fn log_overflow(&self, session: u32, commit: u64) {
        if let Ok(what) = format!(in self.alloc; "lost its events from commit {commit} on") {
            self.log_of(session, &what);
        }
    }
}

impl<R: Wait + Clock, E: Target, I: Source> Counts for Lines<R, E, I> {
    fn count(&self, count: Count, many: u64) {
        if let Some(meters) = &self.meters {
            meters.count(count, many);
        }
    }

    fn count_of(&self, session: u32, count: Count, many: u64) {
        if let Some(meters) = &self.meters {
            meters.count_of(session, count, many);
        }
    }

    fn begin(&self, session: u32) {
        if let Some(meters) = &self.meters {
            meters.begin(&self.rt, session);
        }
    }

    fn end(&self, session: u32) {
        if let Some(meters) = &self.meters {
            self.log_slow(session, meters.end(&self.rt, session));
        }
    }

    fn subscribe(&self, session: u32) {
        self.roster.subscribe(&self.rt, session);
    }

    fn wait(&self, session: u32) {
        if let Some(meters) = &self.meters {
            meters.wait(&self.rt, session);
        }
    }

    fn go_on(&self, session: u32) {
        if let Some(meters) = &self.meters {
            meters.go_on(&self.rt, session);
        }
    }
}

impl<R: Wait + Clock, E: Target, I: Source> Paged for Lines<R, E, I> {
    fn page(&self, holdings: &Holdings) -> Result<String, AllocError> {
        match &self.meters {
            Some(meters) => page_of(&self.rt, self.alloc, meters, holdings),
            None => Ok(String::new(self.alloc)),
        }
    }

    fn sessions(&self, activities: &[Activity]) -> Result<String, AllocError> {
        match &self.meters {
            Some(meters) => sessions_of(&self.rt, self.alloc, meters, &self.roster, activities),
            None => Ok(String::new(self.alloc)),
        }
    }

    fn now(&self) -> io::Result<Duration> {
        self.rt.monotonic()
    }
}

impl<R: Wait + Clock, E: Target, I: Source> Gate for Lines<R, E, I> {
    fn before(&self, _session: u32, _call: u64) {}

    fn after(&self, _session: u32, _call: u64) {}
}

impl<R: Wait + Clock, E: Target, I: Source> Slow for Lines<R, E, I> {
    fn any_is_late(&self) -> bool {
        match (&self.meters, self.slow) {
            (Some(meters), Some(least)) => meters.any_is_late(&self.rt, u64::from(least)),
            _ => false,
        }
    }

    fn report_late(&self, activity: &Activity) {
        let (Some(meters), Some(least)) = (&self.meters, self.slow) else {
            return;
        };
        let Ok(text) = transaction_text(self.alloc, activity) else {
            return;
        };
        let session = activity.session;
        let Some(seconds) = meters.take_late(&self.rt, session, u64::from(least)) else {
            return;
        };
        if let Ok(what) = format!(in self.alloc; "has a transaction open for {seconds} s; {text}") {
            self.put_of(session, &what);
        }
    }

    fn end_late(&self) {
        let (Some(meters), Some(most)) = (&self.meters, self.limit) else {
            return;
        };
        for (session, seconds) in &meters.take_over(&self.rt, u64::from(most)) {
            self.roster.shut(&self.rt, *session, Shutdown::Both);
            if let Ok(what) = format!(in self.alloc;
                "is ended: its transaction is open for {seconds} s"
            ) {
                self.put_of(*session, &what);
            }
        }
    }
}

/// The most bytes of one read of standard input. They are dropped.
const PIECE: usize = 4_096;

impl<R: Wait + Clock, E: Target, I: Source> Drained for Lines<R, E, I> {
    fn begin_serving(&self) {
        self.begun.store(true, Ordering::SeqCst);
    }

    fn has_begun(&self) -> bool {
        self.begun.load(Ordering::SeqCst)
    }

    fn wait_for_end(&self) {
        let mut piece = [0u8; PIECE];
        for _ in self.rt.forever() {
            match self.input.lock(&self.rt).get(&mut piece) {
                Ok(0) | Err(_) => {
                    self.put("tabd: standard input has ended\n");
                    return;
                }
                Ok(_) => {}
            }
        }
    }

    fn roster(&self) -> &Roster {
        &self.roster
    }

    fn idle(&self) -> Option<u32> {
        self.idle
    }
}

impl<R: Wait + Clock, E: Target, I: Source> Notes for Lines<R, E, I> {
    fn note(&self, note: Note) {
        if let Some(meters) = &self.meters {
            meters.note(note);
        }
        match note {
            Note::NotAccepted => self.put("tabd: no connection was accepted\n"),
            Note::NoMemory => self.put("tabd: no memory for a session\n"),
            Note::NoThread => self.put("tabd: no thread for a session\n"),
            Note::Idle(session) => self.put_of(session, "was idle"),
            Note::Started(session) => self.log_of(session, "has started"),
            Note::Ended(session) => {
                self.log_of(session, "has ended");
                self.roster.leave(&self.rt, session);
            }
            Note::Overflowed(session, commit) => self.log_overflow(session, commit),
            Note::NoSeat if matches!(self.log, Log::Full) => {
                self.put("tabd: no seat for a connection\n");
            }
            Note::NoSeat => {}
        }
    }

    fn connected(&self, session: u32, stream: &TcpStream, handle: Option<TcpStream>) {
        self.roster.join(&self.rt, session, stream, handle);
    }

    fn is_closing(&self) -> bool {
        self.roster.is_closing()
    }

    fn fault(&self, error: &io::Error) {
        *self.reason.lock(&self.rt) = format!(in self.alloc; "tabd: {error}\n").ok();
    }
}
