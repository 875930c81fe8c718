//! The thread that sends the events of all connections.

use crate::encoded::Encoded;
use crate::gate::Notes;
use crate::line::Line;
use std::alloc::Global;
use std::sync::atomic::{AtomicBool, AtomicU32, Ordering};
use std::sync::{Arc, Condvar, Mutex};
use std::thread;
use std::time::Duration;
use tab_post::{Host, Room};

/// The most milliseconds of a sleep.
const SLEEP: u64 = 1_000;

/// The number of times that the thread looks at its bell before it sleeps: for some 50 microseconds.
const TURNS: u32 = 128;

/// The connections whose events one thread, the dispatcher, sends. That thread never blocks on a connection, and never
/// locks the book: the connection's own thread (`Line`) does the work that may block.
#[derive(Drop)]
pub struct Dispatcher<H: Host> {
    lines: Mutex<Vec<Arc<Line<H>, Global>>>,
    bell: Condvar,
    /// The number of sessions that have subscribed and have not left. It includes those whose connection is not in `lines`.
    watchers: AtomicU32,
    /// What a mailbox holds.
    room: Room,
    runs: AtomicBool,
    is_over: AtomicBool,
}

/// What the dispatcher takes from one connection to the next.
pub struct Round<'a, H: Host, N: Notes> {
    pub host: &'a H,
    /// What a mailbox holds.
    pub room: Room,
    pub notes: &'a N,
    pub last: Encoded,
}

// A derived Drop would be expanded, field by field, at each exit of each caller.
impl<'a, H: Host, N: Notes> Drop for Round<'a, H, N> {
    fn drop(self) {
        let Round {
            host: _,
            room: _,
            notes: _,
            last,
        } = self;
        drop(last);
    }
}

impl<H: Host> Dispatcher<H> {
    /// Creates a dispatcher without connections, whose thread is not started yet.
    pub fn new(alloc: Global, room: Room) -> Dispatcher<H> {
        Dispatcher {
            lines: Mutex::new(Vec::new(alloc)),
            bell: Condvar::new(),
            watchers: AtomicU32::new(0),
            room,
            runs: AtomicBool::new(false),
            is_over: AtomicBool::new(false),
        }
    }

    /// Records that the thread is started.
    pub fn begin(&self) {
        self.runs.store(true, Ordering::SeqCst);
    }

    /// Makes the thread end.
    pub fn end(&self) {
        self.is_over.store(true, Ordering::SeqCst);
        self.bell.notify_all();
    }

    /// Adds a connection, whose events the thread sends from now on. Returns false if the thread was not started, or if
    /// memory is refused.
    pub fn add(&self, host: &H, line: &Arc<Line<H>, Global>) -> bool {
        if !self.runs.load(Ordering::SeqCst) {
            return false;
        }
        let Ok(line) = Arc::try_clone(line) else {
            return false;
        };
        self.lines.lock(host).push(line).is_ok()
    }

    /// Removes a connection.
    pub fn remove(&self, host: &H, line: &Line<H>) {
        self.lines
            .lock(host)
            .retain(|other| other.session() != line.session());
        if line.watches() {
            self.watchers.fetch_sub(1, Ordering::SeqCst);
        }
    }

    /// Records that the connection's session subscribes. The thread looks at its mailbox from now on.
    pub fn watch(&self, line: &Line<H>) {
        if line.begin_watching() {
            self.watchers.fetch_add(1, Ordering::SeqCst);
        }
    }

    /// Wakes the thread, since items may be in mailboxes. Does nothing if no session has subscribed.
    pub fn ring(&self) {
        if self.watchers.load(Ordering::SeqCst) > 0 {
            self.bell.notify_all();
        }
    }

    /// Sends events until `end` is called.
    pub fn run<N: Notes>(&self, host: &H, alloc: Global, notes: &N) {
        let mut round = Round {
            host,
            room: self.room,
            notes,
            last: Encoded::new(alloc),
        };
        for _ in host.forever() {
            let seen = self.bell.notifications();
            if self.is_over.load(Ordering::SeqCst) {
                return;
            }
            if !self.send_all(&mut round) && !self.is_rung_soon(seen) {
                self.bell.sleep(host, seen, Duration::from_millis(SLEEP));
            }
        }
    }

    /// Returns whether the bell is rung within `TURNS` looks. A session that rings it while the thread is awake needs no
    /// system call.
    fn is_rung_soon(&self, seen: u64) -> bool {
        for _ in 0..TURNS {
            if self.bell.notifications() != seen {
                return true;
            }
            thread::yield_now();
        }
        false
    }

    /// Sends once the waiting events of each connection whose session has subscribed. Returns true if one may have more.
    fn send_all<N: Notes>(&self, round: &mut Round<'_, H, N>) -> bool {
        let lines = self.lines.lock(round.host);
        let mut more = false;
        for line in lines.iter() {
            if line.watches() {
                more |= line.send_now(round);
            }
        }
        more
    }
}
