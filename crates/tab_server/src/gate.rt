//! The reports of a server about its calls and sessions.

use std::io;
use std::net::TcpStream;

/// A report of a server while it runs.
#[derive(Clone, Copy, Debug, PartialEq, Eq)]
pub enum Note {
    /// No connection was accepted.
    NotAccepted,
    /// No memory was found for a session.
    NoMemory,
    /// No thread was found for a session.
    NoThread,
    /// This session was idle for too long, and has left.
    Idle(u32),
    /// This session has joined.
    Started(u32),
    /// This session has left.
    Ended(u32),
    /// This session's events from this commit on are lost.
    Overflowed(u32, u64),
    /// There was no room for a connection.
    NoSeat,
}

/// The counters of a server.
#[derive(Clone, Copy, Debug, PartialEq, Eq)]
pub enum Count {
    /// Bytes of requests.
    Read,
    /// Bytes of replies and items.
    Written,
    /// Items of outboxes that were sent.
    Items,
    Commits,
    /// Transactions that ended without a commit.
    Aborts,
    Restarts,
    /// Operations that have waited for a lock.
    Waits,
    /// One-shots whose restarts were used up.
    GivenUp,
}

/// A receiver of a server's counts. It takes no memory and waits for no one for long: it is called at each call.
pub trait Counts {
    /// Counts `many` more of these.
    fn count(&self, count: Count, many: u64);

    /// Adds `many` to a counter, and to the session's. The counter is `Written` or `Items`.
    fn count_of(&self, session: u32, count: Count, many: u64);

    /// The session has opened a transaction.
    fn begin(&self, session: u32);

    /// The session's transaction has ended.
    fn end(&self, session: u32);

    /// The session asks to subscribe.
    fn subscribe(&self, session: u32);

    /// The session's operation waits for a lock.
    fn wait(&self, session: u32);

    /// The session's operation waits no more.
    fn go_on(&self, session: u32);
}

/// A receiver of each call of each session: before it is made, and after its reply is written. A test blocks calls by
/// it.
pub trait Gate: Counts {
    /// The frame of the session's call, counted from 1, is read.
    fn before(&self, session: u32, call: u64);

    /// Its reply is written.
    fn after(&self, session: u32, call: u64);
}

/// A receiver of a server's reports.
pub trait Notes: Counts {
    fn note(&self, note: Note);

    /// Reports the connection of a session that has joined, before its `Note::Started`. The handle ends the connection, if
    /// the settings ask for one.
    fn connected(&self, session: u32, stream: &TcpStream, handle: Option<TcpStream>);

    /// Returns whether no more connections are accepted.
    fn is_closing(&self) -> bool;

    /// Reports the reason of the server's end.
    fn fault(&self, error: &io::Error);
}

/// Holds no one, and hears nothing.
#[derive(Clone, Copy, Debug)]
pub struct Open;

impl Counts for Open {
    fn count(&self, _count: Count, _many: u64) {}

    fn count_of(&self, _session: u32, _count: Count, _many: u64) {}

    fn begin(&self, _session: u32) {}

    fn end(&self, _session: u32) {}

    fn subscribe(&self, _session: u32) {}

    fn wait(&self, _session: u32) {}

    fn go_on(&self, _session: u32) {}
}

impl Gate for Open {
    fn before(&self, _session: u32, _call: u64) {}

    fn after(&self, _session: u32, _call: u64) {}
}

impl Notes for Open {
    fn note(&self, _note: Note) {}

    fn connected(&self, _session: u32, _stream: &TcpStream, _handle: Option<TcpStream>) {}

    fn is_closing(&self) -> bool {
        false
    }

    fn fault(&self, _error: &io::Error) {}
}
