//! How a server is to be run.

ghost use Rattle.std.specs.Prelude.{◌≤◌};

use tab_proto::Delivery;

/// An address that clients connect to.
#[derive(Drop)]
pub enum Address {
    /// A port of 127.0.0.1; 0 lets the system choose one.
    Port(u16),
    /// The path of a socket file.
    Socket(String),
}

/// The notes of a server that have a line.
#[derive(Clone, Copy, Debug, PartialEq, Eq)]
pub enum Log {
    /// The faults that keep it from serving, the sessions that it ends, and the reason of its end.
    Brief,
    /// Each session's start and end too.
    Full,
}

/// The sizes of a server: the most connections, the most items of a session's mailbox, the bytes of events at which it is
/// full, the most entries of the journal, and the bytes of requests at which it is full.
#[derive(Clone, Copy)]
pub struct Sizes {
    pub connections: u32,
    pub outbox: u32,
    pub outbox_bytes: Option<u32>,
    pub journal: u32,
    pub journal_bytes: u32,
    ghost seats: { connections ≤ 64 },
    ghost outbox_room: { 1 ≤ outbox },
    ghost journal_room: { 1 ≤ journal },
    ghost journal_bytes_room: { 1 ≤ journal_bytes },
}

/// The settings of a server.
#[derive(Clone, Copy)]
pub struct Service {
    pub sizes: Sizes,
    /// A connection that ends makes room for another.
    pub forever: bool,
    pub delivery: Delivery,
    /// The most seconds that a session may be idle.
    pub idle: Option<u32>,
    pub log: Log,
    /// The port of the counters; 0 lets the system choose one.
    pub metrics: Option<u16>,
    /// A transaction that was open for so many seconds has a line.
    pub slow: Option<u32>,
    /// An abort ends the wait of the operation before it, which has no reply then.
    pub aborts: bool,
    /// True if the end of standard input ends the server.
    pub drains: bool,
    /// The most seconds that a transaction may be open.
    pub limit: Option<u32>,
    /// The most seconds between the requests of a session that has never subscribed.
    pub idle_sessions: Option<u32>,
}
