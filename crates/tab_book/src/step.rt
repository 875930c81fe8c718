//! What a session asks of a book, and what it is given.

use std::convert::Infallible;
use tab_model::{Ask, SharedReply};
use tab_outbox::SharedItem;

/// A request of a session to a book. No session joins by a step: `join` gives a session the next number, with a post of
/// the book's. A `Take` gives no item, since an inbox takes them; it gives an overflow.
pub type Step = Ask<Infallible>;

/// The end of a session's outermost transaction.
#[derive(Clone, Copy, Debug, PartialEq, Eq)]
pub enum TransactionEnd {
    /// It is committed.
    Commit,
    /// Nothing of it is kept.
    Abort,
    /// Nothing of it is kept, and it begins again with its age.
    Restart,
    /// Its session left.
    Leave,
}

/// The open levels of its session's transaction before a step and after it, up to the greatest 64 bit number, and the
/// end of the outermost if it ended.
#[derive(Clone, Copy, Debug, PartialEq, Eq)]
pub struct Transition {
    pub before: u64,
    pub after: u64,
    pub ended: Option<TransactionEnd>,
}

/// The reply to a step, and the transition of the session's transaction. `releases` is true if the step released locks
/// or a queued request while another session waits or backs off, so that others may go on.
#[derive(Drop)]
pub struct Answered {
    pub told: SharedReply,
    pub releases: bool,
    pub transaction: Transition,
}

/// The reason that a session can't join: the limit of sessions, no more numbers, or memory that was refused.
#[derive(Drop, Clone, Copy, Debug, PartialEq, Eq)]
pub enum JoinFault {
    Limit,
    NoMemory,
}

/// The result at an inbox whose session is joined or has left.
#[derive(Drop)]
pub enum Drained {
    /// An item was left, and is now taken.
    Going(SharedItem),
    /// Nothing is left, or the inbox is not the session's.
    AllTaken,
    /// Nothing is left, and in the commit or deletion with this number an item was refused. It is reported once.
    Overflow(u64),
    /// The session isn't joined.
    Left,
}
