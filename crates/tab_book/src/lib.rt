//! The running book: a core over mailboxes and its journal, under one lock, for many threads.
//!
//! In every state of the book (`IsRunning`): its journal replays from its base to its tables. The replies of each open
//! transaction are those of running it by itself on them. Each joined session was sent the items that the journal gives
//! it.

#![tactic(auto)]

mod activity;
mod bells;
mod book;
mod held;
mod inboxes;
mod log;
mod opened;
mod shared;
mod step;
mod steps;

pub use activity::{Activity, Doing};
pub use book::Book;
pub use held::Held;
pub use log::{Logged, Seen};
pub use opened::Opened;
pub use shared::{Seat, Shared};
pub use step::{Answered, Drained, JoinFault, Step, TransactionEnd, Transition};
pub use tab_core::{Rest, SESSIONS};
