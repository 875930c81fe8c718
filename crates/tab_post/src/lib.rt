//! Mailboxes: a post of which items are taken at its other end, by another thread.
//!
//! A mailbox is a bounded channel under a rule: the sent items are the taken ones, followed by the channel's. Each end
//! holds a pass, which knows what that end did. So the items that a post sent and those that an inbox took are lists
//! that contracts speak of, and the two ends together show how these lists relate.
//!
//! Its channel has an index in a register that only grows. An owner of a seen beginning of the register knows for good
//! the entry at each index of it. Each end keeps its index and its seen beginning of the register up to there. If two
//! ends have one index, both saw the same channel there, and so they are the ends of one mailbox, which the program can
//! compare. Only proofs know the register's entries: what runs is their number, in one word.
//!
//! A mailbox may also have a limit of bytes. Its post then keeps the weights of the items that it sent last, and drops
//! those of as many as the inbox says that it took.

#![tactic(auto)]

mod ends;
mod growth;
mod inbox;
mod making;
mod meeting;
mod naming;
mod post;
mod prefix;
mod register;
mod room;
mod rule;
mod tally;
mod weights;

pub use ends::NewMailbox;
pub use inbox::Inbox;
pub use making::mailbox;
pub use naming::{Entry, Host, Naming};
pub use post::{Channel, ChannelPost};
pub use prefix::Prefix;
pub use register::{Opened, Register};
pub use room::{Load, Room};
pub use rule::{InOrder, PassView};
