//! Callers of the calls that another program makes, each with a contract that follows from theirs.

#![tactic(auto)]

mod commands;
mod mailboxes;
mod mirrors;
mod outboxes;
mod payloads;
mod runs;
mod spelling;
mod tables;
mod writes;

pub use commands::reply_to;
pub use mailboxes::handed_over;
pub use mirrors::feed_all;
pub use outboxes::outbox_asked;
pub use payloads::{PayloadFault, append_canonical};
pub use runs::core_after;
pub use spelling::{AgainFault, term_again};
pub use tables::{first_match, first_with, keys_after};
pub use writes::{Ending, write_alone};

#[cfg(test)]
mod tests;
