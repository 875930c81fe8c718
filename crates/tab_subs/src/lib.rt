//! The joined sessions: each with its open transaction, its subscriptions, and the post that its items are put into.
//! The type of an open transaction is a parameter.
//!
//! The items of a commit are prepared first, with all memory that they take, and then delivered, which can't fail.

#![tactic(auto)]

mod answers;
mod only_event;
mod prepared;
mod session;
mod shaped;
mod subs;
mod watched;

pub use answers::{Marked, Taken};
pub use prepared::Prepared;
pub use subs::Subs;
