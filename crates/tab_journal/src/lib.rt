//! The journal: the entries of a log, oldest first, over a base that the older ones were folded into.
//!
//! A journal with its base gives the tables as the log does: run from the base, its entries give their replies and the
//! tables (`audit`). Folding takes the oldest entry into the base and keeps that.

#![tactic(auto)]

mod audit;
mod base;
mod bytes;
mod journal;
mod records;
mod rerun;
mod same;
mod subscriptions;
mod survivors;

pub use base::Base;
pub use journal::{Folded, Journal};
pub use subscriptions::Subscription;
