//! A transaction's private store: its moves, their replies, and the records that it left at the keys that it touched.
//! The tables under it are only borrowed. And its operations: the lock that one asks for, its reply, and its change of
//! the store.
//!
//! Contracts see the moves, their replies and the levels (specs/Stores). No call has a condition on the committed
//! tables. `Fits` is what they must be, for the store to be that of its moves, and the laws say what keeps it and what
//! it gives.

#![tactic(auto)]

mod answering;
mod asked;
mod change;
mod laws;
mod left;
mod levels;
mod performing;
mod store;
mod touching;
mod views;
mod whole;

pub use asked::needs;
pub use change::update_of;
pub use laws::{a_store_fits, a_store_shows, keys_are_seen};
pub use performing::perform;
pub use store::{Finished, TxStore};
pub use whole::Whole;
