//! The locks that transactions hold, by owner, and by table and key.
//!
//! Contracts see them as one list: the owners by ascending age, each owner's locks in the order of granting. A question
//! looks at the locks of its table and key and at that table's locks on all; a release at its owner's.

#![tactic(auto)]

mod first;
mod first_locks;
mod hindrance;
mod holders;
mod index;
mod key_lock;
mod keys;
mod laws;
mod lock_table;
mod met;
mod numbered_locks;
mod on_table;
mod question;
mod tables;
mod tied_keys;

pub use laws::a_lock_more_is_one_member_more;
pub use lock_table::{Asked, Conflict, LockTable};
