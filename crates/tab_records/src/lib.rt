//! The records of one key of a table, in the order of their insertion.
//!
//! One record stands by itself, as those of a set do. Several, which a bag may have, stand in a map by the numbers of their
//! writes, so that a copy of them shares each, and a write or a deletion copies none.

#![tactic(auto)]

mod iter;
mod numbered;
mod records;

pub use iter::Iter;
pub use records::Records;
