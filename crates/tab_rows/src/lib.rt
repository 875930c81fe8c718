//! The records of one table, of type set or bag.
//!
//! Contracts see them as one list in canonical order: keys ascending, and the records of a key in the order of their
//! insertion. A change takes O(log n), and copies no record; in a bag a record that is written, or deleted, is compared with those
//! of its key. A table that is shared before stays as it was. A change may come as an `Update`, which for a set's record is the
//! entry itself.

#![tactic(auto)]

mod append;
mod entries;
mod former;
mod rows;
mod several;
mod update;

pub use append::Append;
pub use rows::Rows;
pub use tab_model::Kind;
pub use update::{Form, Update, key_of};
