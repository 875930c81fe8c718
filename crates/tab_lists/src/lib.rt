//! Lists of terms that are handed on by a count of owners: replies, the dumps of begin markers, a commit's events.
//!
//! What a table answers shares its memory with the table. It stays as it was when the table changes, and goes with the last
//! who holds it.

#![tactic(auto)]

mod answers;
mod condition;
mod events;
mod iter;
mod merged;
mod near;
mod passed;
mod query;
mod shared_terms;
mod snapshot;

pub use answers::{Answer, Answers};
pub use condition::Condition;
pub use events::{Detail, EventTerm, EventTerms, SharedEvent, Tag};
pub use iter::Iter;
pub use query::{AtKeys, Scope};
pub use shared_terms::SharedTerms;
pub use snapshot::Snapshot;
