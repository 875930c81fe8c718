//! The records of one table, with its definition and an index for each position that the definition names.
//!
//! Contracts see the definition and the records, as a `Table` of tab_model. They see the indexes only in answers. The
//! type's invariant is that an index has a value and a key exactly if some record of that key has that value there. If the
//! table has a backlog of changes, these records are those before it.

#![tactic(auto)]

mod backlog;
mod bare;
mod building;
mod element;
mod further;
mod index;
mod indexes;
mod matching;
mod querying;
mod table;

pub use bare::BareTable;
pub use matching::{bound_key, fits};
pub use table::IndexedTable;
