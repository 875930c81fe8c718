//! All tables, by name, and the schema commands on them.
//!
//! Contracts see them as one list in the order of their names (`Catalog` of tab_model). A call that changes them makes new
//! ones and leaves the old ones as they were; what did not change is shared.

#![tactic(auto)]

mod altered;
mod bare;
mod catalog;
mod changing;
mod event;
mod lender;
mod redefined;
mod schemas;
mod tags;

pub use bare::BareCatalog;
pub use catalog::Catalog;
pub use changing::Changing;
pub use lender::Lender;
pub use schemas::{Redefined, redefine, table_info};
pub use tags::{copy_of_tag, table_of_update};
