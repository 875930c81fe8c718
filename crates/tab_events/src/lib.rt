//! Events of tables as terms, and back; and a mirror, which keeps a table's records by them.
//!
//! An event is an update with its table, the age of its transaction, and the records of its key just before it. A term
//! carries it at one of two levels (Mnesia User's Guide, "Mnesia Event Handling").

#![tactic(auto)]

mod applying;
mod marks;
mod mirror;
mod mirrored;
mod reading;
mod shaping;

pub use applying::apply;
pub use mirror::Mirror;
pub use mirrored::Mirrored;
pub use reading::change_of;
pub use shaping::shape;
pub use tab_model::{Change, Event, Item, Level};
