//! Definitions of tables: what the options of `create_table` give or which of them is at fault, which records fit, and
//! which position an attribute has (Mnesia Reference Manual, `create_table/2`; that other options are refused, and the
//! order of faults: this project's own rule).
#![tactic(auto)]

mod attributes;
mod definition;
mod fault;
mod options;
mod positions;

pub use definition::{fits, has_index, position, with_index, with_positions, without_index};
pub use fault::DefFault;
pub use options::{index_fault, parse_options};
