//! Records that tables may share, in place of copies.

use crate::catalog::Catalog;
use tab_map::Map;
use tab_model::Change;
use tab_records::Records;
use tab_rows::{Form, Update};
use tab_term::{Atom, Term};

/// The owner of records that bags may share. A written record is shared if it is at the same index of its key in both;
/// nothing else is shared. A record that is written to a set has an entry of its own.
#[derive(Clone, Copy)]
pub enum Lender<'a> {
    /// Nobody.
    None,
    /// Other tables.
    Tables(&'a Catalog),
    /// A transaction, with the records at the keys that it touched.
    Overlay(&'a Map<Atom, Map<Term, Records>>),
}

impl<'a> Lender<'a> {
    /// The records of the updates' table, by key, if one of them writes a record that has no entry of its own.
    pub(crate) fn records(
        &self,
        updates: &[Update],
        name: &Atom,
    ) -> Option<&'a Map<Term, Records>> {
        if !copies_records(updates) {
            return None;
        }
        match self {
            Lender::None => None,
            Lender::Tables(tables) => Some(tables.table(name)?.records()),
            Lender::Overlay(overlay) => overlay.get(name),
        }
    }
}

fn copies_records(updates: &[Update]) -> bool {
    for update in updates {
        if let Form::Change(Change::Write(_)) = update.form() {
            return true;
        }
    }
    false
}
