//! The former records of a change's key, by which the change is undone.

use std::marker::Model;
use tab_map::Entry;
use tab_records::Records;
use tab_term::Term;

/// A key and its former records, in their entry. Contracts see the key and the records.
#[derive(Drop)]
pub(crate) struct Former {
    pub(crate) key: Term,
    // None if the key had no records.
    pub(crate) entry: Option<Entry<Term, Records>>,
}

impl Model for Former {
    ghost use Rattle.std.specs.Prelude.{IfSome};
    ghost use Rattle.std.specs.Coded.{codes};
    ghost use Rattle.tab_term.specs.Code.{term_code};
    ghost use Rattle.tab_term.specs.View.{term};
    ghost use Rattle.tab_rows.specs.Restored.{records_of, HasRecordsOf};
    ghost use Rattle.tab_rows.specs.Former.{AtKey};

    ghost Value = { AtKey };

    ghost coded = { Prim.hlevel (codes, term_code) };

    ghost view = { λ a. (term a.key, records_of a.entry) };

    ghost invariant = { λ a. IfSome a.entry (HasRecordsOf (term a.key)) };
}
