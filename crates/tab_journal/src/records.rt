//! A table's records one after another.

ghost use Rattle.std.specs.Prelude.{◌≡◌, [], ◌∷◌, MatchOption};
ghost use Rattle.tab_term.specs.View.{term};

use std::marker::Model;
use tab_index::IndexedTable;
use tab_map::Iter;
use tab_term::Term;

/// A table's records in the order of their keys, seen as the list of those that are left.
#[derive(Drop)]
pub struct Records<'a> {
    walk: Iter<'a, Term, tab_records::Records>,
    // The remaining records of the key that the walk is at.
    left: tab_records::Iter<'a>,
}

impl<'a> Model for Records<'a> {
    ghost use Rattle.std.specs.Prelude.{◌++◌};
    ghost use Rattle.std.specs.Coded.{codes};
    ghost use Rattle.tab_term.specs.Code.{term_code, terms_code, pairs_code};
    ghost use Rattle.tab_model.specs.Tables.{Rows};
    ghost use Rattle.tab_rows.specs.Joined.{joined};

    ghost Value = { Rows };

    ghost coded = { Prim.hlevel (codes, term_code, terms_code, pairs_code) };

    ghost view = { λ a. a.left ++ joined a.walk };
}

impl<'a> Records<'a> {
    /// The table's records in their order, each borrowed. It takes no memory.
    pub fn new(table: &'a IndexedTable) -> Records<'a>
        ensures { result ≡ table.now.rows }
    {
        Records {
            walk: table.walk(),
            left: tab_records::Iter::over(&[]),
        }
    }

    /// The next record.
    pub fn take(&mut self) -> Option<&'a Term>
        ensures { MatchOption result ((self.old ≡ []) × (self.new ≡ []))
            (λ row. self.old ≡ term row.now ∷ self.new) }
    {
        loop {
            if let Some(first) = self.left.next() {
                return Some(first);
            }
            self.left = self.walk.next()?.pair().1.iter();
        }
    }
}
