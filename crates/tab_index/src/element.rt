//! Elements of records, at positions that are counted from 1.

ghost use Rattle.std.specs.Prelude.{◌≡◌};
ghost use Rattle.tab_term.specs.Data.{list as list_of, none as no_terms};
ghost use Rattle.tab_term.specs.View.{term};
ghost use Rattle.tab_model.specs.WholeTables.{element as element_of};
ghost use Rattle.tab_model.specs.Tables.{key as key_of_row};

use std::alloc::Global;
use tab_term::{Term, Terms};

/// The empty list, which counts as the element that a record does not have. It takes no memory.
pub fn nil(alloc: Global) -> Term
    ensures { term result ≡ list_of no_terms }
{
    Term::List(Terms::from_vec(Vec::new(alloc)))
}

/// The element of the record at the position; if it has none, `nil`.
pub fn element<'a>(row: &'a Term, position: u64, nil: &'a Term) -> &'a Term
    requires { term nil.now ≡ list_of no_terms }
    ensures { term result.now ≡ element_of position (term row.now) }
{
    let Term::Tuple(elements) = row else {
        return nil;
    };
    match elements.as_slice().get(position.saturating_sub(1) as usize) {
        Some(found) => found,
        None => nil,
    }
}

/// The key of the record; if it has none, `nil`.
pub fn key<'a>(row: &'a Term, nil: &'a Term) -> &'a Term
    requires { term nil.now ≡ list_of no_terms }
    ensures { term result.now ≡ key_of_row (term row.now) }
{
    element(row, 2, nil)
}
