//! A table that a program keeps by itself: the keys that changes leave, and what its queries find.

ghost use Rattle.std.specs.Prelude.{◌≡◌, [], IfOk};
ghost use Rattle.tab_term.specs.View.{term};
ghost use Rattle.tab_model.specs.Names.{plain_terms};
ghost use Rattle.tab_model.specs.Tables.{keys, rows_after, Rows as RowsOf};
ghost use Rattle.tab_model.specs.WholeTables.{index_read, match_object};
ghost use Rattle.tab_uses.specs.Tables.{IsFirst};

use std::alloc::{AllocError, Global};
use tab_events::apply;
use tab_index::IndexedTable;
use tab_lists::SharedTerms;
use tab_model::{Change, Kind};
use tab_rows::Rows;
use tab_term::Term;

/// The keys of a table without records after these changes, each once, in ascending order.
pub fn keys_after(alloc: Global, kind: Kind, changes: &[Change]) -> Result<SharedTerms, AllocError>
    ensures { IfOk result (λ found. found ≡ plain_terms (keys (rows_after kind [] changes.now))) }
{
    let mut rows = Rows::new(kind);
    for change in changes {
        apply(alloc, &mut rows, change)?;
    }
    rows.keys()
}

/// The first record that has the value at the position; None if no record has it.
pub fn first_with(
    alloc: Global,
    table: &IndexedTable,
    position: u64,
    value: &Term,
) -> Result<Option<Term>, AllocError>
    ensures { IfOk result
        (λ row. IsFirst row (index_read table.now.rows position (term value.now))) }
{
    first_of(alloc, &table.index_read(alloc, position, value)?)
}

/// The first record that fits the pattern; None if no record fits it.
pub fn first_match(
    alloc: Global,
    table: &IndexedTable,
    pattern: &Term,
) -> Result<Option<Term>, AllocError>
    ensures { IfOk result
        (λ row. IsFirst row (match_object table.now.rows (term pattern.now))) }
{
    first_of(alloc, &table.match_object(alloc, pattern)?)
}

fn first_of(alloc: Global, found: &SharedTerms) -> Result<Option<Term>, AllocError>
    ensures { IfOk result
        (λ row. (rows : RowsOf) → found.now ≡ plain_terms rows → IsFirst row rows) }
{
    match found.iter().next() {
        Some(row) => Ok(Some(row.try_clone(alloc)?)),
        None => Ok(None),
    }
}
