//! A record as the only one of its key.

ghost use Rattle.std.specs.Prelude.{◌≡◌, [], ◌∷◌, IfOk, IfSome, IsTrue};
ghost use Rattle.std.specs.Option.{option_copied};
ghost use Rattle.tab_term.specs.View.{term};
ghost use Rattle.tab_model.specs.Names.{terms_list};
ghost use Rattle.tab_model.specs.Tables.{key as key_of_row};
ghost use Rattle.tab_model.specs.OnlyRecords.{IsOnly};

use std::alloc::{AllocError, Global};
use tab_map::{Entry, Map};
use tab_model::OnlyRecord;
use tab_records::Records;
use tab_term::Term;

/// The record's key, its second element.
fn key_in(row: &Term) -> Option<&Term>
    ensures { IfSome (option_copied result) (λ key. term key ≡ key_of_row (term row.now)) }
{
    match row {
        Term::Tuple(elements) => elements.as_slice().get(1),
        _ => None,
    }
}

// Whether this is the one record among these.
fn is_only(records: &Records, row: &Term) -> bool
    ensures { IsTrue result → terms_list records.now ≡ term row.now ∷ [] }
{
    match records.first() {
        Some(first) => records.len() == 1 && first == row,
        None => false,
    }
}

// The entry that has just this record.
fn entry_with<'a>(records: &'a Map<Term, Records>, row: &Term) -> Option<&'a Entry<Term, Records>>
    ensures { IfSome (option_copied result) (IsOnly (term row.now)) }
{
    let key = key_in(row)?;
    let entry = records.get_entry(key)?;
    let (own, records) = entry.pair();
    if is_only(records, row) && own == key {
        return Some(entry);
    }
    None
}

/// The record as the only one of its key, in the entry that is lent where there is one, or in one of its own.
pub fn entry_of(
    alloc: Global,
    row: &Term,
    lender: Option<&Map<Term, Records>>,
) -> Result<Entry<Term, Records>, AllocError>
    ensures { IfOk result (IsOnly (term row.now)) }
{
    if let Some(records) = lender {
        if let Some(entry) = entry_with(records, row) {
            return entry.try_clone();
        }
    }
    OnlyRecord::new(alloc, row.try_clone(alloc)?)?.to_entry()
}
