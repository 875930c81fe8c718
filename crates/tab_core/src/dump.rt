//! The records that a begin marker carries.

ghost use Rattle.std.specs.Prelude.{◌≡◌, IfOk};
ghost use Rattle.tab_model.specs.Slices.{dump_of as dump_in};

use std::alloc::{AllocError, Global};
use tab_lists::SharedTerms;
use tab_tables::Catalog;
use tab_term::{Atom, Terms};

/// A table's committed records, by keys, and of each key in the order of their insertion, if a dump is asked for. They
/// are shared with the table, and take no memory.
pub fn dump_of(
    alloc: Global,
    tables: &Catalog,
    name: &Atom,
    dump: bool,
) -> Result<Option<SharedTerms>, AllocError>
    ensures { IfOk result (λ records. records ≡ dump_in tables.now name.now dump) }
{
    if !dump {
        return Ok(None);
    }
    let Some(table) = tables.table(name) else {
        return Ok(Some(SharedTerms::from_terms(Terms::from_vec(Vec::new(alloc)))));
    };
    Ok(Some(SharedTerms::from_records(table.records().share()?)))
}
