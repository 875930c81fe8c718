//! The names of tables that records and changes carry.

ghost use Rattle.std.specs.Prelude.{◌≡◌, IfOk, IfSome};
ghost use Rattle.tab_term.specs.View.{term};
ghost use Rattle.tab_model.specs.Operations.{tag as tag_of, table_of_change as table_of};
ghost use Rattle.std.specs.List.{list_all};
ghost use Rattle.tab_tables.specs.OneTable.{AreOf, is_of};

use std::alloc::{AllocError, Global};
use tab_model::Change;
use tab_rows::{Form, Update};
use tab_term::{Atom, Term};

/// The table that an update is made in, which `copy_of_tag` reads from a record.
pub fn table_of_update(alloc: Global, update: &Update) -> Result<Atom, AllocError>
    ensures { IfOk result (λ name. name ≡ table_of update.now) }
{
    match update.form() {
        Form::Only(only) => copy_of_tag(alloc, only.row()),
        Form::Change(change) => table_of_change(alloc, change),
    }
}

/// The one table that all updates are made in. None if there are several tables, or no updates.
pub(crate) fn only_table(alloc: Global, updates: &[Update]) -> Result<Option<Atom>, AllocError>
    ensures { IfOk result (λ table. IfSome table (λ name. AreOf name updates.now)) }
{
    let Some(first) = updates.first() else {
        return Ok(None);
    };
    let name = table_of_update(alloc, first)?;
    if !are_of(alloc, &name, updates)? {
        return Ok(None);
    }
    Ok(Some(name))
}

fn are_of(alloc: Global, name: &Atom, updates: &[Update]) -> Result<bool, AllocError>
    ensures { IfOk result (λ are. are ≡ list_all (is_of name.now) updates.now) }
{
    for update in updates {
        if table_of_update(alloc, update)? != *name {
            return Ok(false);
        }
    }
    Ok(true)
}

/// Returns whether an update deletes all records of a key.
pub(crate) fn is_deletion(update: &Update) -> bool {
    matches!(update.form(), Form::Change(Change::Delete(_, _)))
}

fn table_of_change(alloc: Global, change: &Change) -> Result<Atom, AllocError>
    ensures { IfOk result (λ name. name ≡ table_of change.now) }
{
    match change {
        Change::Write(row) => copy_of_tag(alloc, row),
        Change::Delete(name, _) => name.try_clone(alloc),
        Change::DeleteObject(row) => copy_of_tag(alloc, row),
    }
}

/// A copy of the name that a record begins with, its table's. If it begins with none, the empty name.
pub fn copy_of_tag(alloc: Global, row: &Term) -> Result<Atom, AllocError>
    ensures { IfOk result (λ name. name ≡ tag_of (term row.now)) }
{
    let Term::Tuple(elements) = row else {
        return Atom::from_short_text(alloc, "");
    };
    match elements.as_slice() {
        [Term::Atom(name), ..] => name.try_clone(alloc),
        _ => Atom::from_short_text(alloc, ""),
    }
}
