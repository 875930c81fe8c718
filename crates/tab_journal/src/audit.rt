//! The check that the entries, run from a base, give their replies and these tables.

ghost use Rattle.std.specs.Prelude.{◌≡◌, IfOk};
ghost use Rattle.std.specs.Bool.{Decides};
ghost use Rattle.tab_model.specs.History.{IsHistory};
ghost use Rattle.tab_model.specs.Catalogs.{IsOrderedCatalog};
ghost use Rattle.tab_journal.specs.Audits.{Changes, Enters};

use crate::base::{Base, number_after};
use crate::rerun::rerun;
use crate::same::are_same_tables;
use circular_buffer::HeapCircularBuffer;
use std::alloc::{AllocError, Global};
use tab_model::{Entry, Schema};
use tab_tables::{Catalog, Redefined, redefine};

/// Returns whether the entries are a legal log from this base that ends in these tables.
pub fn is_history(
    alloc: Global,
    base: &Base,
    entries: &HeapCircularBuffer<Entry>,
    tables: &Catalog,
) -> Result<bool, AllocError>
    ensures { IfOk result (λ is. Decides is (IsHistory base.now entries.now.items tables.now)) }
{
    let mut now = base.tables().to_catalog(alloc)?;
    let mut commits = base.commits();
    for entry in entries.iter() {
        let Some(next) = enter(alloc, &now, commits, entry)? else {
            return Ok(false);
        };
        commits = number_after(commits, entry);
        now = next;
    }
    Ok(are_same_tables(&now, tables))
}

/// The tables after an entry, or None if it is not right on these.
fn enter(
    alloc: Global,
    tables: &Catalog,
    commits: u64,
    entry: &Entry,
) -> Result<Option<Catalog>, AllocError>
    requires { IsOrderedCatalog tables.now }
    ensures { IfOk result (Enters tables.now commits entry.now) }
{
    match entry {
        Entry::Committed {
            number,
            age,
            moves,
            told,
            ..
        } => {
            if number.checked_sub(1) != Some(commits) {
                return Ok(None);
            }
            rerun(
                alloc,
                tables,
                *age,
                moves.items.as_slice(),
                told.items.as_slice(),
            )
        }
        Entry::Changed(command, _) => redefined(alloc, tables, command),
        Entry::Subscribed { .. } => Ok(Some(tables.share()?)),
        Entry::Unsubscribed(_, _) => Ok(Some(tables.share()?)),
    }
}

fn redefined(
    alloc: Global,
    tables: &Catalog,
    command: &Schema,
) -> Result<Option<Catalog>, AllocError>
    ensures { IfOk result (Changes tables.now command.now) }
{
    match redefine(alloc, tables, command)? {
        Redefined::Done(catalog) => Ok(Some(catalog)),
        Redefined::Refused(_reply) => Ok(None),
    }
}
