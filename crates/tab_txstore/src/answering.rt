//! What operations answer on a committed table, as their transaction sees it.

ghost use Rattle.std.specs.Prelude.{◌≡◌, IfOk};
ghost use Rattle.tab_model.specs.declared.data.Operation.TheVariants as op;
ghost use Rattle.tab_model.specs.declared.data.Reply.TheVariants as reply;
ghost use Rattle.tab_txstore.specs.Overlays.{touched};
ghost use Rattle.tab_txstore.specs.Answers.{Answers, replied};

use crate::store::TxStore;
use std::alloc::{AllocError, Global};
use tab_index::IndexedTable;
use tab_model::{Operation, Reply};
use tab_schema::{fits, has_index, position};
use tab_term::{Atom, Term};

/// The reply of an operation on its table.
pub fn answered(
    alloc: Global,
    store: &TxStore,
    committed: &IndexedTable,
    operation: &Operation,
) -> Result<Reply, AllocError>
    ensures { IfOk result
        (λ a. Answers
        (touched store.now.levels.now.overlay committed.now.def.name) committed.now
        operation.now a) }
{
    match operation {
        Operation::Read(_, key) => Ok(Reply::Found(store.view_read(alloc, committed, key)?)),
        Operation::ReadForWrite(_, key) => Ok(Reply::Found(store.view_read(
            alloc, committed, key,
        )?)),
        Operation::AllKeys(_) => Ok(Reply::Found(store.view_keys(committed)?)),
        Operation::IndexRead(name, value, attribute) => {
            index_read(alloc, store, committed, name, value, attribute)
        }
        Operation::MatchObject(pattern) => match_object(alloc, store, committed, pattern),
        Operation::Write(row) => write(alloc, committed, row),
        Operation::DeleteObject(row) => write(alloc, committed, row),
        _ => Ok(Reply::Done),
    }
}

fn index_read(
    alloc: Global,
    store: &TxStore,
    committed: &IndexedTable,
    name: &Atom,
    value: &Term,
    attribute: &Term,
) -> Result<Reply, AllocError>
    ensures { IfOk result
        (λ a. Answers (touched store.now.levels.now.overlay committed.now.def.name) committed.now
        (op.IndexRead name.now value.now attribute.now) a) }
{
    match position(committed.def(), attribute) {
        Some(position) if has_index(committed.def(), position) => Ok(Reply::Found(store.view_index(
            alloc,
            committed,
            position as u64,
            value,
        )?)),
        _ => {
            let name = name.try_clone(alloc)?;
            Ok(Reply::NoIndex(name, attribute.try_clone(alloc)?))
        }
    }
}

fn match_object(
    alloc: Global,
    store: &TxStore,
    committed: &IndexedTable,
    pattern: &Term,
) -> Result<Reply, AllocError>
    ensures { IfOk result
        (λ a. Answers (touched store.now.levels.now.overlay committed.now.def.name) committed.now
        (op.MatchObject pattern.now) a) }
{
    if !fits(committed.def(), pattern) {
        return bad_type(alloc, committed, pattern);
    }
    Ok(Reply::Found(store.view_match(alloc, committed, pattern)?))
}

/// A record that is to be written or deleted.
fn write(alloc: Global, committed: &IndexedTable, row: &Term) -> Result<Reply, AllocError>
    ensures write { IfOk result (λ a. a ≡ replied committed.now (op.Write row.now)) }
    ensures delete { IfOk result
        (λ a. a ≡ replied committed.now (op.DeleteObject row.now)) }
{
    if !fits(committed.def(), row) {
        return bad_type(alloc, committed, row);
    }
    Ok(Reply::Done)
}

fn bad_type(alloc: Global, committed: &IndexedTable, row: &Term) -> Result<Reply, AllocError>
    ensures { IfOk result (λ a. a ≡ reply.BadType committed.now.def.name row.now) }
{
    let name = committed.def().name.try_clone(alloc)?;
    Ok(Reply::BadType(name, row.try_clone(alloc)?))
}
