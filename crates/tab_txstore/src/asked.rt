//! What an operation speaks of, before any table is looked at: its table, and the lock that it asks for.

ghost use Rattle.std.specs.Prelude.{◌≡◌, IfOk, true, false};
ghost use Rattle.tab_term.specs.View.{term};
ghost use Rattle.tab_locks.specs.Plain.{is_write, lock_of};
ghost use Rattle.tab_model.specs.Operations.{tag as tag_of, table_of as table_of_operation};
ghost use Rattle.tab_model.specs.Tables.{key as key_of};
ghost use Rattle.tab_model.specs.Locks.{All as AllOf, Key as KeyOf, lock, needs as needs_of};
ghost use Rattle.tab_model.specs.declared.data.Operation.TheVariants as op;

use std::alloc::{AllocError, Global};
use tab_model::{Lock, Mode, Operation, What, copy_of_key};
use tab_tables::copy_of_tag;
use tab_term::{Atom, Term, has_wildcard};

/// The name of an operation's table: if its record or pattern begins with no name, the empty one.
pub fn table_of(alloc: Global, operation: &Operation) -> Result<Atom, AllocError>
    ensures { IfOk result (λ name. name ≡ table_of_operation operation.now) }
{
    match operation {
        Operation::Write(row) => copy_of_tag(alloc, row),
        Operation::DeleteObject(row) => copy_of_tag(alloc, row),
        Operation::MatchObject(pattern) => copy_of_tag(alloc, pattern),
        Operation::Read(name, _) => name.try_clone(alloc),
        Operation::ReadForWrite(name, _) => name.try_clone(alloc),
        Operation::Delete(name, _) => name.try_clone(alloc),
        Operation::IndexRead(name, _, _) => name.try_clone(alloc),
        Operation::AllKeys(name) => name.try_clone(alloc),
        Operation::ReadLockTable(name) => name.try_clone(alloc),
        Operation::WriteLockTable(name) => name.try_clone(alloc),
    }
}

/// The lock that an operation asks for.
pub fn needs(alloc: Global, operation: &Operation) -> Result<Lock, AllocError>
    ensures { IfOk result (λ l. lock_of l ≡ needs_of operation.now) }
{
    match operation {
        Operation::Read(name, key) => on_key(alloc, name, key, Mode::Read),
        Operation::ReadForWrite(name, key) => on_key(alloc, name, key, Mode::Write),
        Operation::Delete(name, key) => on_key(alloc, name, key, Mode::Write),
        Operation::Write(row) => on_record(alloc, row),
        Operation::DeleteObject(row) => on_record(alloc, row),
        Operation::MatchObject(pattern) => on_pattern(alloc, pattern),
        Operation::IndexRead(name, _, _) => on_table(alloc, name, Mode::Read),
        Operation::AllKeys(name) => on_table(alloc, name, Mode::Read),
        Operation::ReadLockTable(name) => on_table(alloc, name, Mode::Read),
        Operation::WriteLockTable(name) => on_table(alloc, name, Mode::Write),
    }
}

fn on_table(alloc: Global, name: &Atom, mode: Mode) -> Result<Lock, AllocError>
    ensures { IfOk result (λ l. lock_of l ≡ lock name.now AllOf (is_write mode)) }
{
    Ok(Lock {
        table: name.try_clone(alloc)?,
        what: What::All,
        mode,
    })
}

fn on_key(alloc: Global, name: &Atom, key: &Term, mode: Mode) -> Result<Lock, AllocError>
    ensures { IfOk result (λ l. lock_of l ≡ lock name.now (KeyOf (term key.now)) (is_write mode)) }
{
    let table = name.try_clone(alloc)?;
    Ok(Lock {
        table,
        what: What::Key(key.try_clone(alloc)?),
        mode,
    })
}

fn on_record(alloc: Global, row: &Term) -> Result<Lock, AllocError>
    ensures { IfOk result
        (λ l. lock_of l ≡ lock (tag_of (term row.now)) (KeyOf (key_of (term row.now))) true) }
{
    let table = copy_of_tag(alloc, row)?;
    Ok(Lock {
        table,
        what: What::Key(copy_of_key(alloc, row)?),
        mode: Mode::Write,
    })
}

// A pattern whose key has a wildcard may fit records of any key.
fn on_pattern(alloc: Global, pattern: &Term) -> Result<Lock, AllocError>
    ensures { IfOk result (λ l. lock_of l ≡ needs_of (op.MatchObject pattern.now)) }
{
    let table = copy_of_tag(alloc, pattern)?;
    let key = copy_of_key(alloc, pattern)?;
    let what = if has_wildcard(&key) {
        What::All
    } else {
        What::Key(key)
    };
    Ok(Lock {
        table,
        what,
        mode: Mode::Read,
    })
}
