ghost use Rattle.std.specs.Prelude.{◌≡◌, [], OnOk, OnErr, IsFalse};
ghost use Rattle.std.specs.BTreeMap.{IsOrdered};
ghost use Rattle.std.specs.List.{list_any};
ghost use Rattle.tab_model.specs.State.{is_in};
ghost use Rattle.tab_locks.specs.Plain.{lock_of};
ghost use Rattle.tab_locks.specs.Questions.{asked, meets_at};
ghost use Rattle.tab_locks.specs.Members.{HasMore, SameMembers, Drops};
ghost use Rattle.tab_locks.specs.Spots.{locks_in, holds_at};
ghost use Rattle.tab_locks.specs.Filled.{HasNoneEmpty};
ghost use Rattle.tab_term.specs.Order.{bytes_cmp};

use crate::hindrance::Hindrance;
use crate::on_table::OnTable;
use crate::question::{Question, Relation, is_write};
use std::alloc::{AllocError, Global};
use std::collections::BTreeMap;
use std::collections::btree_map::Entry;
use std::marker::Model;
use tab_model::Lock;
use tab_term::Atom;

/// The owners of locks on the tables of a map, by key.
#[derive(Drop)]
pub(crate) struct Tables {
    tables: BTreeMap<Atom, OnTable>,
}

impl Model for Tables {
    ghost use Rattle.std.specs.Prelude.{List};
    ghost use Rattle.std.specs.Coded.{codes};
    ghost use Rattle.tab_term.specs.Code.{term_code};
    ghost use Rattle.tab_model.specs.Ages.{Owned};
    ghost use Rattle.tab_locks.specs.Filled.{IsPruned};
    ghost use Rattle.tab_locks.specs.Spots.{locks_in};
    ghost use Rattle.tab_term.specs.Order.{bytes_cmp};

    ghost Value = { List Owned };

    ghost coded = { Prim.hlevel (codes, term_code) };

    ghost view = { λ a. locks_in a.tables.entries };

    ghost invariant = { λ a. IsPruned bytes_cmp a.tables };
}

impl Tables {
    /// No lock. It takes no memory.
    pub fn new(alloc: Global) -> Tables
        ensures { result ≡ [] }
    {
        Tables {
            tables: BTreeMap::new(alloc),
        }
    }

    /// Returns whether the owner of a lock is in this relation to a request of this age for that lock.
    pub fn any(&self, relation: Relation, age: u64, lock: &Lock) -> bool
        ensures { result ≡ list_any (asked relation (age, lock_of lock.now)) self.now }
    {
        match self.tables.get(&lock.table) {
            Some(spots) => spots.any(Question::of(relation, age, lock), &lock.what),
            None => false,
        }
    }

    /// Returns whether anyone holds a lock in the table.
    pub fn is_locked(&self, table: &Atom) -> bool
        ensures { result ≡ list_any (is_in table.now) self.now }
    {
        match self.tables.get(table) {
            Some(spots) => spots.is_occupied(),
            None => false,
        }
    }

    /// The transaction of this age holds the lock too.
    pub fn add(&mut self, alloc: Global, age: u64, lock: &Lock) -> Result<(), AllocError>
        ensures ok { OnOk result (HasMore (age, lock_of lock.now) self.old self.new) }
        ensures err { OnErr result (SameMembers self.old self.new) }
    {
        let write = is_write(lock.mode);
        match self.tables.get_mut(&lock.table) {
            Some(spots) => spots.add(alloc, &lock.what, age, write),
            None => {
                let only = OnTable::only(alloc, &lock.what, age, write)?;
                self.tables.insert(lock.table.try_clone(alloc)?, only)?;
                Ok(())
            }
        }
    }

    /// The same if no one holds a lock on the same part, and else nothing.
    pub fn add_free(&mut self, alloc: Global, age: u64, lock: &Lock) -> Result<(), Hindrance>
        ensures ok { OnOk result (HasMore (age, lock_of lock.now) self.old self.new) }
        ensures free { OnOk result
            (IsFalse (list_any (meets_at (age, lock_of lock.now)) self.old)) }
        ensures err { OnErr result (SameMembers self.old self.new) }
    {
        match self.tables.get_mut(&lock.table) {
            Some(spots) => spots.add_free(alloc, &lock.what, age, is_write(lock.mode)),
            None => Ok(self.add(alloc, age, lock)?),
        }
    }

    /// Takes an owner away from the table and part of a lock, in its mode. A table that no one holds a lock on goes away.
    pub fn remove(&mut self, alloc: Global, age: u64, lock: Lock)
        ensures { Drops (holds_at age (lock_of lock)) self.old self.new }
    {
        take(&mut self.tables, alloc, age, lock);
    }
}

/// Takes an owner away from the table and part of a lock, in one search of each, and the table too if that was the last
/// one.
fn take(tables: &mut BTreeMap<Atom, OnTable>, alloc: Global, age: u64, lock: Lock)
    requires { HasNoneEmpty tables.old.entries }
    ensures dropped { Drops (holds_at age (lock_of lock)) (locks_in tables.old.entries)
        (locks_in tables.new.entries) }
    ensures filled { HasNoneEmpty tables.new.entries }
    ensures ordered { IsOrdered bytes_cmp tables.new }
{
    let Lock { table, what, mode } = lock;
    match tables.entry(table) {
        Ok(entry) => match entry {
            Entry::Occupied(mut entry) => {
                let spots = entry.get_mut();
                spots.remove(alloc, what, age, is_write(mode));
                if spots.is_occupied() {
                    return;
                }
                entry.remove();
            }
            // The state after a dropped entry is not known, so it is filled and emptied.
            Entry::Vacant(entry) => {
                entry.insert_entry(OnTable::new(alloc)).remove();
            }
        },
        Err(_refused) => {}
    }
}
