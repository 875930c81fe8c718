ghost use Rattle.std.specs.Prelude.{◌≡◌, [], IfOk, OnOk, OnErr, IsFalse};
ghost use Rattle.std.specs.List.{list_any};
ghost use Rattle.tab_model.specs.State.{is_in};
ghost use Rattle.tab_locks.specs.Plain.{is_write as is_write_of, lock_of, part_of};
ghost use Rattle.tab_locks.specs.Questions.{asked, meets_at};
ghost use Rattle.tab_locks.specs.Members.{HasMore, SameMembers, Drops};
ghost use Rattle.tab_locks.specs.Spots.{holds_at};

use crate::first::under;
use crate::hindrance::Hindrance;
use crate::on_table::OnTable;
use crate::question::{Question, Relation, is_write};
use crate::tables::Tables;
use std::alloc::{AllocError, Global};
use std::marker::Model;
use tab_model::Lock;
use tab_term::Atom;

/// The owners of locks, by table and key. Mostly all are on one table, which is stored directly, since a map's first
/// entry takes a node with room for 15. A table that comes while another is first goes among the others, until no lock
/// is on it.
#[derive(Drop)]
pub(crate) struct Index {
    first: Option<(Atom, OnTable)>,
    others: Tables,
}

impl Model for Index {
    ghost use Rattle.std.specs.Prelude.{List, [], ◌++◌, IfSome};
    ghost use Rattle.std.specs.Coded.{codes};
    ghost use Rattle.std.specs.List.{cons_option};
    ghost use Rattle.tab_term.specs.Code.{term_code};
    ghost use Rattle.tab_model.specs.Ages.{Owned};
    ghost use Rattle.tab_locks.specs.Filled.{StandsBeside};
    ghost use Rattle.tab_locks.specs.Spots.{locks_in};

    ghost Value = { List Owned };

    ghost coded = { Prim.hlevel (codes, term_code) };

    ghost view = { λ a. locks_in (cons_option a.first []) ++ a.others };

    ghost invariant = { λ a. IfSome a.first (StandsBeside a.others) };
}

impl Index {
    /// No lock. It takes no memory.
    pub fn new(alloc: Global) -> Index
        ensures { result ≡ [] }
    {
        Index {
            first: None,
            others: Tables::new(alloc),
        }
    }

    /// Returns whether the owner of a lock is in this relation to a request of this age for that lock.
    pub fn any(&self, relation: Relation, age: u64, lock: &Lock) -> bool
        ensures { result ≡ list_any (asked relation (age, lock_of lock.now)) self.now }
    {
        match under(&self.first, &lock.table) {
            Some(spots) => spots.any(Question::of(relation, age, lock), &lock.what),
            None => self.others.any(relation, age, lock),
        }
    }

    /// Returns whether anyone holds a lock in the table.
    pub fn is_locked(&self, table: &Atom) -> bool
        ensures { result ≡ list_any (is_in table.now) self.now }
    {
        match under(&self.first, table) {
            Some(spots) => spots.is_occupied(),
            None => self.others.is_locked(table),
        }
    }

    /// Adds the lock of the transaction of this age. If no table is first, that of the lock becomes so, unless it is
    /// among the others.
    pub fn add(&mut self, alloc: Global, age: u64, lock: &Lock) -> Result<(), AllocError>
        ensures ok { OnOk result (HasMore (age, lock_of lock.now) self.old self.new) }
        ensures err { OnErr result (SameMembers self.old self.new) }
    {
        let write = is_write(lock.mode);
        match &mut self.first {
            Some(first) if first.0 == lock.table => first.1.add(alloc, &lock.what, age, write),
            None if !self.others.is_locked(&lock.table) => {
                self.first = Some(table_with(alloc, age, lock)?);
                Ok(())
            }
            _ => self.others.add(alloc, age, lock),
        }
    }

    /// The same if no one holds a lock on the same part, and else nothing.
    pub fn add_free(&mut self, alloc: Global, age: u64, lock: &Lock) -> Result<(), Hindrance>
        ensures ok { OnOk result (HasMore (age, lock_of lock.now) self.old self.new) }
        ensures free { OnOk result
            (IsFalse (list_any (meets_at (age, lock_of lock.now)) self.old)) }
        ensures err { OnErr result (SameMembers self.old self.new) }
    {
        match &mut self.first {
            Some(first) if first.0 == lock.table => {
                first
                    .1
                    .add_free(alloc, &lock.what, age, is_write(lock.mode))
            }
            None if !self.others.is_locked(&lock.table) => {
                self.first = Some(table_with(alloc, age, lock)?);
                Ok(())
            }
            _ => self.others.add_free(alloc, age, lock),
        }
    }

    /// Takes an owner away from the table and part of a lock, in its mode. A table that no one holds a lock on goes away.
    pub fn remove(&mut self, alloc: Global, age: u64, lock: Lock)
        ensures { Drops (holds_at age (lock_of lock)) self.old self.new }
    {
        match &mut self.first {
            Some(first) if first.0 == lock.table => {
                first.1.remove(alloc, lock.what, age, is_write(lock.mode));
                if !first.1.is_occupied() {
                    self.first = None;
                }
            }
            _ => self.others.remove(alloc, age, lock),
        }
    }
}

/// A lock's table, with only this lock.
fn table_with(alloc: Global, age: u64, lock: &Lock) -> Result<(Atom, OnTable), AllocError>
    ensures { IfOk result
        (λ t. (t.0 ≡ lock.now.table)
        × HasMore (part_of lock.now.what, (age, is_write_of lock.now.mode)) [] t.1) }
{
    let only = OnTable::only(alloc, &lock.what, age, is_write(lock.mode))?;
    Ok((lock.table.try_clone(alloc)?, only))
}
