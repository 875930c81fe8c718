ghost use Rattle.std.specs.Prelude.{◌≡◌, [], ◌∷◌, ◌++◌, ◌==◌, filter, is_ok, if◌then◌else◌, OnOk, OnErr, IfOk, IfErr, IsFalse, IsOk, IsSome};
ghost use Rattle.std.specs.List.{list_any};
ghost use Rattle.std.specs.Str.{bytes_eq};
ghost use Rattle.tab_model.specs.Ages.{covers_own, without};
ghost use Rattle.tab_model.specs.State.{is_in};
ghost use Rattle.tab_locks.specs.Plain.{lock_of, part_of};
ghost use Rattle.tab_locks.specs.Spots.{same_part, same_lock};
ghost use Rattle.tab_locks.specs.Members.{HasMore, SameMembers, Drops};
ghost use Rattle.tab_locks.specs.Placed.{owned_by, placed, without_last, listed, is_of, conflict_with, standing as standing_of, in_the_way, conflict_in, after_asked, GivesBack};
ghost use Rattle.tab_locks.specs.Questions.{meets_at};
ghost use Rattle.tab_locks.specs.declared.lock_table.Conflict.TheVariants.{WithYounger, WithOlder};
ghost use Rattle.tab_locks.specs.declared.lock_table.Asked.TheVariants.{Held};

use crate::index::Index;
use crate::question::Relation;
use std::alloc::{AllocError, Global};
use std::collections::BTreeMap;
use std::marker::Model;
use tab_model::{Lock, What};
use tab_term::Atom;

/// The owners that a request conflicts with: none, only younger ones, or an older one.
#[derive(Clone, Copy, Debug, PartialEq, Eq)]
pub enum Conflict {
    Free,
    WithYounger,
    WithOlder,
}

impl Conflict {
    /// A conflict, by whether one of the others is older.
    pub fn with(older: bool) -> Conflict
        ensures { result ≡ (if older then WithOlder else WithYounger) }
    {
        if older {
            Conflict::WithOlder
        } else {
            Conflict::WithYounger
        }
    }
}

/// The answer to a request for a lock.
#[derive(Drop)]
pub enum Asked {
    Held,
    /// The owners that it conflicts with, and the lock, which is not granted.
    InConflict(Conflict, Lock),
}

/// The granted locks, each with the age of its owner.
#[derive(Drop)]
pub struct LockTable {
    alloc: Global,
    owners: BTreeMap<u64, Vec<Lock>>,
    index: Index,
}

impl Model for LockTable {
    ghost use Rattle.std.specs.Prelude.{List};
    ghost use Rattle.std.specs.Coded.{codes};
    ghost use Rattle.tab_term.specs.Code.{term_code};
    ghost use Rattle.tab_model.specs.Ages.{Owned};
    ghost use Rattle.tab_locks.specs.Placed.{listed, IsIndexed};

    ghost Value = { List Owned };

    ghost coded = { Prim.hlevel (codes, term_code) };

    ghost view = { λ a. listed a.owners.entries };

    ghost invariant = { λ a. IsIndexed a.owners a.index };
}

impl LockTable {
    /// No one holds a lock.
    pub fn new(alloc: Global) -> LockTable
        ensures { result ≡ [] }
    {
        LockTable {
            alloc,
            owners: BTreeMap::new(alloc),
            index: Index::new(alloc),
        }
    }

    /// Returns whether a lock that this owner holds serves for this one. It takes no memory.
    pub fn covered(&self, age: u64, lock: &Lock) -> bool
        ensures { result ≡ list_any (covers_own (age, lock_of lock.now)) self.now }
    {
        self.index.any(Relation::Covering, age, lock)
    }

    /// The other owners whose locks this one conflicts with: none, only younger ones, or an older one. It takes no
    /// memory.
    pub fn conflicts(&self, age: u64, lock: &Lock) -> Conflict
        ensures { result ≡ conflict_with (age, lock_of lock.now) self.now }
    {
        if !self.index.any(Relation::Opposing, age, lock) {
            return Conflict::Free;
        }
        Conflict::with(self.index.any(Relation::Blocking, age, lock))
    }

    /// The owners that a request conflicts with, or `None` if a lock of its own owner serves. It takes no memory.
    /// Mostly no one holds a lock there, and then one search is enough.
    pub fn standing(&self, age: u64, lock: &Lock) -> Option<Conflict>
        ensures { result ≡ standing_of (age, lock_of lock.now) self.now }
    {
        if !self.index.any(Relation::Meeting, age, lock) {
            return Some(Conflict::Free);
        }
        if self.covered(age, lock) {
            return None;
        }
        Some(self.conflicts(age, lock))
    }

    /// The locks of this owner, in the order in which they were granted. It takes no memory.
    pub fn of(&self, age: u64) -> &[Lock]
        ensures { owned_by age result.now ≡ filter (λ x. x.0 == age) self.now }
    {
        match self.owners.get(&age) {
            Some(locks) => locks.as_slice(),
            None => &[],
        }
    }

    /// Returns whether some lock is on this table, or on a key of it.
    pub fn is_locked(&self, table: &Atom) -> bool
        ensures { result ≡ list_any (is_in table.now) self.now }
    {
        self.index.is_locked(table)
    }

    /// Adds a lock once more, also one that the owner has already. `unhold` undoes it.
    pub fn hold(&mut self, age: u64, lock: Lock) -> Result<(), AllocError>
        ensures ok { OnOk result (self.new ≡ placed (age, lock_of lock) self.old) }
        ensures undo { OnOk result (without_last age self.new ≡ self.old) }
        ensures err { OnErr result (self.new ≡ self.old) }
    {
        let entry = self.owners.entry(age)?;
        let locks = entry.or_insert(Vec::new(self.alloc));
        keep(locks, &mut self.index, self.alloc, age, lock)
    }

    /// Grants a lock if one of its owner's serves for it, or no one's is in conflict with it. Mostly no one holds a
    /// lock there, and then it is granted at once, with no question before. A conflict takes no memory.
    pub fn ask(&mut self, age: u64, lock: Lock) -> Result<Asked, AllocError>
        ensures answer { IfOk result
            (λ a. conflict_in a ≡ in_the_way (age, lock_of lock) self.old) }
        ensures after { IfOk result (λ a. self.new ≡ after_asked (age, lock_of lock) self.old a) }
        ensures undo { IfOk result (λ a. a ≡ Held → without_last age self.new ≡ self.old) }
        ensures conflict { IsSome (in_the_way (age, lock_of lock) self.old) → IsOk result }
        ensures back { IfOk result (GivesBack lock) }
        ensures err { OnErr result (self.new ≡ self.old) }
    {
        let lock = match self.hold_free(age, lock) {
            Ok(()) => return Ok(Asked::Held),
            Err(lock) => lock,
        };
        if let Some(conflict) = self.obstacle(age, &lock) {
            return Ok(Asked::InConflict(conflict, lock));
        }
        self.hold(age, lock)?;
        Ok(Asked::Held)
    }

    /// The owners that a requested lock is in conflict with, or `None` if it may be granted. It takes no memory.
    fn obstacle(&self, age: u64, lock: &Lock) -> Option<Conflict>
        ensures { result ≡ in_the_way (age, lock_of lock.now) self.now }
    {
        if self.covered(age, lock) || !self.index.any(Relation::Opposing, age, lock) {
            return None;
        }
        Some(Conflict::with(self.index.any(Relation::Blocking, age, lock)))
    }

    /// Grants a lock if no one holds one on the same part. Else, or if memory is refused, it returns the lock.
    fn hold_free(&mut self, age: u64, lock: Lock) -> Result<(), Lock>
        ensures ok { OnOk result (self.new ≡ placed (age, lock_of lock) self.old) }
        ensures undo { OnOk result (without_last age self.new ≡ self.old) }
        ensures free { OnOk result (IsFalse (list_any (meets_at (age, lock_of lock)) self.old)) }
        ensures err { OnErr result (self.new ≡ self.old) }
        ensures back { IfErr result (λ l. l ≡ lock) }
    {
        let Ok(entry) = self.owners.entry(age) else {
            return Err(lock);
        };
        let locks = entry.or_insert(Vec::new(self.alloc));
        keep_free(locks, &mut self.index, self.alloc, age, lock)
    }

    /// Gives the lock back that this owner was granted last. It takes no memory.
    pub fn unhold(&mut self, age: u64)
        ensures { self.new ≡ without_last age self.old }
    {
        let Some(locks) = self.owners.get_mut(&age) else {
            return;
        };
        let Some(last) = locks.pop() else {
            return;
        };
        if has_equal(locks, &last) {
            drop(last);
            return;
        }
        self.index.remove(self.alloc, age, last);
    }

    /// Gives all locks of an owner back. It takes no memory.
    pub fn release_all(&mut self, age: u64)
        ensures { self.new ≡ without age self.old }
    {
        let Some(locks) = self.owners.remove(&age) else {
            return;
        };
        // Without another owner all of the index goes, and no lock is sought in it.
        if self.owners.is_empty() {
            self.index = Index::new(self.alloc);
            return;
        }
        release(&mut self.index, self.alloc, age, locks);
    }
}

/// Adds the lock to both. It reserves room first, so that it has nothing to undo if memory is refused.
fn keep(
    locks: &mut Vec<Lock>,
    index: &mut Index,
    alloc: Global,
    age: u64,
    lock: Lock,
) -> Result<(), AllocError>
    ensures locks { locks.new.items
        ≡ (if is_ok result then locks.old.items ++ lock ∷ [] else locks.old.items) }
    ensures ok { OnOk result (HasMore (age, lock_of lock) index.old index.new) }
    ensures err { OnErr result (SameMembers index.old index.new) }
{
    locks.reserve(1)?;
    index.add(alloc, age, &lock)?;
    locks.push_reserved(lock);
    Ok(())
}

/// The same if no one holds a lock on the same part. Else, or if memory is refused, it returns the lock.
fn keep_free(
    locks: &mut Vec<Lock>,
    index: &mut Index,
    alloc: Global,
    age: u64,
    lock: Lock,
) -> Result<(), Lock>
    ensures locks { locks.new.items
        ≡ (if is_ok result then locks.old.items ++ lock ∷ [] else locks.old.items) }
    ensures ok { OnOk result (HasMore (age, lock_of lock) index.old index.new) }
    ensures free { OnOk result (IsFalse (list_any (meets_at (age, lock_of lock)) index.old)) }
    ensures err { OnErr result (SameMembers index.old index.new) }
    ensures back { IfErr result (λ l. l ≡ lock) }
{
    if locks.reserve(1).is_err() {
        return Err(lock);
    }
    if index.add_free(alloc, age, &lock).is_err() {
        return Err(lock);
    }
    locks.push_reserved(lock);
    Ok(())
}

/// Returns whether one of these is on the same table and part, in the same mode.
fn has_equal(locks: &[Lock], lock: &Lock) -> bool
    ensures { result ≡ list_any (λ l. same_lock (lock_of lock.now) (lock_of l)) locks.now }
{
    locks.iter().any(|other| is_equal(lock, other))
}

fn is_equal(lock: &Lock, other: &Lock) -> bool
    ensures { result ≡ same_lock (lock_of lock.now) (lock_of other.now) }
{
    lock.table == other.table && is_same(&lock.what, &other.what) && lock.mode == other.mode
}

fn is_same(what: &What, other: &What) -> bool
    ensures { result ≡ same_part (part_of what.now) (part_of other.now) }
{
    match (what, other) {
        (What::All, What::All) => true,
        (What::Key(key), What::Key(another)) => key == another,
        _ => false,
    }
}

fn release(index: &mut Index, alloc: Global, age: u64, locks: Vec<Lock>)
    ensures { Drops (is_of age locks.items) index.old index.new }
{
    for lock in locks {
        index.remove(alloc, age, lock);
    }
}
