ghost use Rattle.std.specs.Prelude.{◌≡◌, [], OnOk, OnErr, IfOk, true};
ghost use Rattle.std.specs.BTreeMap.{values, is_at, IsOrdered};
ghost use Rattle.std.specs.List.{list_any, cons_option};
ghost use Rattle.std.specs.Map.{lookup, remove_entry};
ghost use Rattle.std.specs.Option.{option_copied};
ghost use Rattle.std.specs.Ordering.{nat_cmp};
ghost use Rattle.tab_locks.specs.Numbered.{IsApart, Inserts, Puts, lock_on, met_in};
ghost use Rattle.tab_locks.specs.Questions.{fits};

use crate::first::under;
use crate::key_lock::KeyLock;
use crate::met::Met;
use crate::question::Question;
use std::alloc::{AllocError, Global};
use std::collections::BTreeMap;
use std::collections::btree_map::Entry;
use std::marker::Model;
use tab_term::Term;

/// Locks by number. Mostly there is one, which is stored directly and takes only its key's memory, since a map's first
/// entry takes a node with room for 15. Others that come while it is there, or while the map has any, go into the map.
#[derive(Drop)]
pub(crate) struct NumberedLocks {
    first: Option<(u64, KeyLock)>,
    others: BTreeMap<u64, KeyLock>,
}

impl Model for NumberedLocks {
    ghost use Rattle.std.specs.Prelude.{ℕ, List};
    ghost use Rattle.std.specs.Coded.{codes};
    ghost use Rattle.std.specs.List.{cons_option};
    ghost use Rattle.tab_term.specs.Code.{term_code, terms_code, pairs_code};
    ghost use Rattle.tab_locks.specs.declared.key_lock.KeyLock.{KeyLock};
    ghost use Rattle.tab_locks.specs.Numbered.{IsBeside};

    ghost Value = { List (ℕ × KeyLock) };

    ghost coded = { Prim.hlevel (codes, term_code, terms_code, pairs_code) };

    ghost view = { λ a. cons_option a.first a.others.entries };

    ghost invariant = { λ a. IsBeside a.first a.others };
}

impl NumberedLocks {
    /// No lock. It takes no memory.
    pub fn new(alloc: Global) -> NumberedLocks
        ensures { result ≡ [] }
    {
        NumberedLocks {
            first: None,
            others: BTreeMap::new(alloc),
        }
    }

    /// Returns whether there is a lock.
    pub fn is_occupied(&self) -> bool
        ensures { result ≡ list_any (λ _. true) self.now }
    {
        self.first.is_some() || is_filled(&self.others)
    }

    /// Looks at all of them.
    pub fn any(&self, question: Question) -> bool
        ensures { result
            ≡ list_any (λ e.
            fits question.relation (question.age, question.write) (e.1.age, e.1.write))
            self.now }
    {
        match &self.first {
            Some(first) => {
                question.fits(first.1.age, first.1.write) || any_of(&self.others, question)
            }
            None => any_of(&self.others, question),
        }
    }

    /// The lock under this number.
    pub fn get(&self, number: u64) -> Option<&KeyLock>
        ensures value { option_copied result ≡ lookup (is_at (nat_cmp number)) self.now }
    {
        match under(&self.first, &number) {
            Some(lock) => Some(lock),
            None => self.others.get(&number),
        }
    }

    /// Puts a lock on a copy of this key at the number, if the number has none. It looks at the first lock, and
    /// searches the map once: a new lock goes to the end of the search.
    pub fn place(
        &mut self,
        alloc: Global,
        number: u64,
        key: &Term,
        age: u64,
        write: bool,
    ) -> Result<Met, AllocError>
        ensures met { IfOk result
            (λ m. m ≡ met_in key.now (age, write) (lookup (is_at (nat_cmp number)) self.old)) }
        ensures put { IfOk result (Puts number (lock_on key.now (age, write)) self.old self.new) }
        ensures apart { OnOk result (IsApart self.new) }
        ensures err { OnErr result (self.new ≡ self.old) }
    {
        if let Some(lock) = under(&self.first, &number) {
            return Ok(lock.met_by(key, age, write));
        }
        if self.first.is_none() && self.others.is_empty() {
            let lock = KeyLock::new(alloc, key, age, write)?;
            self.first = Some((number, lock));
            return Ok(Met::Nothing);
        }
        place_among(&mut self.others, alloc, number, key, age, write)
    }

    /// Removes the lock with this number. `first` stays empty while others are left.
    pub fn remove(&mut self, number: u64)
        ensures entries { self.new ≡ remove_entry (is_at (nat_cmp number)) self.old }
        ensures apart { IsApart self.new }
    {
        if under(&self.first, &number).is_some() {
            self.first = None;
            return;
        }
        self.others.remove(&number);
    }
}

fn place_among(
    others: &mut BTreeMap<u64, KeyLock>,
    alloc: Global,
    number: u64,
    key: &Term,
    age: u64,
    write: bool,
) -> Result<Met, AllocError>
    ensures met { IfOk result
        (λ m. m ≡ met_in key.now (age, write) (lookup (is_at (nat_cmp number)) others.old.entries)) }
    ensures put { IfOk result
        (Inserts number (lock_on key.now (age, write)) others.old.entries others.new.entries) }
    ensures ordered { IsOrdered nat_cmp others.new }
    ensures err { OnErr result (others.new.entries ≡ others.old.entries) }
{
    match others.entry(number)? {
        Entry::Occupied(entry) => return Ok(entry.into_mut().met_by(key, age, write)),
        vacant => {
            vacant.or_try_insert_with(|| KeyLock::new(alloc, key, age, write))?;
        }
    }
    Ok(Met::Nothing)
}

fn is_filled(locks: &BTreeMap<u64, KeyLock>) -> bool
    ensures { result ≡ list_any (λ _. true) locks.now.entries }
{
    !locks.is_empty()
}

fn any_of(locks: &BTreeMap<u64, KeyLock>, question: Question) -> bool
    ensures { result
        ≡ list_any (λ l. fits question.relation (question.age, question.write) (l.age, l.write))
        (values locks.now) }
{
    locks
        .values()
        .any(|lock| question.fits(lock.age, lock.write))
}
