ghost use Rattle.std.specs.Prelude.{◌≡◌, ◌&&◌, [], OnOk, OnErr, true, IsFalse};
ghost use Rattle.std.specs.BTreeMap.{values, IsOrdered};
ghost use Rattle.std.specs.List.{list_any};
ghost use Rattle.tab_term.specs.Same.{same};
ghost use Rattle.tab_term.specs.View.{term};
ghost use Rattle.tab_locks.specs.Questions.{fits};
ghost use Rattle.tab_locks.specs.Members.{HasMore, SameMembers, Drops};
ghost use Rattle.tab_locks.specs.Spots.{key_spots, stands_on_key};
ghost use Rattle.tab_locks.specs.Filled.{HasNoneEmpty};
ghost use Rattle.tab_term.specs.Order.{term_cmp};

use crate::hindrance::Hindrance;
use crate::holders::Holders;
use crate::question::Question;
use std::alloc::{AllocError, Global};
use std::collections::BTreeMap;
use std::collections::btree_map::Entry;
use std::marker::Model;
use tab_term::Term;

/// The owners of locks on keys whose numbers were taken when they came: by a lock on another key that ties with theirs,
/// or on the same one.
#[derive(Drop)]
pub(crate) struct TiedKeys {
    holders: BTreeMap<Term, Holders>,
}

impl Model for TiedKeys {
    ghost use Rattle.std.specs.Prelude.{List};
    ghost use Rattle.std.specs.Coded.{codes};
    ghost use Rattle.tab_term.specs.Code.{term_code};
    ghost use Rattle.tab_locks.specs.Filled.{IsPruned};
    ghost use Rattle.tab_locks.specs.Spots.{KeySpot, key_spots};
    ghost use Rattle.tab_term.specs.Order.{term_cmp};

    ghost Value = { List KeySpot };

    ghost coded = { Prim.hlevel (codes, term_code) };

    ghost view = { λ a. key_spots a.holders.entries };

    ghost invariant = { λ a. IsPruned term_cmp a.holders };
}

impl TiedKeys {
    /// No key with a lock. It takes no memory.
    pub fn new(alloc: Global) -> TiedKeys
        ensures { result ≡ [] }
    {
        TiedKeys {
            holders: BTreeMap::new(alloc),
        }
    }

    /// Returns whether anyone holds a lock of a key.
    pub fn is_occupied(&self) -> bool
        ensures { result ≡ list_any (λ _. true) self.now }
    {
        !self.holders.is_empty()
    }

    /// Looks at every key that is locked.
    pub fn any_key(&self, question: Question) -> bool
        ensures { result
            ≡ list_any (λ s. fits question.relation (question.age, question.write) s.1) self.now }
    {
        any_of(&self.holders, question)
    }

    /// Looks only at that key.
    pub fn any_at(&self, question: Question, key: &Term) -> bool
        ensures { result
            ≡ list_any (λ s.
            same (term key.now) s.0 && fits question.relation
            (question.age, question.write) s.1) self.now }
    {
        match self.holders.get(key) {
            Some(holders) => holders.any(question),
            None => false,
        }
    }

    /// Returns whether someone holds a lock of that key.
    pub fn has(&self, key: &Term) -> bool
        ensures { result ≡ list_any (λ s. same (term key.now) s.0) self.now }
    {
        self.holders.contains_key(key)
    }

    /// Makes one search; a new key goes to the end of it.
    pub fn add(
        &mut self,
        alloc: Global,
        key: &Term,
        age: u64,
        write: bool,
    ) -> Result<(), AllocError>
        ensures ok { OnOk result (HasMore (term key.now, (age, write)) self.old self.new) }
        ensures err { OnErr result (SameMembers self.old self.new) }
    {
        let entry = self.holders.entry(key.try_clone(alloc)?)?;
        match entry {
            Entry::Occupied(entry) => return entry.into_mut().add(age, write),
            Entry::Vacant(entry) => {
                entry.insert(Holders::only(alloc, age, write));
            }
        }
        Ok(())
    }

    /// The same at a key that no one holds a lock on, and nothing at another.
    pub fn add_free(
        &mut self,
        alloc: Global,
        key: &Term,
        age: u64,
        write: bool,
    ) -> Result<(), Hindrance>
        ensures ok { OnOk result (HasMore (term key.now, (age, write)) self.old self.new) }
        ensures free { OnOk result (IsFalse (list_any (λ s. same (term key.now) s.0) self.old)) }
        ensures err { OnErr result (SameMembers self.old self.new) }
    {
        let entry = self.holders.entry(key.try_clone(alloc)?)?;
        match entry {
            // The state after a borrow is known, but after a dropped entry it is not.
            Entry::Occupied(entry) => {
                entry.into_mut();
                return Err(Hindrance);
            }
            Entry::Vacant(entry) => {
                let alone = Holders::only(alloc, age, write);
                entry.insert(alone);
            }
        }
        Ok(())
    }

    /// A key that no one holds a lock on goes away, so that a question about all of the table doesn't look at it.
    pub fn remove(&mut self, alloc: Global, key: Term, age: u64, write: bool)
        ensures { Drops (stands_on_key (term key) (age, write)) self.old self.new }
    {
        take(&mut self.holders, alloc, key, age, write);
    }
}

fn any_of(holders: &BTreeMap<Term, Holders>, question: Question) -> bool
    ensures { result
        ≡ list_any (λ v. list_any (fits question.relation (question.age, question.write)) v)
        (values holders.now) }
{
    holders.values().any(|at_key| at_key.any(question))
}

/// Takes an owner away from a key, in one search, and the key itself if that was the last one.
fn take(holders: &mut BTreeMap<Term, Holders>, alloc: Global, key: Term, age: u64, write: bool)
    requires { HasNoneEmpty holders.old.entries }
    ensures dropped { Drops (stands_on_key (term key) (age, write)) (key_spots holders.old.entries)
        (key_spots holders.new.entries) }
    ensures filled { HasNoneEmpty holders.new.entries }
    ensures ordered { IsOrdered term_cmp holders.new }
{
    match holders.entry(key) {
        Ok(entry) => match entry {
            Entry::Occupied(mut entry) => {
                let at_key = entry.get_mut();
                at_key.remove(age, write);
                if at_key.is_occupied() {
                    return;
                }
                entry.remove();
            }
            // The state after a dropped entry is not known, so it is filled and emptied.
            Entry::Vacant(entry) => {
                entry.insert_entry(Holders::new(alloc)).remove();
            }
        },
        Err(_refused) => {}
    }
}
