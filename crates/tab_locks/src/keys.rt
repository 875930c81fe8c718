ghost use Rattle.std.specs.Prelude.{◌≡◌, ◌&&◌, [], OnOk, OnErr, true, IsFalse};
ghost use Rattle.std.specs.List.{list_any};
ghost use Rattle.tab_term.specs.Abbreviations.{number as number_of};
ghost use Rattle.tab_term.specs.Same.{same};
ghost use Rattle.tab_term.specs.View.{term};
ghost use Rattle.tab_locks.specs.Questions.{fits};
ghost use Rattle.tab_locks.specs.Members.{HasMore, SameMembers, Drops};
ghost use Rattle.tab_locks.specs.Spots.{stands_on_key};

use crate::first_locks::FirstLocks;
use crate::hindrance::Hindrance;
use crate::question::Question;
use crate::tied_keys::TiedKeys;
use std::alloc::{AllocError, Global};
use std::marker::Model;
use tab_key::Abbreviate;
use tab_term::Term;

/// The owners of locks on the keys of one table. A lock is in `first` by its key's number, if the number was free when
/// it came. A lock on another key of that number, or another one on the same key, is among the ties, in the order of
/// terms.
#[derive(Drop)]
pub(crate) struct Keys {
    first: FirstLocks,
    tied: TiedKeys,
}

impl Model for Keys {
    ghost use Rattle.std.specs.Prelude.{List, ◌++◌};
    ghost use Rattle.std.specs.Coded.{codes};
    ghost use Rattle.tab_term.specs.Code.{term_code};
    ghost use Rattle.tab_locks.specs.Spots.{KeySpot};

    ghost Value = { List KeySpot };

    ghost coded = { Prim.hlevel (codes, term_code) };

    ghost view = { λ a. a.first ++ a.tied };
}

impl Keys {
    /// No key with a lock. It takes no memory.
    pub fn new(alloc: Global) -> Keys
        ensures { result ≡ [] }
    {
        Keys {
            first: FirstLocks::new(alloc),
            tied: TiedKeys::new(alloc),
        }
    }

    /// Returns whether anyone holds a lock of a key.
    pub fn is_occupied(&self) -> bool
        ensures { result ≡ list_any (λ _. true) self.now }
    {
        self.first.is_occupied() || self.tied.is_occupied()
    }

    /// Looks at every key that is locked.
    pub fn any_key(&self, question: Question) -> bool
        ensures { result
            ≡ list_any (λ s. fits question.relation (question.age, question.write) s.1) self.now }
    {
        self.first.any_key(question) || self.tied.any_key(question)
    }

    /// Looks only at that key.
    pub fn any_at(&self, question: Question, key: &Term) -> bool
        ensures { result
            ≡ list_any (λ s.
            same (term key.now) s.0 && fits question.relation
            (question.age, question.write) s.1) self.now }
    {
        self.first.any_at(question, key) || self.tied.any_at(question, key)
    }

    /// The transaction of this age holds a lock on the key too.
    pub fn add(
        &mut self,
        alloc: Global,
        key: &Term,
        age: u64,
        write: bool,
    ) -> Result<(), AllocError>
        ensures ok { OnOk result (HasMore (term key.now, (age, write)) self.old self.new) }
        ensures err { OnErr result (SameMembers self.old self.new) }
    {
        self.place(alloc, key.abbreviated(), key, age, write)
    }

    fn place(
        &mut self,
        alloc: Global,
        number: u64,
        key: &Term,
        age: u64,
        write: bool,
    ) -> Result<(), AllocError>
        requires { number ≡ number_of (term key.now) }
        ensures ok { OnOk result (HasMore (term key.now, (age, write)) self.old self.new) }
        ensures err { OnErr result (SameMembers self.old self.new) }
    {
        if self.first.add(alloc, number, key, age, write)? {
            return Ok(());
        }
        self.tied.add(alloc, key, age, write)
    }

    /// The same at a key that no one holds a lock on, and nothing at another.
    pub fn add_free(
        &mut self,
        alloc: Global,
        key: &Term,
        age: u64,
        write: bool,
    ) -> Result<(), Hindrance>
        ensures ok { OnOk result (HasMore (term key.now, (age, write)) self.old self.new) }
        ensures free { OnOk result (IsFalse (list_any (λ s. same (term key.now) s.0) self.old)) }
        ensures err { OnErr result (SameMembers self.old self.new) }
    {
        let number = key.abbreviated();
        if self.tied.is_occupied() {
            return self.add_free_beside_ties(alloc, number, key, age, write);
        }
        if self.first.add_free(alloc, number, key, age, write)? {
            return Ok(());
        }
        self.tied.add_free(alloc, key, age, write)
    }

    // A key among the ties may have no lock by its number. To make room for one would take memory.
    fn add_free_beside_ties(
        &mut self,
        alloc: Global,
        number: u64,
        key: &Term,
        age: u64,
        write: bool,
    ) -> Result<(), Hindrance>
        requires { number ≡ number_of (term key.now) }
        ensures ok { OnOk result (HasMore (term key.now, (age, write)) self.old self.new) }
        ensures free { OnOk result (IsFalse (list_any (λ s. same (term key.now) s.0) self.old)) }
        ensures err { OnErr result (SameMembers self.old self.new) }
    {
        match self.first.under_number(number, key) {
            Some(lock) => {
                if *key == lock.key {
                    return Err(Hindrance);
                }
                self.tied.add_free(alloc, key, age, write)
            }
            None => {
                if self.tied.has(key) {
                    return Err(Hindrance);
                }
                Ok(self.place(alloc, number, key, age, write)?)
            }
        }
    }

    /// The transaction of this age holds that lock no more. It takes no memory.
    pub fn remove(&mut self, alloc: Global, key: Term, age: u64, write: bool)
        ensures { Drops (stands_on_key (term key) (age, write)) self.old self.new }
    {
        self.first.remove(&key, age, write);
        // To seek a key among the ties that is not there would take memory.
        if self.tied.has(&key) {
            self.tied.remove(alloc, key, age, write);
        }
    }
}
