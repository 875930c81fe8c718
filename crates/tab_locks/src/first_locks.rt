ghost use Rattle.std.specs.Prelude.{◌≡◌, ◌&&◌, ◌==◌, not, [], OnOk, OnErr, IfOk, true, false, IsTrue, IsFalse};
ghost use Rattle.std.specs.List.{list_any};
ghost use Rattle.std.specs.Option.{IfNone, IfSome};
ghost use Rattle.tab_term.specs.Abbreviations.{number as number_of};
ghost use Rattle.tab_term.specs.Same.{same};
ghost use Rattle.tab_term.specs.View.{term};
ghost use Rattle.tab_locks.specs.Questions.{fits};
ghost use Rattle.tab_locks.specs.Members.{HasMore, Drops};
ghost use Rattle.tab_locks.specs.Spots.{stands_on_key};

use crate::hindrance::Hindrance;
use crate::key_lock::KeyLock;
use crate::met::Met;
use crate::numbered_locks::NumberedLocks;
use crate::question::Question;
use std::alloc::{AllocError, Global};
use std::marker::Model;
use tab_key::Abbreviate;
use tab_term::Term;

/// A lock on a key of each number: the first that came. Integers of up to four bytes and most short texts have numbers
/// of their own, so that such a key with one owner is found by comparing only integers.
#[derive(Drop)]
pub(crate) struct FirstLocks {
    locks: NumberedLocks,
}

impl Model for FirstLocks {
    ghost use Rattle.std.specs.Prelude.{List};
    ghost use Rattle.std.specs.Coded.{codes};
    ghost use Rattle.tab_term.specs.Code.{term_code};
    ghost use Rattle.tab_locks.specs.Numbered.{IsNumbered, first_spots};
    ghost use Rattle.tab_locks.specs.Spots.{KeySpot};

    ghost Value = { List KeySpot };

    ghost coded = { Prim.hlevel (codes, term_code) };

    ghost view = { λ a. first_spots a.locks };

    ghost invariant = { λ a. IsNumbered a.locks };
}

impl FirstLocks {
    /// No lock. It takes no memory.
    pub fn new(alloc: Global) -> FirstLocks
        ensures { result ≡ [] }
    {
        FirstLocks {
            locks: NumberedLocks::new(alloc),
        }
    }

    /// Returns whether there is a lock.
    pub fn is_occupied(&self) -> bool
        ensures { result ≡ list_any (λ _. true) self.now }
    {
        self.locks.is_occupied()
    }

    /// Looks at all of them.
    pub fn any_key(&self, question: Question) -> bool
        ensures { result
            ≡ list_any (λ s. fits question.relation (question.age, question.write) s.1) self.now }
    {
        self.locks.any(question)
    }

    /// Looks only at that key.
    pub fn any_at(&self, question: Question, key: &Term) -> bool
        ensures { result
            ≡ list_any (λ s.
            same (term key.now) s.0 && fits question.relation
            (question.age, question.write) s.1) self.now }
    {
        match self.locks.get(key.abbreviated()) {
            Some(lock) => lock.fits_at(question, key),
            None => false,
        }
    }

    /// The lock under the number of this key, which may be on another one.
    pub fn under_number(&self, number: u64, key: &Term) -> Option<&KeyLock>
        requires { number ≡ number_of (term key.now) }
        ensures none { IfNone result (IsFalse (list_any (λ s. same (term key.now) s.0) self.now)) }
        ensures one { IfSome result
            (λ l. list_any (λ s. same (term key.now) s.0) self.now
            ≡ same (term key.now) (term l.now.key)) }
    {
        self.locks.get(number)
    }

    /// Adds a lock on this key, if its number has no lock or this very one; else it returns false, and stays as it is.
    /// It makes one search, a new lock goes to the end of it, and only a new one takes memory.
    pub fn add(
        &mut self,
        alloc: Global,
        number: u64,
        key: &Term,
        age: u64,
        write: bool,
    ) -> Result<bool, AllocError>
        requires { number ≡ number_of (term key.now) }
        ensures more { IfOk result
            (λ b. b ≡ true → HasMore (term key.now, (age, write)) self.old self.new) }
        ensures same { IfOk result (λ b. b ≡ false → self.new ≡ self.old) }
        ensures tied { IfOk result
            (λ b. b ≡ false → IsTrue (list_any
            (λ s. (number_of s.0 == number) && not
            (stands_on_key (term key.now) (age, write) s)) self.old)) }
        ensures err { OnErr result (self.new ≡ self.old) }
    {
        let met = self.locks.place(alloc, number, key, age, write)?;
        Ok(met.is_held())
    }

    /// The same at a key that has no lock here, in one search too; `false` if another key's lock has its number. At a
    /// key that has one it is hindered.
    pub fn add_free(
        &mut self,
        alloc: Global,
        number: u64,
        key: &Term,
        age: u64,
        write: bool,
    ) -> Result<bool, Hindrance>
        requires { number ≡ number_of (term key.now) }
        ensures more { IfOk result
            (λ b. b ≡ true → HasMore (term key.now, (age, write)) self.old self.new) }
        ensures same { IfOk result (λ b. b ≡ false → self.new ≡ self.old) }
        ensures tied { IfOk result
            (λ b. b ≡ false → IsTrue (list_any (λ s. number_of s.0 == number) self.old)) }
        ensures free { OnOk result (IsFalse (list_any (λ s. same (term key.now) s.0) self.old)) }
        ensures err { OnErr result (self.new ≡ self.old) }
    {
        match self.locks.place(alloc, number, key, age, write)? {
            Met::Nothing => Ok(true),
            Met::AnotherKey => Ok(false),
            Met::Itself | Met::ItsKey => Err(Hindrance),
        }
    }

    /// Removes this lock.
    pub fn remove(&mut self, key: &Term, age: u64, write: bool)
        ensures { Drops (stands_on_key (term key.now) (age, write)) self.old self.new }
    {
        let number = key.abbreviated();
        let Some(lock) = self.locks.get(number) else {
            return;
        };
        if !lock.is(key, age, write) {
            return;
        }
        self.locks.remove(number);
    }
}
