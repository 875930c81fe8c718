ghost use Rattle.std.specs.Prelude.{◌≡◌, ◌&&◌, IfOk};
ghost use Rattle.tab_term.specs.Same.{same};
ghost use Rattle.tab_term.specs.View.{term};
ghost use Rattle.tab_locks.specs.Numbered.{met_by as met_of};
ghost use Rattle.tab_locks.specs.Questions.{fits};
ghost use Rattle.tab_locks.specs.Spots.{is_holding};

use crate::met::Met;
use crate::question::Question;
use std::alloc::{AllocError, Global};
use tab_term::Term;

/// A lock on a key, with its owner's age and whether it is for writing.
#[derive(Drop)]
pub(crate) struct KeyLock {
    pub key: Term,
    pub age: u64,
    pub write: bool,
}

impl KeyLock {
    /// One on a copy of this key.
    pub fn new(alloc: Global, key: &Term, age: u64, write: bool) -> Result<KeyLock, AllocError>
        ensures { IfOk result
            (λ l. (l.key ≡ key.now) × (l.age ≡ age) × (l.write ≡ write)) }
    {
        Ok(KeyLock {
            key: key.try_clone(alloc)?,
            age,
            write,
        })
    }

    /// Returns whether it is on this key, and this owner's in this mode.
    pub fn is(&self, key: &Term, age: u64, write: bool) -> bool
        ensures { result
            ≡ (same (term key.now) (term self.now.key) && is_holding (age, write)
            (self.now.age, self.now.write)) }
    {
        self.age == age && self.write == write && *key == self.key
    }

    /// Compares a lock on this key, of this owner and mode, with this one.
    pub fn met_by(&self, key: &Term, age: u64, write: bool) -> Met
        ensures { result
            ≡ met_of (same (term key.now) (term self.now.key)) (is_holding (age, write)
            (self.now.age, self.now.write)) }
    {
        if *key != self.key {
            return Met::AnotherKey;
        }
        if self.age == age && self.write == write {
            return Met::Itself;
        }
        Met::ItsKey
    }

    /// Returns whether it is on this key, and its owner is in the question's relation.
    pub fn fits_at(&self, question: Question, key: &Term) -> bool
        ensures { result
            ≡ (same (term key.now) (term self.now.key) && fits question.relation
            (question.age, question.write) (self.now.age, self.now.write)) }
    {
        question.fits(self.age, self.write) && *key == self.key
    }
}
