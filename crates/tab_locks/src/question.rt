ghost use Rattle.std.specs.Prelude.{◌≡◌};
ghost use Rattle.tab_term.specs.Data.{PlainTerm};
ghost use Rattle.tab_model.specs.Locks.{All, Key};
ghost use Rattle.tab_locks.specs.Plain.{is_write as is_write_of};
ghost use Rattle.tab_locks.specs.Questions.{fits as fits_of, reaches};

use tab_model::{Lock, Mode};

/// The test of a granted lock against a request:
///
/// - `Meeting`: it is on the requested part, of whatever owner.
/// - `Opposing`: it is another owner's and conflicts.
/// - `Blocking`: it is another owner's and conflicts, and that owner is older.
/// - `Covering`: it is the same owner's and serves.
#[derive(Clone, Copy)]
pub(crate) enum Relation {
    Meeting,
    Opposing,
    Blocking,
    Covering,
}

/// A test of the owners at one part of a table, for this owner and mode.
#[derive(Clone, Copy)]
pub(crate) struct Question {
    pub relation: Relation,
    pub age: u64,
    pub write: bool,
}

impl Question {
    /// The test of the owners on a lock's table, for a request for the lock.
    pub fn of(relation: Relation, age: u64, lock: &Lock) -> Question
        ensures { result
            ≡ record { relation = relation; age = age; write = is_write_of lock.now.mode } }
    {
        Question {
            relation,
            age,
            write: is_write(lock.mode),
        }
    }

    /// Returns whether a lock on a key matters to a question about all of its table.
    pub fn reaches_keys(self) -> bool
        ensures { (k : PlainTerm) → result ≡ reaches self.relation All (Key k) }
    {
        match self.relation {
            Relation::Meeting | Relation::Opposing | Relation::Blocking => true,
            Relation::Covering => false,
        }
    }

    /// Returns whether a holder of this age and kind is one that is asked for.
    pub fn fits(self, age: u64, write: bool) -> bool
        ensures { result ≡ fits_of self.relation (self.age, self.write) (age, write) }
    {
        match self.relation {
            Relation::Meeting => true,
            Relation::Opposing => age != self.age && (self.write || write),
            Relation::Blocking => age < self.age && (self.write || write),
            Relation::Covering => age == self.age && (write || !self.write),
        }
    }
}

pub(crate) fn is_write(mode: Mode) -> bool
    ensures { result ≡ is_write_of mode }
{
    match mode {
        Mode::Read => false,
        Mode::Write => true,
    }
}
