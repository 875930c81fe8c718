ghost use Rattle.std.specs.Prelude.{◌≡◌, ◌&&◌, [], OnOk, OnErr, IfOk, true, IsFalse};
ghost use Rattle.std.specs.List.{list_any};
ghost use Rattle.tab_model.specs.Locks.{meets};
ghost use Rattle.tab_locks.specs.Plain.{part_of};
ghost use Rattle.tab_locks.specs.Questions.{fits, reaches};
ghost use Rattle.tab_locks.specs.Members.{HasMore, SameMembers, Drops};
ghost use Rattle.tab_locks.specs.Spots.{stands_on};

use crate::hindrance::Hindrance;
use crate::holders::Holders;
use crate::keys::Keys;
use crate::question::Question;
use std::alloc::{AllocError, Global};
use std::marker::Model;
use tab_model::What;

/// The owners of locks on one table: on all of it, and on its keys.
#[derive(Drop)]
pub(crate) struct OnTable {
    all: Holders,
    keys: Keys,
}

impl Model for OnTable {
    ghost use Rattle.std.specs.Prelude.{List};
    ghost use Rattle.std.specs.Coded.{codes};
    ghost use Rattle.tab_term.specs.Code.{term_code};
    ghost use Rattle.tab_locks.specs.Spots.{Spot, spots_of};

    ghost Value = { List Spot };

    ghost coded = { Prim.hlevel (codes, term_code) };

    ghost view = { λ a. spots_of a.all a.keys };
}

impl OnTable {
    /// A table without locks. It takes no memory.
    pub fn new(alloc: Global) -> OnTable
        ensures { result ≡ [] }
    {
        OnTable {
            all: Holders::new(alloc),
            keys: Keys::new(alloc),
        }
    }

    /// One lock.
    pub fn only(alloc: Global, what: &What, age: u64, write: bool) -> Result<OnTable, AllocError>
        ensures { IfOk result (λ spots. HasMore (part_of what.now, (age, write)) [] spots) }
    {
        let mut spots = OnTable::new(alloc);
        spots.add(alloc, what, age, write)?;
        Ok(spots)
    }

    /// Returns whether anyone holds a lock in the table.
    pub fn is_occupied(&self) -> bool
        ensures { result ≡ list_any (λ _. true) self.now }
    {
        self.all.is_occupied() || self.keys.is_occupied()
    }

    /// Looks at the locks on all of the table, and at those on the key, or on every key if the question is about all.
    pub fn any(&self, question: Question, what: &What) -> bool
        ensures { result
            ≡ list_any (λ s.
            reaches question.relation (part_of what.now) s.0 && fits question.relation
            (question.age, question.write) s.1) self.now }
    {
        if self.all.any(question) {
            return true;
        }
        match what {
            What::All => question.reaches_keys() && self.keys.any_key(question),
            What::Key(key) => self.keys.any_at(question, key),
        }
    }

    /// The transaction of this age holds this part of the table too.
    pub fn add(
        &mut self,
        alloc: Global,
        what: &What,
        age: u64,
        write: bool,
    ) -> Result<(), AllocError>
        ensures ok { OnOk result (HasMore (part_of what.now, (age, write)) self.old self.new) }
        ensures err { OnErr result (SameMembers self.old self.new) }
    {
        match what {
            What::All => self.all.add(age, write),
            What::Key(key) => self.keys.add(alloc, key, age, write),
        }
    }

    /// The same if no one holds a lock on that part, and else nothing.
    pub fn add_free(
        &mut self,
        alloc: Global,
        what: &What,
        age: u64,
        write: bool,
    ) -> Result<(), Hindrance>
        ensures ok { OnOk result (HasMore (part_of what.now, (age, write)) self.old self.new) }
        ensures free { OnOk result
            (IsFalse (list_any (λ s. meets (part_of what.now) s.0) self.old)) }
        ensures err { OnErr result (SameMembers self.old self.new) }
    {
        if self.all.is_occupied() {
            return Err(Hindrance);
        }
        match what {
            What::All => {
                if self.keys.is_occupied() {
                    return Err(Hindrance);
                }
                Ok(self.all.add(age, write)?)
            }
            What::Key(key) => self.keys.add_free(alloc, key, age, write),
        }
    }

    /// It holds this part no more.
    pub fn remove(&mut self, alloc: Global, what: What, age: u64, write: bool)
        ensures { Drops (stands_on (part_of what) (age, write)) self.old self.new }
    {
        match what {
            What::All => self.all.remove(age, write),
            What::Key(key) => self.keys.remove(alloc, key, age, write),
        }
    }
}
