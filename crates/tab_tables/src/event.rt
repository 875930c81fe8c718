//! The events of changes that are about to be made.

ghost use Rattle.std.specs.Prelude.{◌≡◌, IfOk};
ghost use Rattle.std.specs.Option.{option_copied};
ghost use Rattle.tab_term.specs.View.{term};
ghost use Rattle.tab_model.specs.Events.{event_of};
ghost use Rattle.tab_model.specs.Names.{plain_terms};
ghost use Rattle.tab_model.specs.Operations.{key_of_change};
ghost use Rattle.tab_model.specs.Catalogs.{cell, find};

use crate::changing::Changing;
use crate::tags::table_of_update;
use std::alloc::{AllocError, Global};
use tab_index::IndexedTable;
use tab_lists::SharedTerms;
use tab_model::Event;
use tab_rows::Update;
use tab_term::{Atom, Term, Terms};

impl Changing {
    /// The event of a change that is about to be made, with the records that its key has now.
    pub fn event(&self, alloc: Global, age: u64, update: &Update) -> Result<Event, AllocError>
        ensures { IfOk result (λ event. event ≡ event_of self.now age update.now) }
    {
        let tab = table_of_update(alloc, update)?;
        let key = update.copy_of_key(alloc)?;
        let old = self.records(alloc, &tab, &key)?;
        let change = update.to_change(alloc)?;
        Ok(Event {
            tab,
            change,
            old,
            age,
        })
    }

    fn records(&self, alloc: Global, name: &Atom, key: &Term) -> Result<SharedTerms, AllocError>
        ensures { IfOk result
            (λ records. records ≡ plain_terms (cell self.now name.now (term key.now))) }
    {
        match self.table(name) {
            Some(table) => table.read(alloc, key),
            None => Ok(SharedTerms::from_terms(Terms::from_vec(Vec::new(alloc)))),
        }
    }

    fn table(&self, name: &Atom) -> Option<&IndexedTable>
        ensures { option_copied result ≡ find self.now name.now }
    {
        let Some(newer) = &self.newer else {
            return self.catalog.table(name);
        };
        if newer.def().name == *name {
            return Some(newer);
        }
        self.catalog.table(name)
    }
}
