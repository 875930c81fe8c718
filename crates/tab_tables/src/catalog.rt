ghost use Rattle.std.specs.Prelude.{◌≡◌, [], IfOk, OnOk, OnErr, nat_lt, length};
ghost use Rattle.std.specs.Option.{option_copied};
ghost use Rattle.tab_model.specs.Catalogs.{find, place, without as without_table};
ghost use Rattle.tab_model.specs.Events.{change_all};
ghost use Rattle.tab_model.specs.Operations.{change_catalog};
ghost use Rattle.tab_tables.specs.Named.{catalog_of};
ghost use Rattle.tab_tables.specs.OneTable.{AreOf};

use crate::altered::{AllAltered, Altered, Settled};
use crate::changing::Changing;
use crate::lender::Lender;
use crate::tags::{is_deletion, only_table, table_of_update};
use std::alloc::{AllocError, Global};
use std::marker::Model;
use std::slice;
use std::sync::Wait;
use tab_index::IndexedTable;
use tab_map::{Iter, Map, Set};
use tab_rows::Update;
use tab_term::Atom;

/// All tables, by name. Sharing them takes constant time.
#[derive(Drop)]
pub struct Catalog {
    pub(crate) by_name: Map<Atom, IndexedTable>,
    /// Names, among which are those of all tables whose indexes lack changes.
    pub(crate) pending: Set<Atom>,
}

impl Model for Catalog {
    ghost use Rattle.std.specs.Coded.{codes};
    ghost use Rattle.tab_term.specs.Code.{term_code};
    ghost use Rattle.tab_model.specs.Catalogs.{Catalog as CatalogOf};
    ghost use Rattle.tab_tables.specs.Named.{catalog_of, AreNamed};

    ghost Value = { CatalogOf };

    ghost coded = { Prim.hlevel (codes, term_code) };

    ghost view = { λ a. catalog_of a.by_name };

    ghost invariant = { λ a. AreNamed a.by_name };
}

impl Catalog {
    /// No tables.
    pub fn empty() -> Catalog
        ensures { result ≡ [] }
    {
        Catalog {
            by_name: Map::new(),
            pending: Set::new(),
        }
    }

    /// The same tables, in constant time.
    pub fn share(&self) -> Result<Catalog, AllocError>
        ensures { IfOk result (λ catalog. catalog ≡ self.now) }
    {
        Ok(Catalog {
            by_name: self.by_name.share()?,
            pending: self.pending.share()?,
        })
    }

    /// The table of this name.
    pub fn table(&self, name: &Atom) -> Option<&IndexedTable>
        ensures { option_copied result ≡ find self.now name.now }
    {
        self.by_name.get(name)
    }

    /// The tables in the order of their names.
    pub fn tables<'a>(&'a self) -> Iter<'a, Atom, IndexedTable>
        ensures { catalog_of result ≡ self.now }
    {
        self.by_name.iter()
    }

    /// The tables with this one in the place of the one of its name, or among them. These stay as they were.
    pub fn placed(&self, alloc: Global, table: IndexedTable) -> Result<Catalog, AllocError>
        ensures { IfOk result (λ catalog. catalog ≡ place self.now table) }
    {
        self.share()?.with(alloc, table)
    }

    /// The tables with this one, which replaces the one of its name if there is one, in place if nothing is shared. An
    /// error drops the tables.
    pub fn with(self, alloc: Global, table: IndexedTable) -> Result<Catalog, AllocError>
        ensures { IfOk result (λ catalog. catalog ≡ place self table) }
    {
        let Catalog {
            mut by_name,
            mut pending,
        } = self;
        let name = table.def().name.try_clone(alloc)?;
        if table.lacks() > 0 {
            pending.insert(alloc, name.try_clone(alloc)?)?;
        }
        by_name.insert(alloc, name, table)?;
        Ok(Catalog { by_name, pending })
    }

    /// The tables after the changes, in turn. These stay as they were, and share with the new ones all that did not
    /// change. If several changes of one table follow one another, only the first makes a new version of it.
    pub fn updated(
        &self,
        alloc: Global,
        updates: &[Update],
        lender: &Lender<'_>,
    ) -> Result<Catalog, AllocError>
        ensures { IfOk result (λ catalog. catalog ≡ change_all self.now updates.now) }
    {
        let mut changing = Changing::new(self.share()?);
        for update in updates {
            changing = changing.changed(alloc, update, lender)?;
        }
        changing.into_catalog(alloc)
    }

    /// Makes the changes, in turn, or none of them. Those of one table are made in it, in place if `change_all` of the
    /// table does so. Those of several are made in tables that share what does not change.
    pub fn update<R: Wait>(
        &mut self,
        rt: &R,
        alloc: Global,
        updates: &[Update],
        lender: &Lender<'_>,
    ) -> Result<(), AllocError>
        ensures ok { OnOk result (self.new ≡ change_all self.old updates.now) }
        ensures err { OnErr result (self.new ≡ self.old) }
    {
        if let [update] = updates {
            return self.change(alloc, update, lender);
        }
        if let Some(name) = only_table(alloc, updates)? {
            return self.change_table(rt, alloc, name, updates, lender);
        }
        *self = self.updated(alloc, updates, lender)?;
        Ok(())
    }

    // Makes changes of one table.
    fn change_table<R: Wait>(
        &mut self,
        rt: &R,
        alloc: Global,
        name: Atom,
        updates: &[Update],
        lender: &Lender<'_>,
    ) -> Result<(), AllocError>
        requires { AreOf name updates.now }
        ensures ok { OnOk result (self.new ≡ change_all self.old updates.now) }
        ensures err { OnErr result (self.new ≡ self.old) }
    {
        self.note(alloc, &name, updates)?;
        let records = lender.records(updates, &name);
        let all = AllAltered {
            rt,
            updates,
            records,
        };
        self.by_name.revise(alloc, name, all)?;
        Ok(())
    }

    fn change(
        &mut self,
        alloc: Global,
        update: &Update,
        lender: &Lender<'_>,
    ) -> Result<(), AllocError>
        ensures ok { OnOk result (self.new ≡ change_catalog self.old update.now) }
        ensures err { OnErr result (self.new ≡ self.old) }
    {
        let updates = slice::from_ref(update);
        let name = table_of_update(alloc, update)?;
        self.note(alloc, &name, updates)?;
        let records = lender.records(updates, &name);
        self.by_name
            .revise(alloc, name, Altered { update, records })?;
        Ok(())
    }

    // Adds the table to those whose indexes lack changes, if these changes will be put off.
    fn note(&mut self, alloc: Global, name: &Atom, updates: &[Update]) -> Result<(), AllocError>
        ensures { self.new ≡ self.old }
    {
        // A single change of another kind is of one record.
        if let [update] = updates {
            if !is_deletion(update) {
                return Ok(());
            }
        }
        match self.table(name) {
            Some(table) if table.puts_off(updates) => {
                self.pending.insert(alloc, name.try_clone(alloc)?)
            }
            _ => Ok(()),
        }
    }

    /// The tables without the one of this name. These stay as they were.
    pub fn without(&self, alloc: Global, name: &Atom) -> Result<Catalog, AllocError>
        ensures { IfOk result (λ catalog. catalog ≡ without_table self.now name.now) }
    {
        Ok(Catalog {
            by_name: self.by_name.removed(alloc, name)?,
            pending: self.pending.removed(alloc, name)?,
        })
    }

    /// How many index entries the changes are of that the tables' indexes lack. `settle` makes them.
    pub fn lacks(&self) -> usize {
        let mut lacks: usize = 0;
        for name in self.pending.iter() {
            if let Some(table) = self.table(name) {
                lacks = lacks.saturating_add(table.lacks());
            }
        }
        lacks
    }

    /// Makes changes of one table in its indexes that lack them, of at most so many entries or of one record, the oldest first. The
    /// tables and all replies stay the same.
    pub fn settle(&mut self, alloc: Global, most: usize) -> Result<(), AllocError>
        ensures { self.new ≡ self.old }
    {
        let Some(name) = self.pending.iter().next() else {
            return Ok(());
        };
        let name = name.try_clone(alloc)?;
        self.by_name
            .revise(alloc, name.try_clone(alloc)?, Settled { most })?;
        self.take_settled(alloc, &name)
    }

    // Takes the table from those whose indexes lack changes, if they lack none.
    fn take_settled(&mut self, alloc: Global, name: &Atom) -> Result<(), AllocError>
        ensures { self.new ≡ self.old }
    {
        match self.table(name) {
            Some(table) if table.lacks() > 0 => Ok(()),
            _ => self.pending.remove(alloc, name),
        }
    }

    /// Returns whether there are fewer tables than the limit.
    pub fn has_room(&self, limit: u64) -> bool
        ensures { result ≡ nat_lt (length self.now) limit }
    {
        let mut room = limit;
        for _table in self.by_name.iter() {
            if room == 0 {
                return false;
            }
            room -= 1;
        }
        room > 0
    }
}
