//! All tables without their indexes.

ghost use Rattle.std.specs.Prelude.{◌≡◌, [], IfOk, OnOk, OnErr};
ghost use Rattle.std.specs.Option.{option_copied};
ghost use Rattle.tab_model.specs.Catalogs.{find, place, without as without_table};
ghost use Rattle.tab_model.specs.Events.{change_all};
ghost use Rattle.tab_model.specs.Operations.{change_catalog};
ghost use Rattle.tab_tables.specs.OneTable.{AreOf};

use crate::altered::{AllAltered, Altered};
use crate::catalog::Catalog;
use crate::lender::Lender;
use crate::tags::{only_table, table_of_update};
use std::alloc::{AllocError, Global};
use std::marker::Model;
use std::slice;
use std::sync::Wait;
use tab_index::BareTable;
use tab_map::{Map, Set};
use tab_rows::Update;
use tab_term::Atom;

/// All tables, by name. Contracts see the same tables as in a `Catalog`, but no index is kept: a change or a schema
/// command never writes or builds one.
#[derive(Drop)]
pub struct BareCatalog {
    by_name: Map<Atom, BareTable>,
}

impl Model for BareCatalog {
    ghost use Rattle.std.specs.Coded.{codes};
    ghost use Rattle.tab_term.specs.Code.{term_code};
    ghost use Rattle.tab_model.specs.Catalogs.{Catalog as CatalogOf};
    ghost use Rattle.tab_tables.specs.Named.{catalog_of, AreNamed};

    ghost Value = { CatalogOf };

    ghost coded = { Prim.hlevel (codes, term_code) };

    ghost view = { λ a. catalog_of a.by_name };

    ghost invariant = { λ a. AreNamed a.by_name };
}

impl BareCatalog {
    /// No tables.
    pub fn empty() -> BareCatalog
        ensures { result ≡ [] }
    {
        BareCatalog {
            by_name: Map::new(),
        }
    }

    /// The same tables, in constant time.
    pub fn share(&self) -> Result<BareCatalog, AllocError>
        ensures { IfOk result (λ tables. tables ≡ self.now) }
    {
        Ok(BareCatalog {
            by_name: self.by_name.share()?,
        })
    }

    /// The table of this name.
    pub fn table(&self, name: &Atom) -> Option<&BareTable>
        ensures { option_copied result ≡ find self.now name.now }
    {
        self.by_name.get(name)
    }

    /// The tables with this one in the place of the one of its name, or among them. These stay as they were.
    pub fn placed(&self, alloc: Global, table: BareTable) -> Result<BareCatalog, AllocError>
        ensures { IfOk result (λ tables. tables ≡ place self.now table) }
    {
        let name = table.def().name.try_clone(alloc)?;
        Ok(BareCatalog {
            by_name: self.by_name.inserted(alloc, name, table)?,
        })
    }

    /// The tables without the one of this name. These stay as they were.
    pub fn without(&self, alloc: Global, name: &Atom) -> Result<BareCatalog, AllocError>
        ensures { IfOk result (λ tables. tables ≡ without_table self.now name.now) }
    {
        Ok(BareCatalog {
            by_name: self.by_name.removed(alloc, name)?,
        })
    }

    /// Makes the changes, in turn, or none of them. Those of one table are made in it, in place if `change_all` of the
    /// table does so. Those of several are made in tables that share what does not change.
    pub fn update<R: Wait>(
        &mut self,
        rt: &R,
        alloc: Global,
        updates: &[Update],
        lender: &Lender<'_>,
    ) -> Result<(), AllocError>
        ensures ok { OnOk result (self.new ≡ change_all self.old updates.now) }
        ensures err { OnErr result (self.new ≡ self.old) }
    {
        if let [update] = updates {
            return self.change(alloc, update, lender);
        }
        if let Some(name) = only_table(alloc, updates)? {
            return self.change_table(rt, alloc, name, updates, lender);
        }
        *self = self.updated(alloc, updates, lender)?;
        Ok(())
    }

    // Makes changes of one table.
    fn change_table<R: Wait>(
        &mut self,
        rt: &R,
        alloc: Global,
        name: Atom,
        updates: &[Update],
        lender: &Lender<'_>,
    ) -> Result<(), AllocError>
        requires { AreOf name updates.now }
        ensures ok { OnOk result (self.new ≡ change_all self.old updates.now) }
        ensures err { OnErr result (self.new ≡ self.old) }
    {
        let records = lender.records(updates, &name);
        let all = AllAltered {
            rt,
            updates,
            records,
        };
        self.by_name.revise(alloc, name, all)?;
        Ok(())
    }

    // Only the first change of a table makes a new version of it.
    fn updated(
        &self,
        alloc: Global,
        updates: &[Update],
        lender: &Lender<'_>,
    ) -> Result<BareCatalog, AllocError>
        ensures { IfOk result (λ tables. tables ≡ change_all self.now updates.now) }
    {
        let mut tables = self.share()?;
        for update in updates {
            tables.change(alloc, update, lender)?;
        }
        Ok(tables)
    }

    fn change(
        &mut self,
        alloc: Global,
        update: &Update,
        lender: &Lender<'_>,
    ) -> Result<(), AllocError>
        ensures ok { OnOk result (self.new ≡ change_catalog self.old update.now) }
        ensures err { OnErr result (self.new ≡ self.old) }
    {
        let name = table_of_update(alloc, update)?;
        let records = lender.records(slice::from_ref(update), &name);
        self.by_name
            .revise(alloc, name, Altered { update, records })?;
        Ok(())
    }

    /// The same tables with their indexes. Each index is built in one sort.
    pub fn to_catalog(&self, alloc: Global) -> Result<Catalog, AllocError>
        ensures { IfOk result (λ catalog. catalog ≡ self.now) }
    {
        let mut tables = Vec::new(alloc);
        for entry in self.by_name.iter() {
            let (name, table) = entry.pair();
            tables.push((name.try_clone(alloc)?, table.indexed(alloc)?))?;
        }
        Ok(Catalog {
            by_name: Map::from_sorted(alloc, tables)?,
            pending: Set::new(),
        })
    }
}
