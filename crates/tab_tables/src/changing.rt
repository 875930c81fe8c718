//! Tables on their way through changes.

ghost use Rattle.std.specs.Prelude.{◌≡◌, IfOk};
ghost use Rattle.tab_model.specs.Operations.{table_of_change as table_of, change_catalog};

use crate::catalog::Catalog;
use crate::lender::Lender;
use crate::tags::table_of_update;
use std::alloc::{AllocError, Global};
use std::marker::Model;
use std::slice;
use tab_index::IndexedTable;
use tab_rows::Update;
use tab_term::Atom;

/// All tables, and a newer version of one of them that isn't in the catalog yet. While changes are of one table, only
/// it is changed, in place if nothing is shared.
#[derive(Drop)]
pub struct Changing {
    pub(crate) catalog: Catalog,
    pub(crate) newer: Option<IndexedTable>,
    // The number of index entries that the changes were of.
    entries: usize,
}

impl Model for Changing {
    ghost use Rattle.std.specs.Coded.{codes};
    ghost use Rattle.tab_term.specs.Code.{term_code};
    ghost use Rattle.tab_model.specs.Catalogs.{Catalog as CatalogOf};
    ghost use Rattle.tab_tables.specs.Newer.{with_newer};

    ghost Value = { CatalogOf };

    ghost coded = { Prim.hlevel (codes, term_code) };

    ghost view = { λ a. with_newer a.catalog a.newer };
}

impl Changing {
    /// The catalog, with no table changed. It takes no memory.
    pub fn new(catalog: Catalog) -> Changing
        ensures { result ≡ catalog }
    {
        Changing {
            catalog,
            newer: None,
            entries: 0,
        }
    }

    /// The tables after one more change. An error drops them.
    pub fn changed(
        self,
        alloc: Global,
        update: &Update,
        lender: &Lender<'_>,
    ) -> Result<Changing, AllocError>
        ensures { IfOk result (λ next. next ≡ change_catalog self update.now) }
    {
        let name = table_of_update(alloc, update)?;
        let Changing {
            catalog,
            newer,
            entries,
        } = self;
        let Some(table) = newer else {
            return Changing::started(alloc, (catalog, entries), &name, update, lender);
        };
        if table.def().name == name {
            let updates = slice::from_ref(update);
            let entries = entries.saturating_add(table.entries(updates));
            let records = lender.records(updates, &name);
            let table = table.ready_for(alloc, entries)?;
            let table = table.applied(alloc, updates, records)?;
            return Ok(Changing {
                catalog,
                newer: Some(table),
                entries,
            });
        }
        let catalog = catalog.with(alloc, table)?;
        Changing::started(alloc, (catalog, entries), &name, update, lender)
    }

    // The tables after a change of this one, whose new version shares what does not change, with the entries that changes before it
    // were of.
    fn started(
        alloc: Global,
        before: (Catalog, usize),
        name: &Atom,
        update: &Update,
        lender: &Lender<'_>,
    ) -> Result<Changing, AllocError>
        requires { name.now ≡ table_of update.now }
        ensures { IfOk result (λ next. next ≡ change_catalog before.0 update.now) }
    {
        let (catalog, entries) = before;
        let Some(table) = catalog.table(name) else {
            return Ok(Changing {
                catalog,
                newer: None,
                entries,
            });
        };
        let updates = slice::from_ref(update);
        let entries = entries.saturating_add(table.entries(updates));
        let records = lender.records(updates, name);
        let table = table.share(alloc)?.ready_for(alloc, entries)?;
        let table = table.applied(alloc, updates, records)?;
        Ok(Changing {
            catalog,
            newer: Some(table),
            entries,
        })
    }

    /// The tables, once the last change is made.
    pub fn into_catalog(self, alloc: Global) -> Result<Catalog, AllocError>
        ensures { IfOk result (λ catalog. catalog ≡ self) }
    {
        let Changing {
            catalog,
            newer,
            entries: _,
        } = self;
        match newer {
            Some(table) => catalog.with(alloc, table),
            None => Ok(catalog),
        }
    }
}
