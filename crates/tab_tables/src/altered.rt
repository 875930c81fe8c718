//! A table that is changed in place.

ghost use Rattle.tab_model.specs.Tables.{apply, rows_after};
ghost use Rattle.tab_model.specs.Catalogs.{with_rows};

use std::alloc::{AllocError, Global};
use std::slice;
use std::sync::Wait;
use tab_index::{BareTable, IndexedTable};
use tab_map::{Map, Revise};
use tab_records::Records;
use tab_rows::Update;
use tab_term::Term;

/// A change of a table.
#[derive(Drop)]
pub struct Altered<'a> {
    pub update: &'a Update,
    /// Records of the table that may be shared.
    pub records: Option<&'a Map<Term, Records>>,
}

impl<'a> Revise<IndexedTable> for Altered<'a> {
    ghost becomes = { λ a table. with_rows table (apply table.def.kind table.rows a.update.now) };

    fn revise(self, alloc: Global, table: &mut IndexedTable) -> Result<(), AllocError> {
        table.change(alloc, self.update, self.records)
    }

    fn revised(self, alloc: Global, table: &IndexedTable) -> Result<IndexedTable, AllocError> {
        table.updated(alloc, slice::from_ref(self.update), self.records)
    }
}

impl<'a> Revise<BareTable> for Altered<'a> {
    ghost becomes = { λ a table. with_rows table (apply table.def.kind table.rows a.update.now) };

    fn revise(self, alloc: Global, table: &mut BareTable) -> Result<(), AllocError> {
        table.change(alloc, self.update, self.records)
    }

    fn revised(self, alloc: Global, table: &BareTable) -> Result<BareTable, AllocError> {
        let mut next = table.share()?;
        next.change(alloc, self.update, self.records)?;
        Ok(next)
    }
}

/// Changes that a table's indexes lack, of which at most so many are made in them.
#[derive(Drop)]
pub struct Settled {
    pub most: usize,
}

impl Revise<IndexedTable> for Settled {
    ghost becomes = { λ a table. table };

    fn revise(self, alloc: Global, table: &mut IndexedTable) -> Result<(), AllocError> {
        table.settle(alloc, self.most)
    }

    fn revised(self, alloc: Global, table: &IndexedTable) -> Result<IndexedTable, AllocError> {
        let mut next = table.share(alloc)?;
        next.settle(alloc, self.most)?;
        Ok(next)
    }
}

/// Changes of a table, in turn, or none of them.
#[derive(Drop)]
pub struct AllAltered<'a, R: Wait> {
    pub rt: &'a R,
    pub updates: &'a [Update],
    /// Records of the table that may be shared.
    pub records: Option<&'a Map<Term, Records>>,
}

impl<'a, R: Wait> Revise<IndexedTable> for AllAltered<'a, R> {
    ghost becomes = { λ a table. with_rows table (rows_after table.def.kind table.rows a.updates.now) };

    fn revise(self, alloc: Global, table: &mut IndexedTable) -> Result<(), AllocError> {
        table.change_all(self.rt, alloc, self.updates, self.records)
    }

    fn revised(self, alloc: Global, table: &IndexedTable) -> Result<IndexedTable, AllocError> {
        table.updated(alloc, self.updates, self.records)
    }
}

impl<'a, R: Wait> Revise<BareTable> for AllAltered<'a, R> {
    ghost becomes = { λ a table. with_rows table (rows_after table.def.kind table.rows a.updates.now) };

    fn revise(self, alloc: Global, table: &mut BareTable) -> Result<(), AllocError> {
        table.change_all(self.rt, alloc, self.updates, self.records)
    }

    fn revised(self, alloc: Global, table: &BareTable) -> Result<BareTable, AllocError> {
        let mut next = table.share()?;
        next.change_all(self.rt, alloc, self.updates, self.records)?;
        Ok(next)
    }
}
