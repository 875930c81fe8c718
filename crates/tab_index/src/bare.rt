//! A table without its indexes.

ghost use Rattle.std.specs.Prelude.{◌≡◌, [], IfOk, MatchOption, OnOk, OnErr};
ghost use Rattle.tab_term.specs.View.{term};
ghost use Rattle.tab_model.specs.Names.{plain_terms};
ghost use Rattle.tab_model.specs.Tables.{at, apply as apply_in, rows_after as applied_in};
ghost use Rattle.tab_model.specs.Definitions.{with_indexes, add_number, less_number};
ghost use Rattle.tab_model.specs.Catalogs.{with_rows, with_def};

use crate::table::IndexedTable;
use std::alloc::{AllocError, Global};
use std::marker::Model;
use std::sync::{Arc, Wait};
use tab_map::{Entry, Map};
use tab_model::TableDef;
use tab_records::Records;
use tab_rows::{Rows, Update};
use tab_schema::{with_index, without_index};
use tab_term::Term;

/// A table's definition, which names the positions that have an index, and its records. No index is kept, so a change
/// takes no longer if there are many.
pub struct BareTable {
    def: Arc<TableDef, Global>,
    rows: Rows,
}

impl Model for BareTable {
    ghost use Rattle.std.specs.Coded.{codes};
    ghost use Rattle.tab_term.specs.Code.{term_code};
    ghost use Rattle.tab_model.specs.Catalogs.{Table as TableOfCatalog};
    ghost use Rattle.tab_index.specs.Indexed.{IsBare};

    ghost Value = { TableOfCatalog };

    ghost coded = { Prim.hlevel (codes, term_code) };

    ghost view = { λ a. record { def = a.def.value; rows = a.rows.1 } };

    ghost invariant = { λ a. IsBare a.def.value a.rows };
}

// A derived Drop would be expanded, field by field, at each exit of each caller.
impl Drop for BareTable {
    fn drop(self) {
        let BareTable { def, rows } = self;
        drop(def);
        drop(rows);
    }
}

impl BareTable {
    /// A table without records.
    pub fn new(alloc: Global, def: TableDef) -> Result<BareTable, AllocError>
        ensures { IfOk result (λ table. table ≡ record { def = def; rows = [] }) }
    {
        let rows = Rows::new(def.kind);
        Ok(BareTable {
            def: Arc::new(alloc, def)?,
            rows,
        })
    }

    /// The same table, in constant time.
    pub fn share(&self) -> Result<BareTable, AllocError>
        ensures { IfOk result (λ table. table ≡ self.now) }
    {
        Ok(BareTable {
            def: Arc::try_clone(&self.def)?,
            rows: self.rows.share()?,
        })
    }

    /// The table's definition.
    pub fn def(&self) -> &TableDef
        ensures { result.now ≡ self.now.def }
    {
        &self.def
    }

    /// The key with its records, in the order of their insertion. None if it has none.
    pub fn entry(&self, key: &Term) -> Option<&Entry<Term, Records>>
        ensures { MatchOption result (at self.now.rows (term key.now) ≡ [])
            (λ e. e.now.1 ≡ plain_terms (at self.now.rows (term key.now))) }
    {
        self.rows.entry(key)
    }

    /// The records of the key, in the order of their insertion, without memory.
    pub fn at(&self, key: &Term) -> tab_records::Iter<'_>
        ensures { result ≡ at self.now.rows (term key.now) }
    {
        self.rows.at(key)
    }

    /// The table with an index at the position. No record is read.
    pub fn add_index(&self, alloc: Global, position: u64) -> Result<BareTable, AllocError>
        ensures { IfOk result
            (λ table. table
            ≡ with_def self.now
            (with_indexes self.now.def (add_number position self.now.def.indexes))) }
    {
        let def = with_index(alloc, &self.def, position)?;
        self.with_def(alloc, def)
    }

    /// The table without an index at the position.
    pub fn del_index(&self, alloc: Global, position: u64) -> Result<BareTable, AllocError>
        ensures { IfOk result
            (λ table. table
            ≡ with_def self.now
            (with_indexes self.now.def (less_number position self.now.def.indexes))) }
    {
        let def = without_index(alloc, &self.def, position)?;
        self.with_def(alloc, def)
    }

    fn with_def(&self, alloc: Global, def: TableDef) -> Result<BareTable, AllocError>
        requires { def.kind ≡ self.now.def.kind }
        ensures { IfOk result (λ table. table ≡ with_def self.now def) }
    {
        Ok(BareTable {
            def: Arc::new(alloc, def)?,
            rows: self.rows.share()?,
        })
    }

    /// Makes a change, in place if nothing is shared. A set takes the entry that an update has for its record. If
    /// `lender` is another bag's records, and a written record is at the same index of its key there, it is shared too
    /// and not copied.
    pub fn change(
        &mut self,
        alloc: Global,
        update: &Update,
        lender: Option<&Map<Term, Records>>,
    ) -> Result<(), AllocError>
        ensures ok { OnOk result
            (self.new ≡ with_rows self.old (apply_in self.old.def.kind self.old.rows update.now)) }
        ensures err { OnErr result (self.new ≡ self.old) }
    {
        self.rows.update(alloc, update, lender)?;
        Ok(())
    }

    /// Makes the changes, in turn, or none of them, in place if nothing is shared. Records may be shared as by `change`.
    pub fn change_all<R: Wait>(
        &mut self,
        rt: &R,
        alloc: Global,
        updates: &[Update],
        lender: Option<&Map<Term, Records>>,
    ) -> Result<(), AllocError>
        ensures ok { OnOk result
            (self.new
            ≡ with_rows self.old (applied_in self.old.def.kind self.old.rows updates.now)) }
        ensures err { OnErr result (self.new ≡ self.old) }
    {
        self.rows.update_all(rt, alloc, updates, lender)?;
        Ok(())
    }

    /// The same table with its indexes, each of which is built in one sort.
    pub fn indexed(&self, alloc: Global) -> Result<IndexedTable, AllocError>
        ensures { IfOk result (λ table. table ≡ self.now) }
    {
        IndexedTable::of(alloc, Arc::try_clone(&self.def)?, self.rows.share()?)
    }
}
