ghost use Rattle.std.specs.Prelude.{◌≡◌, [], IfOk, IfSome, MatchOption, OnOk, OnErr, is_some, IsTrue, if◌then◌else◌, Some, None, length, map};
ghost use Rattle.std.specs.List.{All};
ghost use Rattle.tab_term.specs.Order.{term_cmp};
ghost use Rattle.tab_term.specs.View.{term, terms};
ghost use Rattle.tab_model.specs.Names.{plain_terms};
ghost use Rattle.tab_model.specs.Tables.{at, keys as keys_of_rows, apply as apply_in, rows_after as applied_in, is_ordered};
ghost use Rattle.tab_model.specs.Definitions.{has_number, with_indexes, add_number, less_number};
ghost use Rattle.tab_model.specs.Catalogs.{with_rows, with_def};
ghost use Rattle.tab_rows.specs.Joined.{joined, IsInOrder};
ghost use Rattle.tab_map.specs.KeyList.{KeysAscend};
ghost use Rattle.tab_index.specs.FurtherOf.{AreApart};
ghost use Rattle.tab_index.specs.IndexOf.{AreKeysWith};
ghost use Rattle.tab_index.specs.Indexed.{positions, indexed_rows, AreIndexesOf, IsBare, LeadsTo};

use crate::backlog::{Backlog, indexed, records_of_all, shared_backlog};
use crate::index::Index;
use crate::indexes::{
    empty_indexes, index_at, indexes_of, new_place, other_indexes, positions_of, shared_indexes,
};
use std::alloc::{AllocError, Global};
use std::marker::Model;
use std::slice;
use std::sync::{Arc, Wait};
use tab_lists::SharedTerms;
use tab_map::{Entry, Iter, Map, Set};
use tab_model::TableDef;
use tab_records::Records;
use tab_rows::{Rows, Update};
use tab_schema::with_positions;
use tab_term::Term;

/// Changes of more index entries than these are made in the indexes later, some at a time. A commit of a thousand writes to a
/// table of many indexes is of hundreds of thousands.
const AT_ONCE: usize = 16_384;

/// A table: its definition, which its versions share, its records, and their indexes.
pub struct IndexedTable {
    def: Arc<TableDef, Global>,
    rows: Rows,
    // One for each position of the definition, in their order.
    indexes: Vec<Index>,
    // The changes that the indexes lack.
    backlog: Option<Backlog>,
}

impl Model for IndexedTable {
    ghost use Rattle.std.specs.Coded.{codes};
    ghost use Rattle.tab_term.specs.Code.{term_code};
    ghost use Rattle.tab_model.specs.Catalogs.{Table as TableOfCatalog};
    ghost use Rattle.tab_index.specs.IndexOf.{AreKeysWith, IsIndexOf};
    ghost use Rattle.tab_index.specs.Indexed.{IsIndexed};

    ghost Value = { TableOfCatalog };

    ghost coded = { Prim.hlevel (codes, term_code) };

    ghost view = { λ a. record { def = a.def.value; rows = a.rows.1 } };

    ghost invariant = { λ a. IsIndexed a.def.value a.rows a.indexes.items a.backlog };
}

// A derived Drop would be expanded, field by field, at each exit of each caller.
impl Drop for IndexedTable {
    fn drop(self) {
        let IndexedTable {
            def,
            rows,
            indexes,
            backlog,
        } = self;
        drop(def);
        drop(rows);
        drop(indexes);
        drop(backlog);
    }
}

impl IndexedTable {
    /// A table without records.
    pub fn new(alloc: Global, def: TableDef) -> Result<IndexedTable, AllocError>
        ensures { IfOk result (λ table. table ≡ record { def = def; rows = [] }) }
    {
        let rows = Rows::new(def.kind);
        let indexes = empty_indexes(alloc, &def.indexes)?;
        Ok(IndexedTable {
            def: Arc::new(alloc, def)?,
            rows,
            indexes,
            backlog: None,
        })
    }

    /// The table of this definition with these records. Its indexes are built, each in one sort.
    pub(crate) fn of(
        alloc: Global,
        def: Arc<TableDef, Global>,
        rows: Rows,
    ) -> Result<IndexedTable, AllocError>
        requires { IsBare def.value rows }
        ensures { IfOk result (λ table. table ≡ record { def = def.value; rows = rows.1 }) }
    {
        let indexes = indexes_of(alloc, &def.indexes, &rows)?;
        Ok(IndexedTable {
            def,
            rows,
            indexes,
            backlog: None,
        })
    }

    /// The same table. The changes that its indexes lack are copied; all else is shared, in a time that the number of indexes
    /// bounds.
    pub fn share(&self, alloc: Global) -> Result<IndexedTable, AllocError>
        ensures { IfOk result (λ table. table ≡ self.now) }
    {
        Ok(IndexedTable {
            def: Arc::try_clone(&self.def)?,
            rows: self.rows.share()?,
            indexes: shared_indexes(alloc, &self.indexes)?,
            backlog: shared_backlog(alloc, &self.backlog)?,
        })
    }

    /// The table's definition.
    pub fn def(&self) -> &TableDef
        ensures { result.now ≡ self.now.def }
    {
        &self.def
    }

    /// The number of records.
    pub fn size(&self) -> usize
        ensures { result ≡ length self.now.rows }
    {
        self.rows.size()
    }

    /// The keys in their order, each with its records in the order of their insertion.
    pub fn walk<'a>(&'a self) -> Iter<'a, Term, Records>
        ensures records { joined result ≡ self.now.rows }
        ensures order { IsInOrder result }
    {
        self.rows.walk()
    }

    /// The keys, each with its records in the order of their insertion.
    pub fn records(&self) -> &Map<Term, Records>
        ensures records { joined result.now ≡ self.now.rows }
        ensures order { IsInOrder result.now }
    {
        self.rows.records()
    }

    /// The key with its records, in the order of their insertion. None if it has none.
    pub fn entry(&self, key: &Term) -> Option<&Entry<Term, Records>>
        ensures { MatchOption result (at self.now.rows (term key.now) ≡ [])
            (λ e. e.now.1 ≡ plain_terms (at self.now.rows (term key.now))) }
    {
        self.rows.entry(key)
    }

    /// The records of the key, in the order of their insertion, without memory.
    pub fn at(&self, key: &Term) -> tab_records::Iter<'_>
        ensures { result ≡ at self.now.rows (term key.now) }
    {
        self.rows.at(key)
    }

    /// The records of the key, in the order of their insertion: they are shared with the table, and no memory taken.
    pub fn read(&self, alloc: Global, key: &Term) -> Result<SharedTerms, AllocError>
        ensures { IfOk result (λ records. records ≡ plain_terms (at self.now.rows (term key.now))) }
    {
        self.rows.read(alloc, key)
    }

    /// The keys, each once, in ascending order. The list shares the keys with the table, and takes no memory.
    pub fn keys(&self) -> Result<SharedTerms, AllocError>
        ensures { IfOk result (λ keys. keys ≡ plain_terms (keys_of_rows self.now.rows)) }
    {
        self.rows.keys()
    }

    /// Keys among which are all of which a record has the value at the position. They are those of the index, which the set shares
    /// all with, and those of changes that the index lacks. None if the position has no index.
    pub fn keys_with(
        &self,
        alloc: Global,
        position: u64,
        value: &Term,
    ) -> Result<Option<Set<Term>>, AllocError>
        ensures indexed { IfOk result
            (λ keys. is_some keys ≡ has_number self.now.def.indexes position) }
        ensures keys { IfOk result
            (λ keys. IfSome keys (AreKeysWith self.now.rows position (term value.now))) }
        ensures in_order { IfOk result (λ keys. IfSome keys (KeysAscend term_cmp)) }
    {
        let Some(index) = index_at(&self.indexes, position) else {
            return Ok(None);
        };
        let keys = index.keys_of(value)?;
        match &self.backlog {
            Some(backlog) => Ok(Some(backlog.keys_onto(alloc, keys, position, value)?)),
            None => Ok(Some(keys)),
        }
    }

    /// The table with an index at the position, which is built in one walk and a sort. If there is one already, the
    /// same table.
    pub fn add_index(&self, alloc: Global, position: u64) -> Result<IndexedTable, AllocError>
        ensures { IfOk result
            (λ table. table
            ≡ with_def self.now
            (with_indexes self.now.def (add_number position self.now.def.indexes))) }
    {
        let Some(place) = new_place(&self.indexes, position) else {
            return self.share(alloc);
        };
        let index = Index::of(alloc, position, indexed(&self.rows, &self.backlog))?;
        let mut indexes = shared_indexes(alloc, &self.indexes)?;
        indexes.insert(place, index)?;
        let backlog = shared_backlog(alloc, &self.backlog)?;
        with_indexes(alloc, &self.def, self.rows.share()?, backlog, indexes)
    }

    /// The table without an index at the position.
    pub fn del_index(&self, alloc: Global, position: u64) -> Result<IndexedTable, AllocError>
        ensures { IfOk result
            (λ table. table
            ≡ with_def self.now
            (with_indexes self.now.def (less_number position self.now.def.indexes))) }
    {
        let indexes = other_indexes(alloc, &self.indexes, position)?;
        let backlog = shared_backlog(alloc, &self.backlog)?;
        with_indexes(alloc, &self.def, self.rows.share()?, backlog, indexes)
    }

    /// The table after the changes, in turn. This one stays as it was, and shares the parts that did not change. A set
    /// takes the entry that an update has for its record. If `lender` is another bag's records, and a written record is
    /// at the same index of its key there, it is shared too and not copied.
    pub fn updated(
        &self,
        alloc: Global,
        updates: &[Update],
        lender: Option<&Map<Term, Records>>,
    ) -> Result<IndexedTable, AllocError>
        ensures { IfOk result
            (λ table. table
            ≡ with_rows self.now (applied_in self.now.def.kind self.now.rows updates.now)) }
    {
        self.share(alloc)?.applied(alloc, updates, lender)
    }

    /// How many index entries the changes are of, if each is the next one.
    pub fn entries(&self, updates: &[Update]) -> usize {
        if self.indexes.is_empty() {
            return 0;
        }
        records_of_all(&self.rows, updates).saturating_mul(self.indexes.len())
    }

    /// Returns whether the changes are of too many index entries to be made at once, so that `settle` makes them.
    pub fn puts_off(&self, updates: &[Update]) -> bool {
        self.entries(updates) > AT_ONCE
    }

    /// The same table. If its next changes are of too many index entries to be made at once, `settle` will make them in the indexes.
    pub fn ready_for(self, alloc: Global, entries: usize) -> Result<IndexedTable, AllocError>
        ensures { IfOk result (λ table. table ≡ self) }
    {
        if entries <= AT_ONCE || self.backlog.is_some() {
            return Ok(self);
        }
        let IndexedTable {
            def,
            rows,
            indexes,
            backlog: _,
        } = self;
        let backlog = Backlog::new(alloc, rows.share()?);
        Ok(IndexedTable {
            def,
            rows,
            indexes,
            backlog: Some(backlog),
        })
    }

    /// The table after the changes, in turn, in place if nothing is shared; records may be shared as by `updated`. If they are of
    /// too many index entries to be made at once, `settle` makes them in the indexes. An error drops the table.
    pub fn applied(
        self,
        alloc: Global,
        updates: &[Update],
        lender: Option<&Map<Term, Records>>,
    ) -> Result<IndexedTable, AllocError>
        ensures { IfOk result
            (λ table. table ≡ with_rows self (applied_in self.def.kind self.rows updates.now)) }
    {
        let entries = self.entries(updates);
        let table = self.ready_for(alloc, entries)?;
        table.after(alloc, updates, lender)
    }

    // As `applied`. The changes are put off if there is a backlog.
    fn after(
        self,
        alloc: Global,
        updates: &[Update],
        lender: Option<&Map<Term, Records>>,
    ) -> Result<IndexedTable, AllocError>
        ensures { IfOk result
            (λ table. table ≡ with_rows self (applied_in self.def.kind self.rows updates.now)) }
    {
        let IndexedTable {
            def,
            mut rows,
            mut indexes,
            backlog,
        } = self;
        let Some(mut backlog) = backlog else {
            change_both(alloc, &mut indexes, &mut rows, updates, lender)?;
            return Ok(IndexedTable {
                def,
                rows,
                indexes,
                backlog: None,
            });
        };
        backlog.add(alloc, records_of_all(&rows, updates), updates)?;
        change_rows(alloc, &mut rows, updates, lender)?;
        Ok(IndexedTable {
            def,
            rows,
            indexes,
            backlog: Some(backlog),
        })
    }

    /// Makes a change. A table without indexes is changed in place if nothing is shared. One with indexes is replaced
    /// by its next version, since its parts can't change at once. Records may be shared as by `updated`.
    pub fn change(
        &mut self,
        alloc: Global,
        update: &Update,
        lender: Option<&Map<Term, Records>>,
    ) -> Result<(), AllocError>
        ensures ok { OnOk result
            (self.new ≡ with_rows self.old (apply_in self.old.def.kind self.old.rows update.now)) }
        ensures err { OnErr result (self.new ≡ self.old) }
    {
        if self.indexes.is_empty() {
            self.rows.update(alloc, update, lender)?;
            self.backlog = None;
            return Ok(());
        }
        *self = self.updated(alloc, slice::from_ref(update), lender)?;
        Ok(())
    }

    /// Makes the changes, in turn, or none of them. A table without indexes is changed in place; one with indexes is
    /// replaced by its next version. Records may be shared as by `updated`.
    pub fn change_all<R: Wait>(
        &mut self,
        rt: &R,
        alloc: Global,
        updates: &[Update],
        lender: Option<&Map<Term, Records>>,
    ) -> Result<(), AllocError>
        ensures ok { OnOk result
            (self.new
            ≡ with_rows self.old (applied_in self.old.def.kind self.old.rows updates.now)) }
        ensures err { OnErr result (self.new ≡ self.old) }
    {
        if self.indexes.is_empty() {
            self.rows.update_all(rt, alloc, updates, lender)?;
            self.backlog = None;
            return Ok(());
        }
        *self = self.updated(alloc, updates, lender)?;
        Ok(())
    }

    /// How many index entries the changes in the backlog are of. `settle` makes them.
    pub fn lacks(&self) -> usize {
        match &self.backlog {
            Some(backlog) => backlog.records().saturating_mul(self.indexes.len()),
            None => 0,
        }
    }

    /// Makes changes of the backlog in the indexes, of at most so many entries or of one record, the oldest first. Records and replies
    /// stay the same.
    pub fn settle(&mut self, alloc: Global, most: usize) -> Result<(), AllocError>
        ensures { self.new ≡ self.old }
    {
        let Some(backlog) = &mut self.backlog else {
            return Ok(());
        };
        let records = most.checked_div(self.indexes.len()).unwrap_or(most);
        self.indexes = backlog.settle(alloc, &self.indexes, records.max(1))?;
        if backlog.len() == 0 {
            self.backlog = None;
        }
        Ok(())
    }
}

// The table of this definition with these indexes, which name its positions.
fn with_indexes(
    alloc: Global,
    def: &TableDef,
    rows: Rows,
    backlog: Option<Backlog>,
    indexes: Vec<Index>,
) -> Result<IndexedTable, AllocError>
    requires bare { IsBare def.now rows }
    requires leads { IfSome backlog (LeadsTo def.now rows.1) }
    requires indexes { AreIndexesOf (indexed_rows rows.1 backlog) indexes.items }
    ensures { IfOk result
        (λ table. table
        ≡ record { def = with_indexes def.now (positions indexes.items); rows = rows.1 }) }
{
    let numbers = positions_of(alloc, &indexes)?;
    let def = with_positions(alloc, def, numbers)?;
    Ok(IndexedTable {
        def: Arc::new(alloc, def)?,
        rows,
        indexes,
        backlog,
    })
}

// Makes the changes, in turn, in the records only.
fn change_rows(
    alloc: Global,
    rows: &mut Rows,
    updates: &[Update],
    lender: Option<&Map<Term, Records>>,
) -> Result<(), AllocError>
    ensures { OnOk result
        (rows.new ≡ (rows.old.0, applied_in rows.old.0 rows.old.1 updates.now)) }
{
    for update in updates {
        rows.update(alloc, update, lender)?;
    }
    Ok(())
}

/// Makes the changes, in turn, in the records and in their indexes.
pub fn change_both(
    alloc: Global,
    indexes: &mut Vec<Index>,
    rows: &mut Rows,
    updates: &[Update],
    lender: Option<&Map<Term, Records>>,
) -> Result<(), AllocError>
    requires indexes { AreIndexesOf rows.old.1 indexes.old.items }
    requires ordered { IsTrue (is_ordered rows.old.1) }
    requires apart { AreApart rows.old.1 }
    ensures positions { OnOk result (positions indexes.new.items ≡ positions indexes.old.items) }
    ensures indexes { OnOk result (AreIndexesOf rows.new.1 indexes.new.items) }
    ensures ordered { OnOk result (IsTrue (is_ordered rows.new.1)) }
    ensures apart { OnOk result (AreApart rows.new.1) }
    ensures rows { OnOk result
        (rows.new ≡ (rows.old.0, applied_in rows.old.0 rows.old.1 updates.now)) }
{
    for update in updates {
        change_indexes(alloc, indexes, rows, update)?;
        rows.update(alloc, update, lender)?;
    }
    Ok(())
}

fn change_indexes(
    alloc: Global,
    indexes: &mut Vec<Index>,
    rows: &Rows,
    update: &Update,
) -> Result<(), AllocError>
    requires indexes { AreIndexesOf rows.now.1 indexes.old.items }
    requires ordered { IsTrue (is_ordered rows.now.1) }
    requires apart { AreApart rows.now.1 }
    ensures positions { OnOk result (positions indexes.new.items ≡ positions indexes.old.items) }
    ensures indexes { OnOk result
        (AreIndexesOf (apply_in rows.now.0 rows.now.1 update.now) indexes.new.items) }
{
    for index in indexes.iter_mut() {
        index.update(alloc, rows, update)?;
    }
    Ok(())
}
