//! Changes of a table that its indexes lack.

ghost use Rattle.std.specs.Prelude.{◌≡◌, [], ◌++◌, ◌||◌, ◌≤◌, IfOk, OnOk, OnErr, IsTrue, length};
ghost use Rattle.std.specs.List.{list_any, list_all};
ghost use Rattle.std.specs.Option.{option_copied};
ghost use Rattle.tab_term.specs.Order.{term_cmp};
ghost use Rattle.tab_term.specs.View.{term};
ghost use Rattle.tab_map.specs.KeyList.{contains_key, KeysAscend};
ghost use Rattle.tab_model.specs.Tables.{Rows as RowsOf, is_ordered, rows_after};
ghost use Rattle.tab_model.specs.declared.data.TableDef.{TableDef as TableDefOf};
ghost use Rattle.tab_index.specs.FurtherOf.{AreApart};
ghost use Rattle.tab_index.specs.Indexed.{positions, AreIndexesOf, LeadsTo, deletes_one, indexed_rows, key_deleted, row_written, writes};

use crate::element::{element, key, nil};
use crate::index::Index;
use crate::indexes::shared_indexes;
use crate::table::change_both;
use std::alloc::{AllocError, Global};
use std::marker::Model;
use tab_map::Set;
use tab_model::Change;
use tab_rows::{Form, Rows, Update};
use tab_term::Term;

/// A record that is deleted by itself takes as long as so many of a key that are deleted together.
const AS_LONG: usize = 8;

/// The records that a table's indexes are of, and the changes that were made to them since, in turn. Contracts see both.
pub struct Backlog {
    rows: Rows,
    updates: Vec<Update>,
    // Of how many records the changes are.
    records: usize,
}

impl Model for Backlog {
    ghost use Rattle.std.specs.Coded.{codes};
    ghost use Rattle.tab_term.specs.Code.{term_code, terms_code, pairs_code};
    ghost use Rattle.tab_index.specs.Indexed.{Pending};

    ghost Value = { Pending };

    ghost coded = { Prim.hlevel (codes, term_code, terms_code, pairs_code) };

    ghost view = { λ a. (a.rows, a.updates.items) };
}

// A derived Drop would be expanded, field by field, at each exit of each caller.
impl Drop for Backlog {
    fn drop(self) {
        let Backlog {
            rows,
            updates,
            records: _,
        } = self;
        drop(rows);
        drop(updates);
    }
}

impl Backlog {
    /// No changes. It takes no memory.
    pub fn new(alloc: Global, rows: Rows) -> Backlog
        ensures { result ≡ (rows, []) }
    {
        Backlog {
            rows,
            updates: Vec::new(alloc),
            records: 0,
        }
    }

    /// The same changes, copied. The records are shared.
    pub fn share(&self, alloc: Global) -> Result<Backlog, AllocError>
        ensures { IfOk result (λ same. same ≡ self.now) }
    {
        let mut same = Backlog::new(alloc, self.rows.share()?);
        same.add(alloc, self.records, self.updates.as_slice())?;
        Ok(same)
    }

    /// Adds changes that were made, of so many records.
    pub fn add(
        &mut self,
        alloc: Global,
        records: usize,
        updates: &[Update],
    ) -> Result<(), AllocError>
        ensures { OnOk result (self.new ≡ (self.old.0, self.old.1 ++ updates.now)) }
    {
        for update in updates {
            self.updates.push(Update::new(update.to_change(alloc)?))?;
        }
        self.records = self.records.saturating_add(records);
        Ok(())
    }

    /// The records that the indexes are of.
    pub fn rows(&self) -> &Rows
        ensures { result.now ≡ self.now.0 }
    {
        &self.rows
    }

    /// The number of changes.
    pub fn len(&self) -> usize
        ensures { result ≡ length self.now.1 }
    {
        self.updates.len()
    }

    /// The number of records that the changes are of. Of the first it is exact, so that it falls with each part that is made.
    pub fn records(&self) -> usize {
        let Some(first) = self.updates.first() else {
            return 0;
        };
        let others = self.updates.len().saturating_sub(1);
        let least = records_of(&self.rows, first).saturating_add(others);
        self.records.max(least)
    }

    /// The keys, and those of the changes that write a record with the value at the position.
    pub fn keys_onto(
        &self,
        alloc: Global,
        mut keys: Set<Term>,
        position: u64,
        value: &Term,
    ) -> Result<Set<Term>, AllocError>
        requires { KeysAscend term_cmp keys }
        ensures keys { IfOk result
            (λ all. (k : Term) → contains_key term_cmp k all
            ≡ (list_any (writes position (term value.now) (term k)) self.now.1
            || contains_key term_cmp k keys)) }
        ensures in_order { IfOk result (λ all. KeysAscend term_cmp all) }
    {
        for update in &self.updates {
            add_key(alloc, &mut keys, update, position, value)?;
        }
        Ok(keys)
    }

    /// The indexes with the first changes of at most so many records more, which are changes of the backlog no longer. Of a deletion of
    /// more records some are taken out, and it stays a change.
    pub fn settle(
        &mut self,
        alloc: Global,
        indexes: &[Index],
        most: usize,
    ) -> Result<Vec<Index>, AllocError>
        requires indexes { AreIndexesOf self.old.0.1 indexes.now }
        requires ordered { IsTrue (is_ordered self.old.0.1) }
        requires apart { AreApart self.old.0.1 }
        ensures positions { IfOk result (λ new. positions new.items ≡ positions indexes.now) }
        ensures indexes { IfOk result (λ new. AreIndexesOf self.new.0.1 new.items) }
        ensures leads { (def : TableDefOf) (rows : RowsOf) → LeadsTo def rows self.old
            → LeadsTo def rows self.new }
        ensures err { OnErr result (self.new ≡ self.old) }
    {
        let (made, records) = self.fitting(most);
        let parts = self.parts(alloc, most)?;
        let mut indexes = shared_indexes(alloc, indexes)?;
        let mut rows = self.rows.share()?;
        change_both(alloc, &mut indexes, &mut rows, &parts, None)?;
        change_both(alloc, &mut indexes, &mut rows, &self.updates[..made], None)?;
        let left = self.updates.split_off(made)?;
        self.updates = left;
        self.rows = rows;
        self.records = self
            .records
            .saturating_sub(records)
            .saturating_sub(parts.len());
        Ok(indexes)
    }

    // How many of the first changes are of at most so many records, and of how many they are.
    fn fitting(&self, most: usize) -> (usize, usize)
        ensures { result.0 ≤ length self.now.1 }
    {
        let mut records: usize = 0;
        for (made, update) in self.updates.iter().enumerate() {
            let more = records.saturating_add(records_of(&self.rows, update));
            if more > most {
                return (made, records);
            }
            records = more;
        }
        (self.updates.len(), records)
    }

    // If the first change deletes more records than these: deletions of some of them.
    fn parts(&self, alloc: Global, most: usize) -> Result<Vec<Update>, AllocError>
        ensures { let kind = self.now.0.0 in
            let rows = self.now.0.1 in
            IfOk result (λ parts. rows_after kind (rows_after kind rows parts.items) self.now.1
            ≡ rows_after kind rows self.now.1) }
    {
        let Some(first) = self.updates.first() else {
            return Ok(Vec::new(alloc));
        };
        match deleted(first) {
            Some(key) if records_of(&self.rows, first) > most => {
                first_deletions(alloc, &self.rows, key, most.div_ceil(AS_LONG))
            }
            _ => Ok(Vec::new(alloc)),
        }
    }
}

// The deletions of at most so many records of the key, the first ones.
fn first_deletions(
    alloc: Global,
    rows: &Rows,
    key: &Term,
    most: usize,
) -> Result<Vec<Update>, AllocError>
    ensures { IfOk result (λ parts. IsTrue (list_all (deletes_one (term key.now)) parts.items)) }
{
    let mut parts = Vec::new(alloc);
    for record in rows.at(key) {
        if parts.len() == most {
            return Ok(parts);
        }
        let record = record.try_clone(alloc)?;
        parts.push(Update::new(Change::DeleteObject(record)))?;
    }
    Ok(parts)
}

// The key that a change deletes.
fn deleted(update: &Update) -> Option<&Term>
    ensures { option_copied result ≡ key_deleted update.now }
{
    match update.form() {
        Form::Change(Change::Delete(_, key)) => Some(key),
        _ => None,
    }
}

/// How many records the change enters in an index or takes out, if it is the next one.
fn records_of(rows: &Rows, update: &Update) -> usize {
    let Some(key) = deleted(update) else {
        return 1;
    };
    match rows.entry(key) {
        Some(entry) => entry.pair().1.len().max(1),
        None => 1,
    }
}

/// How many records the changes enter in an index or take out, if each is the next one.
pub fn records_of_all(rows: &Rows, updates: &[Update]) -> usize {
    let mut records: usize = 0;
    for update in updates {
        records = records.saturating_add(records_of(rows, update));
    }
    records
}

// Adds the key of a change that writes a record with the value at the position.
fn add_key(
    alloc: Global,
    keys: &mut Set<Term>,
    update: &Update,
    position: u64,
    value: &Term,
) -> Result<(), AllocError>
    requires { KeysAscend term_cmp keys.old }
    ensures keys { OnOk result
        ((k : Term) → contains_key term_cmp k keys.new
        ≡ (writes position (term value.now) (term k) update.now
        || contains_key term_cmp k keys.old)) }
    ensures in_order { OnOk result (KeysAscend term_cmp keys.new) }
{
    let Some(row) = written(update) else {
        return Ok(());
    };
    let nil = nil(alloc);
    if element(row, position, &nil) == value {
        keys.insert(alloc, key(row, &nil).try_clone(alloc)?)?;
        return Ok(());
    }
    Ok(())
}

// The record that a change writes.
fn written(update: &Update) -> Option<&Term>
    ensures { option_copied result ≡ row_written update.now }
{
    match update.form() {
        Form::Only(only) => Some(only.row()),
        Form::Change(Change::Write(row)) => Some(row),
        Form::Change(_) => None,
    }
}

/// The same backlog, if there is one.
pub fn shared_backlog(
    alloc: Global,
    backlog: &Option<Backlog>,
) -> Result<Option<Backlog>, AllocError>
    ensures { IfOk result (λ same. same ≡ backlog.now) }
{
    match backlog {
        Some(backlog) => Ok(Some(backlog.share(alloc)?)),
        None => Ok(None),
    }
}

/// The records that a table's indexes are of.
pub fn indexed<'a>(rows: &'a Rows, backlog: &'a Option<Backlog>) -> &'a Rows
    ensures { result.now.1 ≡ indexed_rows rows.now.1 backlog.now }
{
    match backlog {
        Some(backlog) => backlog.rows(),
        None => rows,
    }
}
