//! One index of a table's records: for each value that records have at a position, the keys of those records.

ghost use Rattle.std.specs.Prelude.{◌≡◌, [], ◌∷◌, IfOk, OnOk, IsTrue, map};
ghost use Rattle.std.specs.List.{list_any};
ghost use Rattle.tab_term.specs.Data.{list as list_of, none as no_terms};
ghost use Rattle.tab_term.specs.Order.{term_cmp};
ghost use Rattle.tab_term.specs.Same.{same};
ghost use Rattle.tab_term.specs.View.{term, terms};
ghost use Rattle.tab_model.specs.Tables.{apply, at, put, delete as delete_in, delete_object as delete_object_in, is_ordered};
ghost use Rattle.tab_model.specs.WholeTables.{element as element_of};
ghost use Rattle.tab_model.specs.declared.data.Kind.TheVariants as kind;
ghost use Rattle.tab_map.specs.Entries.{lookup, Ascends};
ghost use Rattle.tab_map.specs.KeyList.{KeysAscend};
ghost use Rattle.tab_index.specs.IndexOf.{keys_in, IsIndexOf, IsWith, IsWithout};
ghost use Rattle.tab_index.specs.FurtherOf.{IsFurtherOf, AreApart};

use crate::building::entries_of;
use crate::element::{element, key, nil};
use crate::further::Further;
use std::alloc::{AllocError, Global};
use tab_map::{Map, Set};
use tab_model::{Change, Kind};
use tab_records::Iter;
use tab_rows::{Form, Rows, Update};
use tab_term::Term;

/// An index at a position: each value with the keys of the records that have it there. If several records of a key have
/// one value, it counts those after the first, so that a deletion of one looks at no other.
pub struct Index {
    pub position: u64,
    keys: Map<Term, Set<Term>>,
    further: Further,
}

// A derived Drop would be expanded, field by field, at each exit of each caller.
impl Drop for Index {
    fn drop(self) {
        let Index {
            position: _,
            keys,
            further,
        } = self;
        drop(keys);
        drop(further);
    }
}

impl Index {
    /// An index of no records.
    pub fn new(position: u64) -> Index
        ensures position { result.position ≡ position }
        ensures index { IsIndexOf [] result.position result.keys }
        ensures further { IsFurtherOf [] result.position result.further.by_key }
    {
        Index {
            position,
            keys: Map::new(),
            further: Further::new(),
        }
    }

    /// The same index, in constant time.
    pub fn share(&self) -> Result<Index, AllocError>
        ensures { IfOk result (λ index. index ≡ self.now) }
    {
        Ok(Index {
            position: self.position,
            keys: self.keys.share()?,
            further: self.further.share()?,
        })
    }

    /// The keys of the value, which share all with the index.
    pub fn keys_of(&self, value: &Term) -> Result<Set<Term>, AllocError>
        ensures keys { IfOk result
            (λ keys. keys ≡ keys_in (lookup term_cmp value.now self.now.keys)) }
        ensures in_order { IfOk result (λ keys. KeysAscend term_cmp keys) }
        ensures ascends { Ascends term_cmp self.now.keys }
    {
        match self.keys.get(value) {
            Some(keys) if !keys.is_empty() => keys.share(),
            _ => Ok(Set::new()),
        }
    }

    // Puts the key to the value, which has these other keys.
    fn put(
        &mut self,
        alloc: Global,
        mut keys: Set<Term>,
        value: &Term,
        key: &Term,
    ) -> Result<(), AllocError>
        requires keys { keys ≡ keys_in (lookup term_cmp value.now self.old.keys) }
        requires in_order { KeysAscend term_cmp keys }
        requires ascends { Ascends term_cmp self.old.keys }
        ensures position { self.new.position ≡ self.old.position }
        ensures further { self.new.further ≡ self.old.further }
        ensures ok { OnOk result
            (IsWith self.old.keys self.new.keys (term value.now) (term key.now)) }
    {
        keys.insert(alloc, key.try_clone(alloc)?)?;
        self.keys.insert(alloc, value.try_clone(alloc)?, keys)
    }

    /// Takes the key from the value, and a value that has no other key with it.
    fn take(&mut self, alloc: Global, value: &Term, key: &Term) -> Result<(), AllocError>
        ensures position { self.new.position ≡ self.old.position }
        ensures further { self.new.further ≡ self.old.further }
        ensures ok { OnOk result
            (IsWithout self.old.keys self.new.keys (term value.now) (term key.now)) }
    {
        let Some(keys) = self.keys.get(value) else {
            return Ok(());
        };
        if !keys.contains(key) {
            return Ok(());
        }
        let left = keys.removed(alloc, key)?;
        if left.is_empty() {
            return self.keys.remove(alloc, value);
        }
        let value = value.try_clone(alloc)?;
        self.keys.insert(alloc, value, left)
    }

    /// The index of these records at the position, in one sort.
    pub fn of(alloc: Global, position: u64, rows: &Rows) -> Result<Index, AllocError>
        ensures position { IfOk result (λ index. index.position ≡ position) }
        ensures index { IfOk result (λ index. IsIndexOf rows.now.1 index.position index.keys) }
        ensures further { IfOk result
            (λ index. IsFurtherOf rows.now.1 index.position index.further.by_key) }
    {
        let (keys, further) = entries_of(alloc, position, rows)?;
        Ok(Index {
            position,
            keys,
            further,
        })
    }

    // Takes out what the key's records have at the position.
    fn forget(&mut self, alloc: Global, rows: &Rows, key: &Term) -> Result<(), AllocError>
        requires index { IsIndexOf rows.now.1 self.old.position self.old.keys }
        requires further { IsFurtherOf rows.now.1 self.old.position self.old.further.by_key }
        ensures position { self.new.position ≡ self.old.position }
        ensures ok { OnOk result
            (IsIndexOf (delete_in rows.now.1 (term key.now)) self.new.position self.new.keys) }
        ensures further { OnOk result
            (IsFurtherOf (delete_in rows.now.1 (term key.now)) self.new.position
            self.new.further.by_key) }
    {
        let nil = nil(alloc);
        for row in rows.at(key) {
            self.take(alloc, element(row, self.position, &nil), key)?;
        }
        self.further.forget(alloc, key)
    }

    // A set's write, whose record takes the place of its key's records.
    fn replace(&mut self, alloc: Global, rows: &Rows, row: &Term) -> Result<(), AllocError>
        requires index { IsIndexOf rows.now.1 self.old.position self.old.keys }
        requires further { IsFurtherOf rows.now.1 self.old.position self.old.further.by_key }
        requires ordered { IsTrue (is_ordered rows.now.1) }
        ensures position { self.new.position ≡ self.old.position }
        ensures ok { OnOk result
            (IsIndexOf (put kind.Set rows.now.1 (term row.now)) self.new.position
            self.new.keys) }
        ensures further { OnOk result
            (IsFurtherOf (put kind.Set rows.now.1 (term row.now)) self.new.position
            self.new.further.by_key) }
    {
        let nil = nil(alloc);
        let key = key(row, &nil);
        let value = element(row, self.position, &nil);
        if self.has_only(rows.at(key), value, &nil) {
            return Ok(());
        }
        self.forget(alloc, rows, key)?;
        let keys = self.keys_of(value)?;
        self.put(alloc, keys, value, key)
    }

    // Returns whether there is one record, and it has the value.
    fn has_only(&self, mut records: Iter<'_>, value: &Term, nil: &Term) -> bool
        requires { term nil.now ≡ list_of no_terms }
        ensures { IsTrue result
            → map (element_of self.now.position) records.entry ≡ term value.now ∷ [] }
    {
        let Some(first) = records.next() else {
            return false;
        };
        match records.next() {
            Some(_) => false,
            None => element(first, self.position, nil) == value,
        }
    }

    // A bag's write. If an equal record is there, it changes nothing.
    fn append(&mut self, alloc: Global, rows: &Rows, row: &Term) -> Result<(), AllocError>
        requires index { IsIndexOf rows.now.1 self.old.position self.old.keys }
        requires further { IsFurtherOf rows.now.1 self.old.position self.old.further.by_key }
        requires ordered { IsTrue (is_ordered rows.now.1) }
        ensures position { self.new.position ≡ self.old.position }
        ensures ok { OnOk result
            (IsIndexOf (put kind.Bag rows.now.1 (term row.now)) self.new.position
            self.new.keys) }
        ensures further { OnOk result
            (IsFurtherOf (put kind.Bag rows.now.1 (term row.now)) self.new.position
            self.new.further.by_key) }
    {
        let nil = nil(alloc);
        let key = key(row, &nil);
        let value = element(row, self.position, &nil);
        let keys = self.keys_of(value)?;
        if !keys.contains(key) {
            return self.put(alloc, keys, value, key);
        }
        if has_record(rows, key, row) {
            return Ok(());
        }
        self.further.raise(alloc, value, key)
    }

    // A deletion of a record. The key stays if another of its records has the value.
    fn forget_object(&mut self, alloc: Global, rows: &Rows, row: &Term) -> Result<(), AllocError>
        requires index { IsIndexOf rows.now.1 self.old.position self.old.keys }
        requires further { IsFurtherOf rows.now.1 self.old.position self.old.further.by_key }
        requires ordered { IsTrue (is_ordered rows.now.1) }
        requires apart { AreApart rows.now.1 }
        ensures position { self.new.position ≡ self.old.position }
        ensures ok { OnOk result
            (IsIndexOf (delete_object_in rows.now.1 (term row.now)) self.new.position
            self.new.keys) }
        ensures further { OnOk result
            (IsFurtherOf (delete_object_in rows.now.1 (term row.now)) self.new.position
            self.new.further.by_key) }
    {
        let nil = nil(alloc);
        let key = key(row, &nil);
        if !has_record(rows, key, row) {
            return Ok(());
        }
        let value = element(row, self.position, &nil);
        let another = self.further.lower(alloc, value, key)?;
        if another {
            return Ok(());
        }
        self.take(alloc, value, key)
    }

    /// Makes the index of `rows` that of the rows after the change.
    pub fn update(&mut self, alloc: Global, rows: &Rows, update: &Update) -> Result<(), AllocError>
        requires index { IsIndexOf rows.now.1 self.old.position self.old.keys }
        requires further { IsFurtherOf rows.now.1 self.old.position self.old.further.by_key }
        requires ordered { IsTrue (is_ordered rows.now.1) }
        requires apart { AreApart rows.now.1 }
        ensures position { self.new.position ≡ self.old.position }
        ensures ok { OnOk result
            (IsIndexOf (apply rows.now.0 rows.now.1 update.now) self.new.position self.new.keys) }
        ensures further { OnOk result
            (IsFurtherOf (apply rows.now.0 rows.now.1 update.now) self.new.position
            self.new.further.by_key) }
    {
        match update.form() {
            Form::Only(only) => self.write(alloc, rows, only.row()),
            Form::Change(change) => self.change(alloc, rows, change),
        }
    }

    fn change(&mut self, alloc: Global, rows: &Rows, change: &Change) -> Result<(), AllocError>
        requires index { IsIndexOf rows.now.1 self.old.position self.old.keys }
        requires further { IsFurtherOf rows.now.1 self.old.position self.old.further.by_key }
        requires ordered { IsTrue (is_ordered rows.now.1) }
        requires apart { AreApart rows.now.1 }
        ensures position { self.new.position ≡ self.old.position }
        ensures ok { OnOk result
            (IsIndexOf (apply rows.now.0 rows.now.1 change.now) self.new.position self.new.keys) }
        ensures further { OnOk result
            (IsFurtherOf (apply rows.now.0 rows.now.1 change.now) self.new.position
            self.new.further.by_key) }
    {
        match change {
            Change::Write(row) => self.write(alloc, rows, row),
            Change::Delete(_, key) => self.forget(alloc, rows, key),
            Change::DeleteObject(row) => self.forget_object(alloc, rows, row),
        }
    }

    fn write(&mut self, alloc: Global, rows: &Rows, row: &Term) -> Result<(), AllocError>
        requires index { IsIndexOf rows.now.1 self.old.position self.old.keys }
        requires further { IsFurtherOf rows.now.1 self.old.position self.old.further.by_key }
        requires ordered { IsTrue (is_ordered rows.now.1) }
        ensures position { self.new.position ≡ self.old.position }
        ensures ok { OnOk result
            (IsIndexOf (put rows.now.0 rows.now.1 (term row.now)) self.new.position self.new.keys) }
        ensures further { OnOk result
            (IsFurtherOf (put rows.now.0 rows.now.1 (term row.now)) self.new.position
            self.new.further.by_key) }
    {
        match rows.kind() {
            Kind::Set => self.replace(alloc, rows, row),
            Kind::Bag => self.append(alloc, rows, row),
        }
    }
}

// Returns whether an equal record is among those of the key.
fn has_record(rows: &Rows, key: &Term, row: &Term) -> bool
    ensures { result ≡ list_any (same (term row.now)) (at rows.now.1 (term key.now)) }
{
    match rows.entry(key) {
        Some(entry) => entry.pair().1.contains(row),
        None => false,
    }
}
