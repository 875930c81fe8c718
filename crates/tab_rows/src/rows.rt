ghost use Rattle.std.specs.Prelude.{◌≡◌, ◌≤◌, ◌+◌, [], ◌∷◌, ◌++◌, IfOk, IfSome, OnOk, OnErr, MatchOption, length};
ghost use Rattle.std.specs.List.{list_any};
ghost use Rattle.tab_model.specs.declared.data.Kind.TheVariants as Kind;
ghost use Rattle.tab_term.specs.Same.{same};
ghost use Rattle.tab_map.specs.Entries.{insert_entry};
ghost use Rattle.tab_term.specs.Order.{term_cmp};
ghost use Rattle.tab_term.specs.View.{term, terms};
ghost use Rattle.tab_model.specs.Names.{plain_terms, terms_list};
ghost use Rattle.tab_model.specs.Tables.{apply, at, key as key_of_row, keys as keys_of_rows, put as put_in, delete as delete_in, delete_object as delete_object_in};
ghost use Rattle.tab_model.specs.OnlyRecords.{IsOnly, record_in};
ghost use Rattle.tab_rows.specs.Joined.{joined, IsInOrder, IsKeyed};
ghost use Rattle.tab_rows.specs.Restored.{restored, records_of, HasRecordsOf};
ghost use Rattle.tab_rows.specs.Former.{put_back};

use crate::append::Append;
use crate::entries::entry_of;
use crate::former::Former;
use crate::update::{Form, Update};
use std::alloc::{AllocError, Global};
use std::marker::Model;
use tab_lists::{SharedTerms, Snapshot};
use tab_map::{Entry, Iter, Map};
use tab_model::{Change, Kind, OnlyRecord, copy_of_key};
use tab_records::Records;
use tab_term::{Term, Terms};

/// The records of one table.
pub struct Rows {
    kind: Kind,
    records: Map<Term, Records>,
    // Of all keys together.
    size: usize,
}

impl Model for Rows {
    ghost use Rattle.std.specs.Prelude.{List};
    ghost use Rattle.std.specs.Coded.{codes};
    ghost use Rattle.tab_term.specs.Code.{term_code};
    ghost use Rattle.tab_term.specs.Data.{PlainTerm};
    ghost use Rattle.tab_model.specs.declared.data.Kind.{Kind};
    ghost use Rattle.tab_rows.specs.Joined.{joined, IsKept};

    ghost Value = { Kind × List PlainTerm };

    ghost coded = { Prim.hlevel (codes, term_code) };

    ghost view = { λ a. (a.kind, joined a.records) };

    ghost invariant = { λ a. IsKept a.records a.size };
}

// A derived Drop would be expanded, field by field, at each exit of each caller.
impl Drop for Rows {
    fn drop(self) {
        let Rows {
            kind: _,
            records,
            size: _,
        } = self;
        drop(records);
    }
}

impl Rows {
    /// No records.
    pub fn new(kind: Kind) -> Rows
        ensures { result ≡ (kind, []) }
    {
        Rows {
            kind,
            records: Map::new(),
            size: 0,
        }
    }

    /// The same records, in constant time.
    pub fn share(&self) -> Result<Rows, AllocError>
        ensures { IfOk result (λ rows. rows ≡ self.now) }
    {
        Ok(Rows {
            kind: self.kind,
            records: self.records.share()?,
            size: self.size,
        })
    }

    /// Whether they are of a set or a bag.
    pub fn kind(&self) -> Kind
        ensures { result ≡ self.now.0 }
    {
        self.kind
    }

    /// How many records there are.
    pub fn size(&self) -> usize
        ensures { result ≡ length self.now.1 }
    {
        self.size
    }

    /// The keys in their order, each with its records in the order of their insertion.
    pub fn walk<'a>(&'a self) -> Iter<'a, Term, Records>
        ensures records { joined result ≡ self.now.1 }
        ensures order { IsInOrder result }
    {
        self.records.iter()
    }

    /// The keys, each with its records in the order of their insertion.
    pub fn records(&self) -> &Map<Term, Records>
        ensures records { joined result.now ≡ self.now.1 }
        ensures order { IsInOrder result.now }
    {
        &self.records
    }

    /// The key with its records, in the order of their insertion. None where it has none.
    pub fn entry(&self, key: &Term) -> Option<&Entry<Term, Records>>
        ensures { MatchOption result (at self.now.1 (term key.now) ≡ [])
            (λ e. e.now.1 ≡ plain_terms (at self.now.1 (term key.now))) }
    {
        self.records.get_entry(key)
    }

    /// The records of the key, in the order of their insertion, without memory.
    pub fn at(&self, key: &Term) -> tab_records::Iter<'_>
        ensures { result ≡ at self.now.1 (term key.now) }
    {
        match self.entry(key) {
            Some(entry) => entry.pair().1.iter(),
            None => tab_records::Iter::over(&[]),
        }
    }

    fn count_at(&self, key: &Term) -> usize
        ensures count { result ≡ length (at self.now.1 (term key.now)) }
        ensures within { result ≤ length self.now.1 }
    {
        match self.entry(key) {
            Some(entry) => entry.pair().1.len(),
            None => 0,
        }
    }

    // The records of the key but those that are equal to this one.
    fn others_at(&self, alloc: Global, key: &Term, row: &Term) -> Result<Records, AllocError>
        ensures { IfOk result
            (λ left. left
            ≡ plain_terms (delete_object_in (at self.now.1 (term key.now)) (term row.now))) }
    {
        match self.entry(key) {
            Some(entry) => entry.pair().1.without(alloc, row),
            None => Ok(Records::new()),
        }
    }

    /// The records of the key, in the order of their insertion: they are shared with this, and no memory taken.
    pub fn read(&self, alloc: Global, key: &Term) -> Result<SharedTerms, AllocError>
        ensures { IfOk result (λ records. records ≡ plain_terms (at self.now.1 (term key.now))) }
    {
        match self.entry(key) {
            Some(entry) => Ok(SharedTerms::from_entry(entry.try_clone()?)),
            None => Ok(SharedTerms::from_terms(Terms::from_vec(Vec::new(alloc)))),
        }
    }

    /// The keys, each once, in ascending order. The list shares the keys with this, and takes no memory.
    pub fn keys(&self) -> Result<SharedTerms, AllocError>
        ensures { IfOk result (λ keys. keys ≡ plain_terms (keys_of_rows self.now.1)) }
    {
        let records = self.records.share()?;
        Ok(SharedTerms::from_keys(Snapshot::new(Map::new(), records)))
    }

    /// Makes a change. A set takes the entry that a record has already, and copies nothing. Other records are lent as to `put`.
    pub fn update(
        &mut self,
        alloc: Global,
        update: &Update,
        lender: Option<&Map<Term, Records>>,
    ) -> Result<(), AllocError>
        ensures ok { OnOk result
            (self.new ≡ (self.old.0, apply self.old.0 self.old.1 update.now)) }
        ensures err { OnErr result (self.new ≡ self.old) }
    {
        match update.form() {
            Form::Only(only) => self.put_only(alloc, only),
            Form::Change(change) => self.change(alloc, change, lender),
        }
    }

    /// Makes a change as `update` does, and returns the former records of its key.
    pub(crate) fn exchange(
        &mut self,
        alloc: Global,
        update: &Update,
        lender: Option<&Map<Term, Records>>,
    ) -> Result<Former, AllocError>
        ensures ok { OnOk result
            (self.new ≡ (self.old.0, apply self.old.0 self.old.1 update.now)) }
        ensures former { IfOk result (λ former. put_back self.new former ≡ self.old) }
        ensures err { OnErr result (self.new ≡ self.old) }
    {
        if let (Kind::Set, Form::Only(only)) = (self.kind, update.form()) {
            return self.exchange_only(alloc, only);
        }
        let key = update.copy_of_key(alloc)?;
        let former = self.former_at(key)?;
        self.update(alloc, update, lender)?;
        Ok(former)
    }

    // The search for the place of a set's entry finds the former one.
    fn exchange_only(&mut self, alloc: Global, only: &OnlyRecord) -> Result<Former, AllocError>
        requires { self.old.0 ≡ Kind.Set }
        ensures ok { OnOk result
            (self.new ≡ (self.old.0, put_in self.old.0 self.old.1 (term only.now))) }
        ensures former { let key = key_of_row (term only.now) in
            IfOk result (λ former. former ≡ (key, at self.old.1 key)) }
        ensures err { OnErr result (self.new ≡ self.old) }
    {
        let key = copy_of_key(alloc, only.row())?;
        let entry = self.exchange_entry(alloc, only.to_entry()?)?;
        Ok(Former { key, entry })
    }

    // The entry of the key is shared with this.
    fn former_at(&self, key: Term) -> Result<Former, AllocError>
        ensures { IfOk result (λ former. former ≡ (term key, at self.now.1 (term key))) }
    {
        match self.records.get_entry(&key) {
            Some(entry) => {
                let entry = Some(entry.try_clone()?);
                Ok(Former { key, entry })
            }
            None => Ok(Former { key, entry: None }),
        }
    }

    fn put_only(&mut self, alloc: Global, only: &OnlyRecord) -> Result<(), AllocError>
        ensures ok { OnOk result
            (self.new ≡ (self.old.0, put_in self.old.0 self.old.1 (term only.now))) }
        ensures err { OnErr result (self.new ≡ self.old) }
    {
        match self.kind {
            Kind::Set => self.put_entry(alloc, only.to_entry()?),
            Kind::Bag => self.add(alloc, only.row(), None),
        }
    }

    /// Makes a change; records are lent as to `put`.
    pub fn change(
        &mut self,
        alloc: Global,
        change: &Change,
        lender: Option<&Map<Term, Records>>,
    ) -> Result<(), AllocError>
        ensures ok { OnOk result
            (self.new ≡ (self.old.0, apply self.old.0 self.old.1 change.now)) }
        ensures err { OnErr result (self.new ≡ self.old) }
    {
        match change {
            Change::Write(row) => self.put(alloc, row, lender),
            Change::Delete(_, key) => self.delete(alloc, key),
            Change::DeleteObject(row) => self.delete_object(alloc, row),
        }
    }

    /// Writes a record. In a set it takes the place of its key's records; in a bag it comes after them, and where an
    /// equal record is there already, nothing moves. Where another bag lends its records, and has this one at the same place of its
    /// key, the entry is shared in place of a copy.
    pub fn put(
        &mut self,
        alloc: Global,
        row: &Term,
        lender: Option<&Map<Term, Records>>,
    ) -> Result<(), AllocError>
        ensures ok { OnOk result
            (self.new ≡ (self.old.0, put_in self.old.0 self.old.1 (term row.now))) }
        ensures err { OnErr result (self.new ≡ self.old) }
    {
        match self.kind {
            Kind::Set => self.put_entry(alloc, entry_of(alloc, row, None)?),
            Kind::Bag => self.add(alloc, row, lender),
        }
    }

    // Puts a record in the entry that has it alone.
    fn put_entry(&mut self, alloc: Global, entry: Entry<Term, Records>) -> Result<(), AllocError>
        requires kind { self.old.0 ≡ Kind.Set }
        requires only { IsOnly (term (record_in entry)) entry }
        ensures ok { OnOk result
            (self.new ≡ (self.old.0, put_in self.old.0 self.old.1 (term (record_in entry)))) }
        ensures err { OnErr result (self.new ≡ self.old) }
    {
        let _replaced = self.exchange_entry(alloc, entry)?;
        Ok(())
    }

    // Puts the entry of a key's only record, and returns the former entry of the key.
    fn exchange_entry(
        &mut self,
        alloc: Global,
        entry: Entry<Term, Records>,
    ) -> Result<Option<Entry<Term, Records>>, AllocError>
        requires kind { self.old.0 ≡ Kind.Set }
        requires only { IsOnly (term (record_in entry)) entry }
        ensures ok { OnOk result
            (self.new ≡ (self.old.0, put_in self.old.0 self.old.1 (term (record_in entry)))) }
        ensures former { IfOk result
            (λ former. records_of former ≡ at self.old.1 (term entry.0)) }
        ensures keyed { IfOk result (λ former. IfSome former (HasRecordsOf (term entry.0))) }
        ensures err { OnErr result (self.new ≡ self.old) }
    {
        let size = one_more(self.size)?;
        let former = replace(&mut self.records, alloc, entry)?;
        self.size = size - count_of(&former);
        Ok(former)
    }

    fn add(
        &mut self,
        alloc: Global,
        row: &Term,
        lender: Option<&Map<Term, Records>>,
    ) -> Result<(), AllocError>
        requires kind { self.old.0 ≡ Kind.Bag }
        ensures ok { OnOk result
            (self.new ≡ (self.old.0, put_in self.old.0 self.old.1 (term row.now))) }
        ensures err { OnErr result (self.new ≡ self.old) }
    {
        let key = copy_of_key(alloc, row)?;
        let Some(records) = self.records.get(&key) else {
            return self.add_first(alloc, row, lender);
        };
        if records.contains(row) {
            return Ok(());
        }
        let size = one_more(self.size)?;
        let lender = match lender {
            Some(records) => records.get(&key),
            None => None,
        };
        self.records.revise(alloc, key, Append { row, lender })?;
        self.size = size;
        Ok(())
    }

    fn add_first(
        &mut self,
        alloc: Global,
        row: &Term,
        lender: Option<&Map<Term, Records>>,
    ) -> Result<(), AllocError>
        requires kind { self.old.0 ≡ Kind.Bag }
        requires absent { at self.old.1 (key_of_row (term row.now)) ≡ [] }
        ensures ok { OnOk result
            (self.new ≡ (self.old.0, put_in self.old.0 self.old.1 (term row.now))) }
        ensures err { OnErr result (self.new ≡ self.old) }
    {
        let size = one_more(self.size)?;
        let entry = entry_of(alloc, row, lender)?;
        self.records.insert_entry(alloc, entry)?;
        self.size = size;
        Ok(())
    }

    /// Puts back the former records of a key. It takes memory only if nodes are shared, or were merged since.
    pub(crate) fn restore(&mut self, alloc: Global, former: &Former) -> Result<(), AllocError>
        ensures ok { OnOk result (self.new ≡ put_back self.old former.now) }
        ensures err { OnErr result (self.new ≡ self.old) }
    {
        match &former.entry {
            Some(entry) => self.put_back(alloc, entry_at(alloc, entry, &former.key)?),
            None => self.take_out(alloc, &former.key),
        }
    }

    fn put_back(&mut self, alloc: Global, entry: Entry<Term, Records>) -> Result<(), AllocError>
        requires { IsKeyed entry }
        ensures ok { OnOk result
            (self.new ≡ (self.old.0, restored self.old.1 (term entry.0) (terms_list entry.1))) }
        ensures err { OnErr result (self.new ≡ self.old) }
    {
        let size = sum_of(self.size, entry.pair().1.len())?;
        let former = replace(&mut self.records, alloc, entry)?;
        self.size = size - count_of(&former);
        Ok(())
    }

    fn take_out(&mut self, alloc: Global, key: &Term) -> Result<(), AllocError>
        ensures ok { OnOk result
            (self.new ≡ (self.old.0, restored self.old.1 (term key.now) [])) }
        ensures deleted { OnOk result
            (self.new ≡ (self.old.0, delete_in self.old.1 (term key.now))) }
        ensures err { OnErr result (self.new ≡ self.old) }
    {
        let size = self.size - self.count_at(key);
        self.records.remove(alloc, key)?;
        self.size = size;
        Ok(())
    }

    /// Takes out all records of the key.
    pub fn delete(&mut self, alloc: Global, key: &Term) -> Result<(), AllocError>
        ensures ok { OnOk result (self.new ≡ (self.old.0, delete_in self.old.1 (term key.now))) }
        ensures err { OnErr result (self.new ≡ self.old) }
    {
        self.take_out(alloc, key)
    }

    /// Takes out the equal record, if it is there. A key that has no other record goes with it.
    pub fn delete_object(&mut self, alloc: Global, row: &Term) -> Result<(), AllocError>
        ensures ok { OnOk result
            (self.new ≡ (self.old.0, delete_object_in self.old.1 (term row.now))) }
        ensures err { OnErr result (self.new ≡ self.old) }
    {
        let key = copy_of_key(alloc, row)?;
        let left = self.others_at(alloc, &key, row)?;
        let size = self.size - self.count_at(&key) + left.len();
        if left.len() == 0 {
            self.records.remove(alloc, &key)?;
            self.size = size;
            return Ok(());
        }
        self.records.insert(alloc, key, left)?;
        self.size = size;
        Ok(())
    }
}

// The entry under this key. No contract of a map says that an entry found at a key has that key itself.
fn entry_at(
    alloc: Global,
    entry: &Entry<Term, Records>,
    key: &Term,
) -> Result<Entry<Term, Records>, AllocError>
    ensures key { IfOk result (λ found. term found.0 ≡ term key.now) }
    ensures records { IfOk result (λ found. found.1 ≡ entry.now.1) }
{
    let (own, records) = entry.pair();
    if own == key {
        return entry.try_clone();
    }
    Entry::new(alloc, (key.try_clone(alloc)?, records.try_clone(alloc)?))
}

// Puts the entry at its key, and returns the former one: one search for both.
fn replace(
    by_key: &mut Map<Term, Records>,
    alloc: Global,
    entry: Entry<Term, Records>,
) -> Result<Option<Entry<Term, Records>>, AllocError>
    requires { IsInOrder by_key.old }
    ensures ok { OnOk result (by_key.new ≡ insert_entry term_cmp entry by_key.old) }
    ensures former { IfOk result
        (λ former. records_of former ≡ at (joined by_key.old) (term entry.0)) }
    ensures keyed { IfOk result (λ former. IfSome former (HasRecordsOf (term entry.0))) }
    ensures err { OnErr result (by_key.new ≡ by_key.old) }
{
    by_key.replace_entry(alloc, entry)
}

fn count_of(entry: &Option<Entry<Term, Records>>) -> usize
    ensures { result ≡ length (records_of entry.now) }
{
    match entry {
        Some(entry) => entry.pair().1.len(),
        None => 0,
    }
}

fn one_more(size: usize) -> Result<usize, AllocError>
    ensures { IfOk result (λ more. more ≡ size + 1) }
{
    sum_of(size, 1)
}

// No memory holds as many records as a size can't count.
fn sum_of(size: usize, more: usize) -> Result<usize, AllocError>
    ensures { IfOk result (λ sum. sum ≡ size + more) }
{
    size.checked_add(more).ok_or(AllocError)
}
