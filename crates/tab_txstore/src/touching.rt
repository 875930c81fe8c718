//! Changes of an overlay, in place if no saved level shares it.
ghost use Rattle.std.specs.Prelude.{◌≡◌, [], IfOk, IfSome, IsSome, MatchOption, OnOk, OnErr};
ghost use Rattle.tab_term.specs.Order.{bytes_cmp, term_cmp};
ghost use Rattle.std.specs.Option.{option_copied};
ghost use Rattle.tab_term.specs.View.{term, terms};
ghost use Rattle.tab_model.specs.Names.{plain_terms, terms_list};
ghost use Rattle.tab_map.specs.Entries.{lookup, insert_entry};
ghost use Rattle.tab_map.specs.Revised.{revised_at};
ghost use Rattle.tab_model.specs.declared.data.Change.TheVariants as change_of;
ghost use Rattle.tab_model.specs.declared.data.Kind.TheVariants as kind_of;
ghost use Rattle.tab_records.specs.Forms.{with_one};
ghost use Rattle.tab_txstore.specs.Overlays.{touched, left as left_of, seen_at, touch as touch_of};
ghost use Rattle.tab_txstore.specs.Kept.{Appends};

use crate::left::left;
use std::alloc::{AllocError, Global};
use tab_index::IndexedTable;
use tab_map::{Entry, Map, Revise};
use tab_model::{Change, Kind, OnlyRecord};
use tab_records::Records;
use tab_rows::{Append, Form, Update, key_of};
use tab_term::{Atom, Term};

/// A new entry at its key.
#[derive(Drop)]
struct PutAt {
    entry: Entry<Term, Records>,
}

impl Revise<Map<Term, Records>> for PutAt {
    ghost becomes = { λ a keys. insert_entry term_cmp a.entry keys };

    fn revise(self, alloc: Global, keys: &mut Map<Term, Records>) -> Result<(), AllocError> {
        keys.insert_entry(alloc, self.entry)
    }

    fn revised(
        self,
        alloc: Global,
        keys: &Map<Term, Records>,
    ) -> Result<Map<Term, Records>, AllocError> {
        let mut keys = keys.share()?;
        keys.insert_entry(alloc, self.entry)?;
        Ok(keys)
    }
}

/// One more record at a key.
#[derive(Drop)]
struct AppendAt {
    key: Term,
    row: Term,
}

impl Revise<Map<Term, Records>> for AppendAt {
    ghost becomes = { λ a keys.
        revised_at term_cmp (λ records. with_one records (term a.row)) a.key keys };

    fn revise(self, alloc: Global, keys: &mut Map<Term, Records>) -> Result<(), AllocError> {
        let AppendAt { key, row } = self;
        let append = Append {
            row: &row,
            lender: None,
        };
        keys.revise(alloc, key, append)
    }

    fn revised(
        self,
        alloc: Global,
        keys: &Map<Term, Records>,
    ) -> Result<Map<Term, Records>, AllocError> {
        let mut keys = keys.share()?;
        let AppendAt { key, row } = self;
        let append = Append {
            row: &row,
            lender: None,
        };
        keys.revise(alloc, key, append)?;
        Ok(keys)
    }
}

/// A key of a committed table with its records. None if it has none, and the transaction did not touch it.
pub fn seen_entry<'a>(
    overlay: &'a Map<Atom, Map<Term, Records>>,
    committed: &'a IndexedTable,
    key: &Term,
) -> Option<&'a Entry<Term, Records>>
    ensures { MatchOption result
        (seen_at (touched overlay.now committed.now.def.name) committed.now.rows (term key.now)
        ≡ []) (λ e. e.now.1
        ≡ plain_terms
        (seen_at (touched overlay.now committed.now.def.name) committed.now.rows
        (term key.now))) }
{
    match overlay.get(&committed.def().name) {
        Some(keys) => match keys.get_entry(key) {
            Some(entry) => Some(entry),
            None => committed.entry(key),
        },
        None => committed.entry(key),
    }
}

/// Makes a change over a committed table.
pub fn touch(
    overlay: &mut Map<Atom, Map<Term, Records>>,
    alloc: Global,
    committed: &IndexedTable,
    update: &Update,
) -> Result<(), AllocError>
    ensures ok { OnOk result (overlay.new ≡ touch_of committed.now overlay.old update.now) }
    ensures err { OnErr result (overlay.new ≡ overlay.old) }
{
    match update.form() {
        Form::Change(change) => touch_change(overlay, alloc, committed, change),
        Form::Only(only) => match committed.def().kind {
            Kind::Set => put_only(overlay, alloc, committed, only),
            Kind::Bag => touch_change(overlay, alloc, committed, &update.to_change(alloc)?),
        },
    }
}

fn touch_change(
    overlay: &mut Map<Atom, Map<Term, Records>>,
    alloc: Global,
    committed: &IndexedTable,
    change: &Change,
) -> Result<(), AllocError>
    ensures ok { OnOk result (overlay.new ≡ touch_of committed.now overlay.old change.now) }
    ensures err { OnErr result (overlay.new ≡ overlay.old) }
{
    let key = key_of(alloc, change)?;
    let name = committed.def().name.try_clone(alloc)?;
    if let Some(row) = appended(overlay, committed, &key, change) {
        let row = row.try_clone(alloc)?;
        append(overlay, alloc, name, key, row)?;
        return Ok(());
    }
    let records = left_at(overlay, alloc, committed, &key, change)?;
    let entry = Entry::new(alloc, (key, records))?;
    put(overlay, alloc, name, entry)?;
    Ok(())
}

// Writes a record to a committed set: its entry replaces that of its key, with no search in the table.
fn put_only(
    overlay: &mut Map<Atom, Map<Term, Records>>,
    alloc: Global,
    committed: &IndexedTable,
    only: &OnlyRecord,
) -> Result<(), AllocError>
    requires kind { committed.now.def.kind ≡ kind_of.Set }
    ensures ok { OnOk result
        (overlay.new ≡ touch_of committed.now overlay.old (change_of.Write only.now)) }
    ensures err { OnErr result (overlay.new ≡ overlay.old) }
{
    let name = committed.def().name.try_clone(alloc)?;
    let entry = only.to_entry()?;
    put(overlay, alloc, name, entry)?;
    Ok(())
}

// The records of a key after a change.
fn left_at(
    overlay: &Map<Atom, Map<Term, Records>>,
    alloc: Global,
    committed: &IndexedTable,
    key: &Term,
    change: &Change,
) -> Result<Records, AllocError>
    ensures { IfOk result
        (λ after. after
        ≡ plain_terms
        (left_of committed.now.def.kind
        (terms_list (plain_terms
        (seen_at (touched overlay.now committed.now.def.name) committed.now.rows
        (term key.now)))) change.now)) }
{
    let kind = committed.def().kind;
    match seen_entry(overlay, committed, key) {
        Some(entry) => left(alloc, kind, &entry.pair().1, change),
        None => left(alloc, kind, &Records::new(), change),
    }
}

// The record of a write that a bag puts after others, which were touched before.
fn appended<'a>(
    overlay: &Map<Atom, Map<Term, Records>>,
    committed: &IndexedTable,
    key: &Term,
    change: &'a Change,
) -> Option<&'a Term>
    ensures { IfSome (option_copied result) (Appends committed.now overlay.now key.now change.now) }
{
    let Change::Write(row) = change else {
        return None;
    };
    match committed.def().kind {
        Kind::Set => None,
        Kind::Bag => {
            let records = overlay.get(&committed.def().name)?.get(key)?;
            if records.contains(row) {
                return None;
            }
            Some(row)
        }
    }
}

// Puts the entry at its key of the table.
fn put(
    overlay: &mut Map<Atom, Map<Term, Records>>,
    alloc: Global,
    table: Atom,
    entry: Entry<Term, Records>,
) -> Result<(), AllocError>
    ensures ok { OnOk result
        (overlay.new ≡ insert_entry bytes_cmp
        (table, insert_entry term_cmp entry (touched overlay.old table)) overlay.old) }
    ensures err { OnErr result (overlay.new ≡ overlay.old) }
{
    if overlay.contains_key(&table) {
        overlay.revise(alloc, table, PutAt { entry })?;
        return Ok(());
    }
    let mut keys = Map::new();
    keys.insert_entry(alloc, entry)?;
    overlay.insert(alloc, table, keys)?;
    Ok(())
}

// Puts the record after those at the key of the table, which was touched before.
fn append(
    overlay: &mut Map<Atom, Map<Term, Records>>,
    alloc: Global,
    table: Atom,
    key: Term,
    row: Term,
) -> Result<(), AllocError>
    requires { IsSome (lookup bytes_cmp table overlay.old) }
    ensures ok { OnOk result
        (overlay.new ≡ insert_entry bytes_cmp (
          table,
          revised_at term_cmp (λ records. with_one records (term row)) key
              (touched overlay.old table),
        ) overlay.old) }
    ensures err { OnErr result (overlay.new ≡ overlay.old) }
{
    overlay.revise(alloc, table, AppendAt { key, row })
}
