//! The entries, oldest first, over their base.

ghost use Rattle.std.specs.Prelude.{◌≡◌, ◌≤◌, ◌<◌, ◌↔◌, ◌++◌, ◌∷◌, [], IfOk, IfErr, OnOk, OnErr, IsOk, IsTrue, IsFalse, length, slice_get};
ghost use Rattle.std.specs.Option.{option_copied};
ghost use Rattle.std.specs.Bool.{Decides};
ghost use Rattle.tab_model.specs.History.{empty as empty_base, IsHistory};
ghost use Rattle.tab_journal.specs.Journals.{fold_oldest as fold_oldest_of, forget as forget_in, is_full, weight_of as weight_of_entry};

use crate::audit::is_history;
use crate::base::Base;
use crate::bytes::bytes_of;
use circular_buffer::HeapCircularBuffer;
use std::alloc::{AllocError, Global};
use std::marker::Model;
use std::sync::Wait;
use tab_model::Entry;
use tab_tables::{BareCatalog, Catalog};

/// The weight of its entries at which a journal is full, whatever its limit of entries is. A move keeps its operation
/// and its reply, which is many times what a client has to send for it.
const FULL_WEIGHT: usize = 131_072;

/// The weight of a command on a table: as much as a transaction of most moves, since it keeps its options. So by weight a step
/// folds at most one command. By bytes it may fold several.
const COMMAND_WEIGHT: usize = 2_000;

/// An entry that was folded, and the base's tables before it if it is a schema command. A caller that holds a lock can drop them
/// after it: that may take long.
pub struct Folded {
    pub entry: Option<Entry>,
    pub tables: Option<BareCatalog>,
}

// A derived Drop would be expanded, field by field, at each exit of each caller.
impl Drop for Folded {
    fn drop(self) {
        let Folded { entry, tables } = self;
        drop(entry);
        drop(tables);
    }
}

/// The entries that are not folded yet, oldest first, with their weight, their bytes and their base.
#[derive(Drop)]
pub struct Journal {
    base: Base,
    entries: HeapCircularBuffer<Entry>,
    weight: usize,
    bytes: u64,
    most_bytes: u32,
}

impl Model for Journal {
    ghost use Rattle.std.specs.Prelude.{◌≡◌, ◌≤◌, ◌+◌, length};
    ghost use Rattle.std.specs.Coded.{codes};
    ghost use Rattle.tab_term.specs.Code.{term_code, terms_code, pairs_code};
    ghost use Rattle.tab_journal.specs.Journals.{JournalView, full_weight, weight_in, bytes_in};

    ghost Value = { JournalView };

    ghost coded = { Prim.hlevel (codes, term_code, terms_code, pairs_code) };

    ghost view = { λ a.
        record {
          base = a.base;
          entries = a.entries.items;
          limit = a.entries.capacity;
          most_bytes = a.most_bytes;
        } };

    ghost invariant = { λ a. (length a.entries.items ≤ a.entries.capacity)
        × (a.weight ≡ weight_in a.entries.items) × (a.weight ≤ full_weight + full_weight)
        × (a.bytes ≡ bytes_in a.most_bytes a.entries.items)
        × (a.bytes ≤ a.most_bytes + a.most_bytes) };
}

impl Journal {
    /// No entries yet, from no tables; at most `limit` of them at a time, and none more at `most_bytes` or more.
    pub fn with_limit(alloc: Global, limit: usize, most_bytes: u32) -> Result<Journal, AllocError>
        requires limit { 1 ≤ limit }
        requires bytes { 1 ≤ most_bytes }
        ensures { IfOk result
            (λ journal. journal ≡ record {
              base = empty_base;
              entries = [];
              limit = limit;
              most_bytes = most_bytes;
            }) }
    {
        Ok(Journal {
            base: Base::empty(alloc),
            entries: HeapCircularBuffer::with_capacity(alloc, limit)?,
            weight: 0,
            bytes: 0,
            most_bytes,
        })
    }

    /// Returns whether it has as many entries as its limit allows, or their weight or their bytes make it full.
    pub fn full(&self) -> bool
        ensures { result ≡ is_full self.now }
    {
        self.entries.is_full()
            || self.weight >= FULL_WEIGHT
            || self.bytes >= u64::from(self.most_bytes)
    }

    /// Appends an entry, or returns it. Takes no memory.
    pub fn try_push(&mut self, entry: Entry) -> Result<(), Entry>
        ensures full { IsOk result ↔ IsFalse (is_full self.old) }
        ensures ok { OnOk result
            (self.new ≡ record self.old { entries = self.old.entries ++ entry ∷ [] }) }
        ensures err { IfErr result (λ back. (back ≡ entry) × (self.new ≡ self.old)) }
    {
        if self.full() {
            return Err(entry);
        }
        let weight = weight_of(&entry);
        let bytes = bytes_of(&entry, self.most_bytes);
        self.entries.try_push_back(entry)?;
        self.weight += weight;
        self.bytes += bytes;
        Ok(())
    }

    /// The number of the journal's entries; at most its limit.
    pub fn len(&self) -> usize
        ensures { result ≡ length self.now.entries }
    {
        self.entries.len()
    }

    /// Returns whether every entry is folded into the base.
    pub fn is_empty(&self) -> bool
        ensures { IsTrue result ↔ (self.now.entries ≡ []) }
    {
        self.entries.is_empty()
    }

    /// An entry by its place; the oldest has place 0.
    pub fn entry(&self, place: usize) -> Option<&Entry>
        ensures { option_copied result ≡ slice_get self.now.entries place }
    {
        self.entries.get(place)
    }

    /// The base of the entries.
    pub fn base(&self) -> &Base
        ensures { result.now ≡ self.now.base }
    {
        &self.base
    }

    /// True exactly if the entries are a legal log from this base that ends in these tables. Each transaction is run
    /// again and each of its replies compared, so it takes as long as the transactions themselves.
    pub fn audit(&self, alloc: Global, base: &Base, tables: &Catalog) -> Result<bool, AllocError>
        ensures { IfOk result (λ is. Decides is (IsHistory base.now self.now.entries tables.now)) }
    {
        is_history(alloc, base, &self.entries, tables)
    }

    /// Folds the oldest entry into the base. For one that subscribes the caller states whether its session is still
    /// joined. Records that are in these tables as the entry wrote them are shared with them and not copied. Returns what is no
    /// longer needed.
    pub fn fold_oldest<R: Wait>(
        &mut self,
        rt: &R,
        alloc: Global,
        joined: bool,
        tables: &Catalog,
    ) -> Result<Folded, AllocError>
        requires { 0 < length self.old.entries }
        ensures ok { OnOk result (self.new ≡ fold_oldest_of joined self.old) }
        ensures err { OnErr result (self.new ≡ self.old) }
    {
        let tables = match self.entries.front() {
            Some(entry) => self.base.fold(rt, alloc, joined, entry, tables)?,
            None => None,
        };
        let entry = self.entries.pop_front();
        if let Some(entry) = &entry {
            self.weight -= weight_of(entry);
            self.bytes -= bytes_of(entry, self.most_bytes);
        }
        Ok(Folded { entry, tables })
    }

    /// Drops the subscriptions of a session that has left from the base. Takes no memory.
    pub fn forget(&mut self, session: u32)
        ensures { self.new ≡ forget_in self.old session }
    {
        self.base.forget(session);
    }
}

/// The weight of an entry: the moves of a commit, at least one, and at most what makes a journal full.
fn weight_of(entry: &Entry) -> usize
    ensures { result ≡ weight_of_entry entry.now }
{
    match entry {
        Entry::Committed { moves, .. } => moves.items.len().min(FULL_WEIGHT).max(1),
        Entry::Changed(..) => COMMAND_WEIGHT,
        Entry::Subscribed { .. } | Entry::Unsubscribed(..) => 1,
    }
}
