//! A table as a transaction sees it.
//!
//! There is one list of records that is in order and has at each key what the transaction sees there (`IsSeen`); each view
//! answers from that list. The laws say that it is the table's, after the transaction's moves.

ghost use Rattle.std.specs.Prelude.{◌≡◌, IfOk, List};
ghost use Rattle.tab_term.specs.Data.{PlainTerm, none};
ghost use Rattle.tab_term.specs.View.{term};
ghost use Rattle.tab_model.specs.Names.{plain_terms, terms_list};
ghost use Rattle.tab_model.specs.Tables.{keys as keys_of_rows};
ghost use Rattle.tab_model.specs.WholeTables.{match_object, index_read};
ghost use Rattle.tab_txstore.specs.Merged.{IsSeen};
ghost use Rattle.tab_txstore.specs.Overlays.{touched, seen_at};

use crate::TxStore;
use std::alloc::{AllocError, Global};
use tab_index::{IndexedTable, bound_key, fits};
use tab_lists::{AtKeys, Condition, Scope, SharedTerms};
use tab_map::Entry;
use tab_records::Records;
use tab_term::{Term, Terms};

impl TxStore {
    /// The records at a key of a committed table for the transaction, in the order of insertion. They are shared with
    /// the table, or with the transaction, and take no memory.
    pub fn view_read(
        &self,
        alloc: Global,
        committed: &IndexedTable,
        key: &Term,
    ) -> Result<SharedTerms, AllocError>
        ensures { IfOk result
            (λ records. records
            ≡ plain_terms
            (seen_at (touched self.now.levels.now.overlay committed.now.def.name)
            committed.now.rows (term key.now))) }
    {
        match self.seen_entry(committed, key) {
            Some(entry) => Ok(SharedTerms::from_entry(entry.try_clone()?)),
            None => Ok(no_records(alloc)),
        }
    }

    /// The keys of a committed table as the transaction sees it, in their order. They take no memory.
    pub fn view_keys(&self, committed: &IndexedTable) -> Result<SharedTerms, AllocError>
        ensures { IfOk result
            (λ all. (seen : List PlainTerm)
            → IsSeen (touched self.now.levels.now.overlay committed.now.def.name)
            committed.now.rows seen → all ≡ plain_terms (keys_of_rows seen)) }
    {
        Ok(SharedTerms::from_keys(self.snapshot(committed)?))
    }

    /// The records that fit the pattern, of a committed table as the transaction sees it, in their order. They are
    /// searched for when they are read. If the pattern's key has no `'_'`, no other key is looked at.
    pub fn view_match(
        &self,
        alloc: Global,
        committed: &IndexedTable,
        pattern: &Term,
    ) -> Result<SharedTerms, AllocError>
        ensures { IfOk result
            (λ all. (seen : List PlainTerm)
            → IsSeen (touched self.now.levels.now.overlay committed.now.def.name)
            committed.now.rows seen
            → all ≡ plain_terms (match_object seen (term pattern.now))) }
    {
        if let Some(key) = bound_key(pattern) {
            return self.match_at(alloc, committed, key, pattern);
        }
        let all = Scope::All(self.snapshot(committed)?);
        SharedTerms::from_query(alloc, all, Condition::Matches(pattern.try_clone(alloc)?))
    }

    // The records of a key that fit the pattern.
    fn match_at(
        &self,
        alloc: Global,
        committed: &IndexedTable,
        key: &Term,
        pattern: &Term,
    ) -> Result<SharedTerms, AllocError>
        ensures { IfOk result
            (λ all. all ≡ plain_terms
            (match_object
            (seen_at (touched self.now.levels.now.overlay committed.now.def.name)
            committed.now.rows (term key.now)) (term pattern.now))) }
    {
        match self.seen_entry(committed, key) {
            Some(entry) => match_entry(alloc, entry, pattern),
            None => Ok(no_records(alloc)),
        }
    }

    /// The records that have the value at the position, of a committed table as the transaction sees it, in their
    /// order. They are searched for when they are read. Only keys that the index has with the value, and touched keys,
    /// are looked at; if the position has no index the table is walked.
    pub fn view_index(
        &self,
        alloc: Global,
        committed: &IndexedTable,
        position: u64,
        value: &Term,
    ) -> Result<SharedTerms, AllocError>
        ensures { IfOk result
            (λ all. (seen : List PlainTerm)
            → IsSeen (touched self.now.levels.now.overlay committed.now.def.name)
            committed.now.rows seen
            → all ≡ plain_terms (index_read seen position (term value.now))) }
    {
        let condition = Condition::Has(position, value.try_clone(alloc)?);
        let snapshot = self.snapshot(committed)?;
        match committed.keys_with(alloc, position, value)? {
            Some(keys) => {
                let at = AtKeys { keys, snapshot };
                SharedTerms::from_query(alloc, Scope::Keys(at), condition)
            }
            None => SharedTerms::from_query(alloc, Scope::All(snapshot), condition),
        }
    }
}

fn no_records(alloc: Global) -> SharedTerms
    ensures { result ≡ none }
{
    SharedTerms::from_terms(Terms::from_vec(Vec::new(alloc)))
}

// The records of a key's entry that fit the pattern. A single record is compared at once, so that the pattern is not
// copied.
fn match_entry(
    alloc: Global,
    entry: &Entry<Term, Records>,
    pattern: &Term,
) -> Result<SharedTerms, AllocError>
    ensures { IfOk result
        (λ all. all ≡ plain_terms (match_object (terms_list entry.now.1) (term pattern.now))) }
{
    match entry.pair().1.by_number() {
        None if fits(entry, pattern) => Ok(SharedTerms::from_entry(entry.try_clone()?)),
        None => Ok(no_records(alloc)),
        Some(_) => {
            let key = Scope::Key(entry.try_clone()?);
            SharedTerms::from_query(alloc, key, Condition::Matches(pattern.try_clone(alloc)?))
        }
    }
}
