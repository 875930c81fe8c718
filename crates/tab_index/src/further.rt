//! The number of records of each key and value after the first.

ghost use Rattle.std.specs.Prelude.{◌≡◌, ◌<◌, ◌+◌, ◌↔◌, [], IfOk, OnOk, IsTrue};
ghost use Rattle.tab_term.specs.Order.{term_cmp};
ghost use Rattle.tab_term.specs.View.{term};
ghost use Rattle.tab_map.specs.Entries.{lookup, Ascends};
ghost use Rattle.tab_index.specs.FurtherOf.{count_of, counts_in, further_of, HasCount, IsRaised, IsLowered, IsForgotten};

use std::alloc::{AllocError, Global};
use tab_map::Map;
use tab_term::Term;

/// The number of further records of a key that have a value, after the first that has it. A key none of whose records
/// share a value has no entry, so a set's index keeps nothing here.
pub struct Further {
    by_key: Map<Term, Map<Term, u64>>,
}

// A derived Drop would be expanded, field by field, at each exit of each caller.
impl Drop for Further {
    fn drop(self) {
        let Further { by_key } = self;
        drop(by_key);
    }
}

impl Further {
    /// No further records. Takes no memory.
    pub fn new() -> Further
        ensures { result.by_key ≡ [] }
    {
        Further { by_key: Map::new() }
    }

    /// The same counts, in constant time.
    pub fn share(&self) -> Result<Further, AllocError>
        ensures { IfOk result (λ further. further ≡ self.now) }
    {
        Ok(Further {
            by_key: self.by_key.share()?,
        })
    }

    /// Counts one further record of the key with the value.
    pub fn raise(&mut self, alloc: Global, value: &Term, key: &Term) -> Result<(), AllocError>
        ensures { OnOk result
            (IsRaised self.old.by_key self.new.by_key (term value.now) (term key.now)) }
    {
        let counts = self.counts_at(key)?;
        let count = one_more(count_in(&counts, value))?;
        let raised = with_count(alloc, &counts, value, count)?;
        self.by_key.insert(alloc, key.try_clone(alloc)?, raised)
    }

    // The counts of the key's values.
    fn counts_at(&self, key: &Term) -> Result<Map<Term, u64>, AllocError>
        ensures counts { IfOk result
            (λ counts. counts ≡ counts_in (lookup term_cmp key.now self.now.by_key)) }
        ensures ascends { Ascends term_cmp self.now.by_key }
    {
        match self.by_key.get(key) {
            Some(counts) => counts.share(),
            None => Ok(Map::new()),
        }
    }

    /// Counts one further record less, and returns whether there was one.
    pub fn lower(&mut self, alloc: Global, value: &Term, key: &Term) -> Result<bool, AllocError>
        ensures lowered { OnOk result
            (IsLowered self.old.by_key self.new.by_key (term value.now) (term key.now)) }
        ensures further { IfOk result
            (λ found. IsTrue found ↔ (0 < further_of self.old.by_key value.now key.now)) }
    {
        let Some(counts) = self.by_key.get(key) else {
            return Ok(false);
        };
        let count = count_in(counts, value);
        if count == 0 {
            return Ok(false);
        }
        let left = with_count(alloc, counts, value, count - 1)?;
        if left.is_empty() {
            self.by_key.remove(alloc, key)?;
            return Ok(true);
        }
        self.by_key.insert(alloc, key.try_clone(alloc)?, left)?;
        Ok(true)
    }

    /// Takes out all counts of the key.
    pub fn forget(&mut self, alloc: Global, key: &Term) -> Result<(), AllocError>
        ensures { OnOk result (IsForgotten self.old.by_key self.new.by_key (term key.now)) }
    {
        if self.by_key.contains_key(key) {
            return self.by_key.remove(alloc, key);
        }
        Ok(())
    }
}

// The count at the value, 0 if there is none.
fn count_in(counts: &Map<Term, u64>, value: &Term) -> u64
    ensures count { result ≡ count_of (lookup term_cmp value.now counts.now) }
    ensures ascends { Ascends term_cmp counts.now }
{
    match counts.get(value) {
        Some(count) => *count,
        None => 0,
    }
}

// The counts with this one at the value. A count of 0 has no entry.
fn with_count(
    alloc: Global,
    counts: &Map<Term, u64>,
    value: &Term,
    count: u64,
) -> Result<Map<Term, u64>, AllocError>
    requires { Ascends term_cmp counts.now }
    ensures { IfOk result (λ all. HasCount counts.now all value.now count) }
{
    if count == 0 {
        return counts.removed(alloc, value);
    }
    counts.inserted(alloc, value.try_clone(alloc)?, count)
}

// No memory holds as many records as a count can't count.
fn one_more(count: u64) -> Result<u64, AllocError>
    ensures { IfOk result (λ more. more ≡ count + 1) }
{
    count.checked_add(1).ok_or(AllocError)
}
