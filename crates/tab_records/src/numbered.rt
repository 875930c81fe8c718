//! Several records of a key, by the numbers of their writes.

ghost use Rattle.std.specs.Prelude.{◌≡◌, ◌≢◌, [], ◌∷◌, ◌++◌, IfOk, IfSome, OnOk, OnErr, MatchOption, length, not, IsFalse};
ghost use Rattle.std.specs.List.{filter, list_any};
ghost use Rattle.std.specs.Option.{option_copied};
ghost use Rattle.tab_term.specs.Same.{same};
ghost use Rattle.tab_term.specs.View.{term};
ghost use Rattle.tab_records.specs.Numbers.{records_in, IsEntryOf, IsNumbered};

use std::alloc::{AllocError, Global};
use std::marker::Model;
use std::sync::Arc;
use tab_map::{Entry, Map};
use tab_term::Term;

/// Records by the numbers of their writes, which ascend. No two are equal, and of each its number is found.
pub struct Numbered {
    // A record stands in the entry of its number, which `numbers` has too.
    by_number: Map<u64, Entry<Term, u64>>,
    // None where there are no records. Behind a count, so that a key's one record takes no more room than it has to.
    numbers: Option<Arc<Numbers, Global>>,
}

/// The number of each record.
#[derive(Drop)]
pub struct Numbers {
    by_record: Map<Term, u64>,
    // Above all numbers that are taken.
    next: u64,
    count: usize,
}

impl Model for Numbered {
    ghost use Rattle.std.specs.Prelude.{◌≡◌, List, [], MatchOption};
    ghost use Rattle.std.specs.Coded.{codes};
    ghost use Rattle.tab_term.specs.Code.{term_code};
    ghost use Rattle.tab_term.specs.Data.{PlainTerm};
    ghost use Rattle.tab_records.specs.Numbers.{records_in, IsNumbered};

    ghost Value = { List PlainTerm };

    ghost coded = { Prim.hlevel (codes, term_code) };

    ghost view = { λ a. records_in a.by_number };

    ghost invariant = { λ a.
        MatchOption a.numbers (a.by_number ≡ [])
        (λ n. IsNumbered a.by_number n.value.by_record n.value.next n.value.count) };
}

// A derived drop would be expanded, field by field, at each exit of each caller.
impl Drop for Numbered {
    fn drop(self) {
        let Numbered { by_number, numbers } = self;
        drop((by_number, numbers));
    }
}

impl Numbered {
    /// No records. Takes no memory.
    pub fn new() -> Numbered
        ensures { result ≡ [] }
    {
        Numbered {
            by_number: Map::new(),
            numbers: None,
        }
    }

    /// The same records, in constant time, without memory.
    pub fn share(&self) -> Result<Numbered, AllocError>
        ensures { IfOk result (λ all. all ≡ self.now) }
    {
        let by_number = self.by_number.share()?;
        let numbers = match &self.numbers {
            Some(numbers) => Some(Arc::try_clone(numbers)?),
            None => None,
        };
        Ok(Numbered { by_number, numbers })
    }

    /// How many records there are.
    pub fn len(&self) -> usize
        ensures { result ≡ length self.now }
    {
        match &self.numbers {
            Some(numbers) => numbers.count,
            None => 0,
        }
    }

    /// The record, where there is one alone. The count tells, so of several none is looked up. It is a call,
    /// so that `Records::single` is none where a record stands by itself.
    #[inline(never)]
    pub fn single(&self) -> Option<&Term>
        ensures { MatchOption result (length self.now ≢ 1) (λ row. self.now ≡ term row.now ∷ []) }
    {
        if self.len() != 1 {
            return None;
        }
        match self.by_number.first() {
            Some(entry) => Some(&entry.pair().1.pair().0),
            None => None,
        }
    }

    /// The records by their numbers, each in an entry that may be shared.
    pub fn by_number(&self) -> &Map<u64, Entry<Term, u64>>
        ensures { records_in result.now ≡ self.now }
    {
        &self.by_number
    }

    /// Whether an equal record is among them, in O(log n).
    pub fn contains(&self, row: &Term) -> bool
        ensures { result ≡ list_any (same (term row.now)) self.now }
    {
        match &self.numbers {
            Some(numbers) => numbers.by_record.contains_key(row),
            None => false,
        }
    }

    /// One record more, behind the others, in O(log n). A list that shares them stays as it is. Where a lender has the record
    /// by the same number, its entries are shared in place of a copy.
    pub fn push(
        &mut self,
        alloc: Global,
        row: &Term,
        lender: Option<&Numbered>,
    ) -> Result<(), AllocError>
        requires { IsFalse (list_any (same (term row.now)) self.old) }
        ensures ok { OnOk result (self.new ≡ self.old ++ term row.now ∷ []) }
        ensures err { OnErr result (self.new ≡ self.old) }
    {
        let Numbers {
            mut by_record,
            next,
            count,
        } = numbers_of(&self.by_number, &self.numbers)?;
        let entry = entry_of(alloc, row, next, lender)?;
        by_record.insert_entry(alloc, entry.pair().1.try_clone()?)?;
        let more = Numbers {
            by_record,
            next: next.checked_add(1).ok_or(AllocError)?,
            count: count.checked_add(1).ok_or(AllocError)?,
        };
        let more = Arc::new(alloc, more)?;
        self.by_number.insert_entry(alloc, entry)?;
        self.numbers = Some(more);
        Ok(())
    }

    /// The other records, which are shared with these, in O(log n).
    pub fn without(&self, alloc: Global, row: &Term) -> Result<Numbered, AllocError>
        ensures { IfOk result (λ left. left ≡ filter (λ x. not (same (term row.now) x)) self.now) }
    {
        let Some(numbers) = &self.numbers else {
            return self.share();
        };
        let numbers: &Numbers = numbers;
        let Some(number) = numbers.by_record.get(row) else {
            return self.share();
        };
        let by_number = self.by_number.removed(alloc, number)?;
        let less = Numbers {
            by_record: numbers.by_record.removed(alloc, row)?,
            next: numbers.next,
            count: numbers.count - 1,
        };
        Ok(Numbered {
            by_number,
            numbers: Some(Arc::new(alloc, less)?),
        })
    }
}

/// The record's entry by this number: the lender's, where it has it, or a new one.
fn entry_of(
    alloc: Global,
    row: &Term,
    number: u64,
    lender: Option<&Numbered>,
) -> Result<Entry<u64, Entry<Term, u64>>, AllocError>
    ensures { IfOk result (IsEntryOf (term row.now) number) }
{
    if let Some(lender) = lender {
        if let Some(entry) = entry_with(lender, row, number) {
            return entry.try_clone();
        }
    }
    let entry = Entry::new(alloc, (row.try_clone(alloc)?, number))?;
    Entry::new(alloc, (number, entry))
}

/// The record's entry by this number, where it is among these.
fn entry_with<'a>(
    records: &'a Numbered,
    row: &Term,
    number: u64,
) -> Option<&'a Entry<u64, Entry<Term, u64>>>
    ensures { IfSome (option_copied result) (IsEntryOf (term row.now) number) }
{
    let entry = records.by_number.get_entry(&number)?;
    let (place, held) = entry.pair();
    let (record, own) = held.pair();
    if *place == number && *own == number && record == row {
        return Some(entry);
    }
    None
}

/// The number of each of these records, beside those that are kept.
fn numbers_of(
    records: &Map<u64, Entry<Term, u64>>,
    numbers: &Option<Arc<Numbers, Global>>,
) -> Result<Numbers, AllocError>
    requires { MatchOption numbers.now (records.now ≡ [])
        (λ n. IsNumbered records.now n.value.by_record n.value.next n.value.count) }
    ensures { IfOk result (λ n. IsNumbered records.now n.by_record n.next n.count) }
{
    match numbers {
        Some(numbers) => Ok(Numbers {
            by_record: numbers.by_record.share()?,
            next: numbers.next,
            count: numbers.count,
        }),
        None => Ok(Numbers {
            by_record: Map::new(),
            next: 0,
            count: 0,
        }),
    }
}
