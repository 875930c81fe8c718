//! What an index keeps, all at once: one sort of the records' values, and one walk over them in their order.

ghost use Rattle.std.specs.Prelude.{◌≡◌, [], ◌++◌, map, IfOk, OnOk};
ghost use Rattle.std.specs.Ordering.{is_lt};
ghost use Rattle.std.specs.List.Sorted.{IsPermutation, IsSortedBy};
ghost use Rattle.tab_term.specs.Data.{list as list_of, none as no_terms};
ghost use Rattle.tab_term.specs.Order.{term_cmp};
ghost use Rattle.tab_term.specs.View.{term};
ghost use Rattle.tab_map.specs.Entries.{Ascends};
ghost use Rattle.tab_index.specs.IndexOf.{IsIndexOf};
ghost use Rattle.tab_index.specs.FurtherOf.{IsAdded, IsFurtherOf};
ghost use Rattle.tab_index.specs.Pairs.{pair_of, value_cmp, HasPairs, CountsPairs, EndsUpTo, IsNext};

use crate::element::{element, key, nil};
use crate::further::Further;
use std::alloc::{AllocError, Global};
use std::cmp::Ordering;
use std::marker::Model;
use tab_key::Abbreviate;
use tab_map::{Map, Set};
use tab_records::Iter;
use tab_rows::Rows;
use tab_term::Term;

/// A record's value at the index's position, and its key.
#[derive(Drop)]
struct Pair<'a> {
    // The value's, so that most comparisons follow no pointer.
    number: u64,
    value: &'a Term,
    key: &'a Term,
}

impl<'a> Model for Pair<'a> {
    ghost use Rattle.std.specs.Prelude.{◌≡◌};
    ghost use Rattle.std.specs.Coded.{codes};
    ghost use Rattle.tab_term.specs.Abbreviations.{number as number_of};
    ghost use Rattle.tab_term.specs.Code.{term_code};
    ghost use Rattle.tab_term.specs.View.{term};
    ghost use Rattle.tab_index.specs.Pairs.{Pair as PairOf};

    ghost Value = { PairOf };

    ghost coded = { Prim.hlevel (codes, term_code) };

    ghost view = { λ a. (term a.value.now, term a.key.now) };

    ghost invariant = { λ a. a.number ≡ number_of (term a.value.now) };
}

impl<'a> Pair<'a> {
    fn new(value: &'a Term, key: &'a Term) -> Pair<'a>
        ensures { result ≡ (term value.now, term key.now) }
    {
        Pair {
            number: value.abbreviated(),
            value,
            key,
        }
    }

    /// By the values, which are compared only if their numbers tie.
    fn order(&self, other: &Pair<'_>) -> Ordering
        ensures { result ≡ value_cmp self.now other.now }
    {
        if self.number < other.number {
            Ordering::Less
        } else if other.number < self.number {
            Ordering::Greater
        } else {
            self.value.cmp(other.value)
        }
    }
}

/// The entries of an index of these records at the position, and the counts of the further records.
pub fn entries_of(
    alloc: Global,
    position: u64,
    rows: &Rows,
) -> Result<(Map<Term, Set<Term>>, Further), AllocError>
    ensures index { IfOk result (λ kept. IsIndexOf rows.now.1 position kept.0) }
    ensures further { IfOk result (λ kept. IsFurtherOf rows.now.1 position kept.1.by_key) }
{
    let nil = nil(alloc);
    let mut pairs = pairs_of(alloc, position, rows, &nil)?;
    sort_pairs(&mut pairs)?;
    let mut further = Further::new();
    let entries = grouped(alloc, pairs.as_slice(), &mut further)?;
    Ok((Map::from_sorted(alloc, entries)?, further))
}

// The pair of each record, in the order of the records.
fn pairs_of<'a>(
    alloc: Global,
    position: u64,
    rows: &'a Rows,
    nil: &'a Term,
) -> Result<Vec<Pair<'a>>, AllocError>
    requires { term nil.now ≡ list_of no_terms }
    ensures { IfOk result (λ pairs. pairs.items ≡ map (pair_of position) rows.now.1) }
{
    let mut pairs = Vec::with_capacity(alloc, rows.size())?;
    for entry in rows.walk() {
        add_pairs(&mut pairs, position, entry.pair().1.iter(), nil)?;
    }
    Ok(pairs)
}

fn add_pairs<'a>(
    pairs: &mut Vec<Pair<'a>>,
    position: u64,
    records: Iter<'a>,
    nil: &'a Term,
) -> Result<(), AllocError>
    requires { term nil.now ≡ list_of no_terms }
    ensures { OnOk result
        (pairs.new.items ≡ pairs.old.items ++ map (pair_of position) records.entry) }
{
    for row in records {
        pairs.push(Pair::new(element(row, position, nil), key(row, nil)))?;
    }
    Ok(())
}

// By the values. The sort is stable, so the keys of a value keep their order, in which a set takes them the soonest.
fn sort_pairs(pairs: &mut Vec<Pair<'_>>) -> Result<(), AllocError>
    ensures permutation { IsPermutation pairs.old.items pairs.new.items }
    ensures sorted { OnOk result
        (IsSortedBy (λ a b. is_lt (value_cmp a b)) pairs.new.items) }
{
    pairs.sort_by(|first, second| first.order(second))
}

// An entry for each value, in the order of the values. Counts the pairs that come again.
fn grouped(
    alloc: Global,
    pairs: &[Pair<'_>],
    further: &mut Further,
) -> Result<Vec<(Term, Set<Term>)>, AllocError>
    requires sorted { IsSortedBy (λ a b. is_lt (value_cmp a b)) pairs.now }
    requires none { further.old.by_key ≡ [] }
    ensures ascends { IfOk result (λ entries. Ascends term_cmp entries.items) }
    ensures pairs { IfOk result (λ entries. HasPairs pairs.now entries.items) }
    ensures further { OnOk result (CountsPairs pairs.now further.new.by_key) }
{
    let mut entries = Vec::new(alloc);
    for pair in pairs {
        add_pair(&mut entries, alloc, pair, further)?;
    }
    Ok(entries)
}

// Adds a pair whose value is not below the last entry's: its key to that entry, or an entry after that. If the key is
// there, it is counted.
fn add_pair(
    entries: &mut Vec<(Term, Set<Term>)>,
    alloc: Global,
    pair: &Pair<'_>,
    further: &mut Further,
) -> Result<(), AllocError>
    requires { EndsUpTo entries.old.items pair.now.0 }
    ensures next { OnOk result (IsNext entries.old.items entries.new.items pair.now) }
    ensures further { OnOk result
        (IsAdded entries.old.items further.old.by_key further.new.by_key pair.now.0 pair.now.1) }
{
    if let Some(last) = entries.last_mut() {
        if last.0 == *pair.value {
            if last.1.contains(pair.key) {
                return further.raise(alloc, pair.value, pair.key);
            }
            return last.1.insert(alloc, pair.key.try_clone(alloc)?);
        }
    }
    let mut keys = Set::new();
    keys.insert(alloc, pair.key.try_clone(alloc)?)?;
    entries.push((pair.value.try_clone(alloc)?, keys))?;
    Ok(())
}
