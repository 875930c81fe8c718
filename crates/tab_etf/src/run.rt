//! The pairs of a map: in the order in which they are read, and then in the order of their keys.

ghost use Rattle.std.specs.Prelude.{◌≡◌, ℕ, ◌++◌, ◌∷◌, [], List, length, Result, Ok, Err, IsTrue, ◌↔◌, OnOk, IfOk, IsPermutation, ◌<◌, slice_index, slice_index_or};
ghost use Rattle.std.specs.List.Sorted.{IsSortedBy};
ghost use Rattle.std.specs.Ordering.{is_lt};
ghost use Rattle.tab_term.specs.declared.term.Term.{Term};
ghost use Rattle.tab_term.specs.Canon.{canon};
ghost use Rattle.tab_term.specs.Data.{PlainPairs, no_pair};
ghost use Rattle.tab_term.specs.View.{term, pairs as pairs_of};
ghost use Rattle.tab_etf.specs.declared.fault.Stop.{Stop};
ghost use Rattle.tab_etf.specs.Reading.{Gives, Fails};
ghost use Rattle.tab_etf.specs.Keyed.{spelling_at, key_order, next_key, earlier, IsFirstTwice, IsOrder, AreRanks, AreRanked, picked};
ghost use Rattle.tab_etf.specs.Runs.{Entry, put_all, first_stop, IsFirstFault, AreNoted, Holds, Ran};

use crate::encoding::append_spelling;
use crate::fault::{Fault, ReadError, Stop};
use crate::leaf::stop;
use std::alloc::{AllocError, Global};
use std::cmp::Ordering;
use tab_term::{Pairs, Term};

/// A key: the start and end of its encoding, the number of bytes left from its tag on, and the number of its pair.
#[derive(Clone, Copy)]
pub struct Key {
    start: usize,
    end: usize,
    left: usize,
    pair: usize,
}

/// The pairs of a map that were read. The keys' encodings are adjacent, in the order of the keys.
///
/// Keys are compared by these, and not as terms: a long list of terms is walked to its end before its first byte is
/// known.
#[derive(Drop)]
pub struct Run {
    pairs: Vec<(Term, Term)>,
    keys: Vec<Key>,
    spelled: Vec<u8>,
}

impl Run {
    /// The count of a map makes no room: places come as pairs are read.
    pub fn new(alloc: Global) -> Run
        ensures { Holds result [] }
    {
        Run {
            pairs: Vec::new(alloc),
            keys: Vec::new(alloc),
            spelled: Vec::new(alloc),
        }
    }

    /// Notes the next key, before its value is read.
    pub fn note(&mut self, key: &Term, left: usize) -> Result<(), AllocError>
        ensures spelled { OnOk result
            (self.new.spelled.items ≡ self.old.spelled.items ++ canon (term key.now)) }
        ensures keys { OnOk result
            (self.new.keys.items
            ≡ self.old.keys.items
            ++ next_key self.old.spelled.items self.new.spelled.items left
            (length self.old.keys.items) ∷ []) }
        ensures pairs { OnOk result (self.new.pairs.items ≡ self.old.pairs.items) }
    {
        let start = self.spelled.len();
        let pair = self.keys.len();
        append_spelling(key, &mut self.spelled)?;
        let end = self.spelled.len();
        self.keys.push(Key {
            start,
            end,
            left,
            pair,
        })?;
        Ok(())
    }

    /// Adds the pair whose key was noted last.
    pub fn push(&mut self, key: Term, value: Term) -> Result<(), AllocError>
        ensures pairs { OnOk result
            (self.new.pairs.items ≡ self.old.pairs.items ++ (key, value) ∷ []) }
        ensures keys { OnOk result (self.new.keys.items ≡ self.old.keys.items) }
        ensures spelled { OnOk result (self.new.spelled.items ≡ self.old.spelled.items) }
    {
        self.pairs.push((key, value))?;
        Ok(())
    }
}

fn spelling<'a>(spelled: &'a [u8], key: &Key) -> &'a [u8]
    ensures { result.now ≡ spelling_at spelled.now key.now }
{
    match spelled.get(key.start..key.end) {
        Some(bytes) => bytes,
        None => &[],
    }
}

/// By their spellings, and equal keys as they were read.
fn compare(spelled: &[u8], first: &Key, second: &Key) -> Ordering
    ensures { result ≡ key_order spelled.now first.now second.now }
{
    let by_spelling = spelling(spelled, first).cmp(spelling(spelled, second));
    by_spelling.then(first.pair.cmp(&second.pair))
}

fn sort_keys(spelled: &[u8], keys: &mut [Key])
    ensures permutation { IsPermutation keys.old keys.new }
    ensures sorted { IsSortedBy (λ k l. is_lt (key_order spelled.now k l)) keys.new }
{
    keys.sort_unstable_by(|first, second| compare(spelled, first, second));
}

fn are_alike(spelled: &[u8], first: &Key, second: &Key) -> bool
    ensures { IsTrue result
        ↔ (spelling_at spelled.now first.now ≡ spelling_at spelled.now second.now) }
{
    spelling(spelled, first) == spelling(spelled, second)
}

/// The one of these that was read first.
fn earlier_of(found: Option<Key>, key: Key) -> Key
    ensures { result ≡ earlier found key }
{
    match found {
        Some(other) if other.pair <= key.pair => other,
        _ => key,
    }
}

/// Returns the first key that was read twice, of these sorted keys.
fn first_twice(spelled: &[u8], keys: &[Key]) -> Option<Key>
    ensures { IsFirstTwice spelled.now keys.now (length keys.now) result }
{
    let mut found = None;
    for i in 1..keys.len() {
        if are_alike(spelled, &keys[i - 1], &keys[i]) {
            found = Some(earlier_of(found, keys[i]));
        }
    }
    found
}

/// The place of each pair, by the order of these keys.
fn ranks_of(alloc: Global, keys: &[Key]) -> Result<Vec<usize>, AllocError>
    requires { IsOrder keys.now (length keys.now) }
    ensures { IfOk result (λ ranks. AreRanks keys.now ranks.items) }
{
    let mut ranks = vec![in alloc; 0; keys.len()]?;
    for (rank, key) in keys.iter().enumerate() {
        ranks[key.pair] = rank;
    }
    Ok(ranks)
}

/// Exchanges the pairs until each is at its rank. Each exchange brings one there.
fn arrange(pairs: &mut [(Term, Term)], ranks: &mut [usize])
    requires len { length ranks.old ≡ length pairs.old }
    requires ranks { AreRanked ranks.old }
    ensures { (sorted : List (Term × Term)) → length sorted ≡ length pairs.old
        → ((k : ℕ) (d : Term × Term) → k < length pairs.old
        → slice_index_or sorted (slice_index ranks.old k) d ≡ slice_index_or pairs.old k d)
        → pairs.new ≡ sorted }
{
    let mut i = 0;
    while i < ranks.len() {
        let rank = ranks[i];
        if rank == i {
            i += 1;
        } else {
            pairs.swap(i, rank);
            ranks.swap(i, rank);
        }
    }
}

/// The pairs in the order of these keys. They are exchanged in place: a second list of them would double a map.
fn in_order(alloc: Global, pairs: Vec<(Term, Term)>, keys: &[Key]) -> Result<Pairs, AllocError>
    requires { IsOrder keys.now (length pairs.items) }
    ensures { IfOk result (λ ps. ps ≡ pairs_of (picked pairs.items keys.now)) }
{
    let mut pairs = pairs;
    let mut ranks = ranks_of(alloc, keys)?;
    arrange(&mut pairs, &mut ranks);
    Ok(Pairs::from_vec(pairs))
}

/// Sorts the keys, and returns the first that was read twice.
fn sort_and_find(spelled: &[u8], keys: &mut [Key]) -> Option<Key>
    ensures permutation { IsPermutation keys.old keys.new }
    ensures sorted { IsSortedBy (λ k l. is_lt (key_order spelled.now k l)) keys.new }
    ensures first { IsFirstTwice spelled.now keys.new (length keys.new) result }
{
    sort_keys(spelled, keys);
    first_twice(spelled, keys)
}

/// The pairs in ascending order of their keys, unless one key is there twice.
fn ordered(alloc: Global, run: Run) -> Result<Pairs, ReadError>
    requires { (es : List Entry) × Holds run es }
    ensures { (es : List Entry) → Holds run es
        → Gives (λ ps. ps) result (put_all no_pair es (λ ps. Ok ps)) }
{
    let Run {
        pairs,
        mut keys,
        spelled,
    } = run;
    if let Some(key) = sort_and_find(&spelled, &mut keys) {
        return Err(stop(Fault::DuplicateKey, key.left));
    }
    Ok(in_order(alloc, pairs, &keys)?)
}

/// Returns the fault of a key twice, if there is one, else the one at which the reading stopped. The key was read
/// before that fault.
fn earlier_stop(found: Option<Key>, at: Stop) -> Stop
    ensures { result ≡ first_stop found at }
{
    match found {
        Some(key) => Stop {
            fault: Fault::DuplicateKey,
            left: key.left,
        },
        None => at,
    }
}

/// The first fault, if the reading stopped at this one.
fn first_fault(run: Run, at: Stop) -> Stop
    ensures { (es : List Entry) → AreNoted run.spelled.items run.keys.items es
        → IsFirstFault es at result }
{
    let Run {
        pairs: _,
        mut keys,
        spelled,
    } = run;
    earlier_stop(sort_and_find(&spelled, &mut keys), at)
}

/// The first fault, if the reading ended with this error. Without memory there is none to report.
fn first_error(run: Run, error: ReadError) -> ReadError
    ensures { (answer : Result (PlainPairs × List ℕ) Stop)
        → Ran (λ (x : List ℕ). x) run (Err error) answer → Fails result answer }
{
    match error {
        ReadError::At(at) => ReadError::At(first_fault(run, at)),
        ReadError::Memory => ReadError::Memory,
    }
}

/// The pairs that were read and the bytes after them, or the first fault.
pub fn settled(
    alloc: Global,
    run: Run,
    read: Result<&[u8], ReadError>,
) -> Result<(Pairs, &[u8]), ReadError>
    requires { (answer : Result (PlainPairs × List ℕ) Stop) × Ran (λ x. x.now) run read answer }
    ensures { (answer : Result (PlainPairs × List ℕ) Stop) → Ran (λ x. x.now) run read.entry answer
        → Gives (λ x. (x.0, x.1.now)) result answer }
{
    match read {
        Ok(rest) => Ok((ordered(alloc, run)?, rest)),
        Err(error) => Err(first_error(run, error)),
    }
}
