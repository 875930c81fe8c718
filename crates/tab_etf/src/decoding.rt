//! Terms from bytes: one pass from left to right, with the first fault at its place.

ghost use Rattle.std.specs.Prelude.{◌≡◌, ◌≤◌, ◌++◌, ◌∷◌, ◌<◌, ◌==◌, List, [], ℕ, length, Result, IfOk, OnOk, Ok, nat_lt, ◌&&◌};
ghost use Rattle.tab_term.specs.Data.{PlainTerm, PlainPairs, no_pair, depth};
ghost use Rattle.tab_term.specs.View.{term};
ghost use Rattle.tab_etf.specs.declared.fault.Stop.{Stop};
ghost use Rattle.tab_etf.specs.Runs.{Entry, put_all, pair_then, Holds, GoesOn, Ran};
ghost use Rattle.tab_etf.specs.Spells.{Spells};
ghost use Rattle.tab_etf.specs.Reading.{Gives, Decodes, whole, end_of_list, times, small_tuple, large_tuple, long_list, pairs_from, map_at, behind, term_at};

use crate::fault::{EtfFault, Fault, ReadError};
use crate::leaf::{leaf_of, stop, u8_at, u32_at};
use crate::run::{Run, settled};
use std::alloc::{AllocError, Global};
use tab_term::spelling::{LARGE_TUPLE_EXT, LIST_EXT, MAP_EXT, NIL_EXT, SMALL_TUPLE_EXT};
use tab_term::{Term, Terms};

/// The deepest level that is read. The outermost term is at level 1.
const LEVELS: usize = 64;

/// The initial capacity of a list or tuple, if it says that it has more elements than this.
const FIRST_PLACES: usize = 16;

#[tactic(auto, unfolding(crate::specs::Reading::end_of_list))]
fn list_end(bytes: &[u8]) -> Result<&[u8], ReadError>
    ensures { Gives (λ x. x.now) result (end_of_list bytes.now) }
{
    let (tail, rest) = u8_at(bytes)?;
    if tail != NIL_EXT {
        return Err(stop(Fault::ImproperTail, bytes.len()));
    }
    Ok(rest)
}

#[cycle(read)]
#[tactic(auto, unfolding(crate::specs::Reading::small_tuple))]
fn small_tuple_of(alloc: Global, levels: usize, bytes: &[u8]) -> Result<(Term, &[u8]), ReadError>
    ensures { Gives (λ x. (term x.0, x.1.now)) result (small_tuple (term_at levels) bytes.now) }
{
    let (count, rest) = u8_at(bytes)?;
    let (terms, rest) = terms_of(alloc, levels, count as u32, rest)?;
    Ok((Term::Tuple(terms), rest))
}

#[cycle(read)]
#[tactic(auto, unfolding(crate::specs::Reading::large_tuple))]
fn large_tuple_of(alloc: Global, levels: usize, bytes: &[u8]) -> Result<(Term, &[u8]), ReadError>
    ensures { Gives (λ x. (term x.0, x.1.now)) result (large_tuple (term_at levels) bytes.now) }
{
    let (count, rest) = u32_at(bytes)?;
    let (terms, rest) = terms_of(alloc, levels, count, rest)?;
    Ok((Term::Tuple(terms), rest))
}

#[cycle(read)]
#[tactic(auto, unfolding(crate::specs::Reading::long_list))]
fn long_list_of(alloc: Global, levels: usize, bytes: &[u8]) -> Result<(Term, &[u8]), ReadError>
    ensures { Gives (λ x. (term x.0, x.1.now)) result (long_list (term_at levels) bytes.now) }
{
    let (count, rest) = u32_at(bytes)?;
    let (terms, rest) = terms_of(alloc, levels, count, rest)?;
    let rest = list_end(rest)?;
    Ok((Term::List(terms), rest))
}

/// Adds a term, with no call if there is capacity.
fn push(items: &mut Vec<Term>, item: Term) -> Result<(), AllocError>
    ensures { OnOk result (items.new.items ≡ items.old.items ++ item ∷ []) }
{
    if items.len() < items.capacity() {
        items.push_reserved(item);
        return Ok(());
    }
    items.push(item)?;
    Ok(())
}

/// Reads `count` terms. The count does not reserve room by itself: capacity grows as elements are read.
#[cycle(read)]
fn terms_of(
    alloc: Global,
    levels: usize,
    count: u32,
    bytes: &[u8],
) -> Result<(Terms, &[u8]), ReadError>
    ensures { Gives (λ x. (x.0, x.1.now)) result (times (term_at levels) count bytes.now) }
{
    let places = bytes.len().min(count as usize).min(FIRST_PLACES);
    let mut items = Vec::with_capacity(alloc, places)?;
    let mut rest = bytes;
    for _ in 0..count {
        let (item, after) = term_of(alloc, levels, rest)?;
        push(&mut items, item)?;
        rest = after;
    }
    Ok((Terms::from_vec(items), rest))
}

/// Reads the next pair. It notes the key before it reads the value: a key twice is reported before a fault of its
/// value.
#[cycle(read)]
fn pair_of<'a>(
    alloc: Global,
    levels: usize,
    run: &mut Run,
    bytes: &'a [u8],
) -> Result<&'a [u8], ReadError>
    ensures { (es : List Entry) (go_on : PlainPairs × List ℕ → Result (PlainPairs × List ℕ) Stop)
        → Holds run.old es
        → GoesOn (λ x. x.now) go_on run.new result
        (put_all no_pair es (pair_then (term_at levels) go_on bytes.now)) }
{
    let (key, rest) = term_of(alloc, levels, bytes)?;
    run.note(&key, bytes.len())?;
    let (value, rest) = term_of(alloc, levels, rest)?;
    run.push(key, value)?;
    Ok(rest)
}

/// Reads `count` pairs, or those before the first fault. It does not check for a key twice.
#[cycle(read)]
fn run_of<'a>(
    alloc: Global,
    levels: usize,
    count: u32,
    run: &mut Run,
    bytes: &'a [u8],
) -> Result<&'a [u8], ReadError>
    requires { Holds run.old [] }
    ensures { Ran (λ x. x.now) run.new result
        (pairs_from (term_at levels) count no_pair bytes.now) }
{
    let mut rest = bytes;
    for _ in 0..count {
        rest = pair_of(alloc, levels, run, rest)?;
    }
    Ok(rest)
}

#[cycle(read)]
#[tactic(auto, unfolding(crate::specs::Reading::map_at))]
fn map_of(alloc: Global, levels: usize, bytes: &[u8]) -> Result<(Term, &[u8]), ReadError>
    ensures { Gives (λ x. (term x.0, x.1.now)) result (map_at (term_at levels) bytes.now) }
{
    let (count, rest) = u32_at(bytes)?;
    let mut run = Run::new(alloc);
    let read = run_of(alloc, levels, count, &mut run, rest);
    let (pairs, rest) = settled(alloc, run, read)?;
    Ok((Term::Map(pairs), rest))
}

#[cycle(read)]
#[tactic(auto, unfolding(crate::specs::Reading::behind))]
fn behind_of(
    alloc: Global,
    levels: usize,
    tag: u8,
    bytes: &[u8],
) -> Result<(Term, &[u8]), ReadError>
    ensures { Gives (λ x. (term x.0, x.1.now)) result
        (behind (term_at levels) (levels == 0) tag bytes.now) }
{
    match tag {
        SMALL_TUPLE_EXT => small_tuple_of(alloc, levels, bytes),
        LARGE_TUPLE_EXT => large_tuple_of(alloc, levels, bytes),
        LIST_EXT => long_list_of(alloc, levels, bytes),
        MAP_EXT => map_of(alloc, levels, bytes),
        _ => leaf_of(alloc, levels == 0, tag, bytes),
    }
}

#[cycle(read)]
#[tactic(auto, unfolding(crate::specs::Reading::term_at))]
pub fn term_of(alloc: Global, levels: usize, bytes: &[u8]) -> Result<(Term, &[u8]), ReadError>
    ensures { Gives (λ x. (term x.0, x.1.now)) result (term_at levels bytes.now) }
{
    match bytes {
        [] => Err(stop(Fault::Truncated, 0)),
        [tag, rest @ ..] => {
            if levels == 0 {
                return Err(stop(Fault::Depth, bytes.len()));
            }
            behind_of(alloc, levels - 1, *tag, rest)
        }
    }
}

#[tactic(auto, unfolding(crate::specs::Reading::whole))]
fn whole_of(alloc: Global, payload: &[u8]) -> Result<Term, ReadError>
    ensures { Gives term result (whole payload.now) }
{
    match payload {
        [] => Err(stop(Fault::Truncated, 0)),
        [131, rest @ ..] => {
            let (found, rest) = term_of(alloc, LEVELS, rest)?;
            if !rest.is_empty() {
                return Err(stop(Fault::Trailing, rest.len()));
            }
            Ok(found)
        }
        [_, ..] => Err(stop(Fault::Version, payload.len())),
    }
}

fn placed(alloc: Global, payload: &[u8]) -> Result<Term, EtfFault>
    ensures { Decodes term (length payload.now) result (whole payload.now) }
{
    match whole_of(alloc, payload) {
        Ok(found) => Ok(found),
        Err(ReadError::Memory) => Err(EtfFault::NoMemory),
        Err(ReadError::At(at)) => Err(EtfFault::At(
            at.fault,
            payload.len().saturating_sub(at.left),
        )),
    }
}

/// Decodes the term of a payload: the byte 131 and one term of at most 64 levels.
///
/// The count of a list, tuple or map does not reserve room for its elements by itself. The keys of a map may come in
/// any order.
pub fn decode(alloc: Global, payload: &[u8]) -> Result<Term, EtfFault>
    ensures found { IfOk result
        (λ t. (b : List ℕ) × (payload.now ≡ 131 ∷ b) × Spells (term t) b × (depth (term t) ≤ 64)) }
    ensures only { (t : PlainTerm) (b : List ℕ) → payload.now ≡ 131 ∷ b → Spells t b → depth t ≤ 64
        → Decodes term (length payload.now) result (Ok t) }

    // The exact fault, and its position.
    ensures exact { Decodes term (length payload.now) result (whole payload.now) }
{
    placed(alloc, payload)
}

/// No encoding is a prefix of another, and one byte list encodes one term.
pub fn spellings_are_apart()
    ensures { (s t : PlainTerm) (a b x y : List ℕ) → Spells s a → Spells t b → a ++ x ≡ b ++ y
        → (a ≡ b) × (s ≡ t) }
{}
