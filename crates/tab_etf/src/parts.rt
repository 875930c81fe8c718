//! The parts of a term, read one by one, with no term around them.
//!
//! Each of these reads from the front of some bytes, and returns the bytes after it. None says that the bytes don't begin
//! so, or that there is no memory: `decode` then says which.

ghost use Rattle.std.specs.Prelude.{◌≡◌, ◌<◌, ◌+◌, ℕ, List, Ok, IfSome};
ghost use Rattle.tab_term.specs.Data.{PlainTerms, atom, tuple};
ghost use Rattle.tab_term.specs.View.{term};
ghost use Rattle.tab_etf.specs.Reading.{term_at, times};

use crate::decoding::term_of;
use std::alloc::Global;
use tab_term::Term;
use tab_term::spelling::{SMALL_ATOM_UTF8_EXT, SMALL_TUPLE_EXT};

/// The arity of a tuple. The bytes after it are those of its elements.
pub fn read_tuple(bytes: &[u8]) -> Option<(u8, &[u8])>
    ensures { IfSome result (λ x. (levels : ℕ) (ts : PlainTerms) (rest : List ℕ)
        → times (term_at levels) x.0 x.1.now ≡ Ok (ts, rest)
        → term_at (levels + 1) bytes.now ≡ Ok (tuple ts, rest)) }
{
    match bytes {
        [tag, count, rest @ ..] if *tag == SMALL_TUPLE_EXT => Some((*count, rest)),
        _ => None,
    }
}

/// The text of an atom, which is not copied.
#[tactic(auto, using(crate::proofs::PartsLemmas::word_at))]
pub fn read_word(bytes: &[u8]) -> Option<(&str, &[u8])>
    ensures { IfSome result (λ x. (levels : ℕ) → 0 < levels
        → term_at levels bytes.now ≡ Ok (atom x.0.now, x.1.now)) }
{
    let [tag, count, rest @ ..] = bytes else {
        return None;
    };
    if *tag != SMALL_ATOM_UTF8_EXT || rest.len() < *count as usize {
        return None;
    }
    let (text, rest) = rest.split_at(*count as usize);
    let word = std::str::from_utf8(text).ok()?;
    Some((word, rest))
}

/// A term of at most so many levels.
pub fn read_part(alloc: Global, levels: usize, bytes: &[u8]) -> Option<(Term, &[u8])>
    ensures { IfSome result (λ x. term_at levels bytes.now ≡ Ok (term x.0, x.1.now)) }
{
    term_of(alloc, levels, bytes).ok()
}
