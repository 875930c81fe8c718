//! The length of the canonical encoding of a term.

ghost use Rattle.std.specs.Prelude.{◌≡◌, ◌<◌, ◌≤◌, ◌+◌, ◌^◌, ◌∷◌, min, length, MatchOption, unsigned_abs};
ghost use Rattle.tab_term.specs.Canon.{int_tag, int_contents, magnitude, length_field, atom_tag, atom_length_field, tuple_tag, arity_field, canon, canons, pair_canons};
ghost use Rattle.tab_term.specs.Data.{list};
ghost use Rattle.tab_term.specs.View.{term, terms, pairs as pairs_of};

use tab_term::spelling::{
    NIL_EXT, STRING_EXT, fits_four, is_byte, list_tag, low_first, significant_of,
};
use tab_term::{Term, Terms};

/// The longest payload whose length fits four bytes.
pub const LONGEST: u64 = 0xffff_ffff;

/// The length in bytes of an integer with its tag.
#[tactic(auto, using(crate::proofs::Lengths::one_long, crate::proofs::Lengths::four_long, crate::proofs::Lengths::big_long))]
pub fn int_len(z: i128) -> u64
    ensures value { result ≡ length (int_tag z ∷ int_contents z) }
    ensures small { result ≤ 19 }
{
    if is_byte(z) {
        2
    } else if fits_four(z) {
        5
    } else {
        big_len(z)
    }
}

fn big_len(z: i128) -> u64
    ensures value { result ≡ 3 + length (magnitude (unsigned_abs z)) }
    ensures small { result ≤ 19 }
{
    let bytes = low_first(z.unsigned_abs());
    significant_of(&bytes).len() as u64 + 3
}

/// The length in bytes of a count of elements.
#[tactic(auto, using(crate::proofs::Lengths::field_short, crate::proofs::Lengths::field_long))]
pub fn field_len(n: usize) -> u64
    ensures value { result ≡ length (length_field n) }
    ensures small { result ≤ 12 }
{
    if n < 0xffff_ffff { 4 } else { 12 }
}

/// The length in bytes of an atom whose text has `n` bytes.
#[tactic(auto, using(crate::proofs::Lengths::atom_short, crate::proofs::Lengths::atom_long))]
pub fn atom_len(n: usize) -> u64
    requires { n < 2 ^ 16 }
    ensures { result ≡ length (atom_tag n ∷ atom_length_field n) + n }
{
    if n < 256 { n as u64 + 2 } else { n as u64 + 3 }
}

#[tactic(auto, using(crate::proofs::Lengths::arity_short, crate::proofs::Lengths::arity_long))]
fn arity_len(n: usize) -> u64
    ensures value { result ≡ length (arity_field n) }
    ensures small { result ≤ 12 }
{
    if n < 256 { 1 } else { field_len(n) }
}

/// The length of the canonical encoding; `u64::MAX` if it is more.
#[cycle(len)]
#[tactic(auto, using(crate::proofs::Lengths::int_length, crate::proofs::Lengths::atom_length, crate::proofs::Lengths::tuple_length, crate::proofs::Lengths::bin_length, crate::proofs::Lengths::map_length))]
pub fn spelled_len(t: &Term) -> u64
    ensures { result ≡ min (length (canon (term t.now))) u64.MAX }
{
    match t {
        Term::Int(z) => int_len(*z),
        Term::Atom(a) => atom_len(a.as_str().len()),
        Term::Tuple(ts) => {
            let items = ts.as_slice();
            all_len(items).saturating_add(arity_len(items.len()) + 1)
        }
        Term::List(ts) => list_len(ts),
        Term::Bin(b) => {
            let n = b.as_slice().len();
            (n as u64).saturating_add(field_len(n) + 1)
        }
        Term::Map(ps) => {
            let items = ps.as_slice();
            pairs_len(items).saturating_add(field_len(items.len()) + 1)
        }
    }
}

/// The length in bytes of a list; `u64::MAX` if it is more.
#[cycle(len)]
#[tactic(auto, using(crate::proofs::Lengths::empty_length, crate::proofs::Lengths::bytes_length, crate::proofs::Lengths::others_length))]
pub fn list_len(ts: &Terms) -> u64
    ensures { result ≡ min (length (canon (list ts.now))) u64.MAX }
{
    let items = ts.as_slice();
    match list_tag(ts) {
        NIL_EXT => 1,
        STRING_EXT => items.len() as u64 + 3,
        _ => all_len(items).saturating_add(field_len(items.len()) + 2),
    }
}

#[cycle(len)]
#[tactic(auto, using(tab_term::proofs::Lists::weight_at, crate::proofs::Lengths::canons_more, crate::proofs::Lengths::none_length))]
fn all_len(ts: &[Term]) -> u64
    ensures { result ≡ min (length (canons (terms ts.now))) u64.MAX }
{
    let mut sum: u64 = 0;
    for t in ts {
        sum = sum.saturating_add(spelled_len(t));
    }
    sum
}

#[cycle(len)]
#[tactic(auto, using(tab_term::proofs::Lists::pair_weight_at, crate::proofs::Lengths::pairs_more, crate::proofs::Lengths::no_pair_length))]
fn pairs_len(ps: &[(Term, Term)]) -> u64
    ensures { result ≡ min (length (pair_canons (pairs_of ps.now))) u64.MAX }
{
    let mut sum: u64 = 0;
    for p in ps {
        sum = sum
            .saturating_add(spelled_len(&p.0))
            .saturating_add(spelled_len(&p.1));
    }
    sum
}

/// The length of a term's payload: the byte 131 and the canonical encoding. None if it is over 4,294,967,295 bytes.
pub fn encoded_len(value: &Term) -> Option<u64>
    ensures { MatchOption result (4294967295 < length (131 ∷ canon (term value.now)))
        (λ n. (n ≡ length (131 ∷ canon (term value.now))) × (n ≤ 4294967295)) }
{
    let len = spelled_len(value).saturating_add(1);
    if len <= LONGEST { Some(len) } else { None }
}
