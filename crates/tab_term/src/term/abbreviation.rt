//! The number that stands for a term among the keys of a container.

ghost use Rattle.std.specs.Prelude.{◌≡◌, ◌<◌, ◌+◌, ◌-◌, ◌*◌, ◌^◌, ◌∷◌, length, min, unsigned_abs};
ghost use Rattle.tab_term.specs.Abbreviations.{weight as weight_of, text_weight as text_weight_of};
ghost use Rattle.tab_term.specs.Canon.{sign_of, magnitude};
ghost use Rattle.tab_term.specs.Data.{int};
ghost use Rattle.tab_term.specs.View.{term};

use crate::spelling::{
    fits_four, four_bytes_of, is_byte, low_first, sign_byte, significant_of, tag,
};
use crate::term::Term;
use tab_key::{Abbreviate, head};

// A weight takes the low 48 bits of a term's number.
const WEIGHTS: u64 = 0x1_0000_0000_0000;

// The first bytes of a text take the low 40 bits of its weight.
const HEADS: u64 = 0x100_0000_0000;

fn after_length(length: usize, head: u64) -> u64
    requires { head < 256 ^ 5 }
    ensures { result ≡ min (length * 256 ^ 5 + head) (2 ^ 48 - 1) }
{
    if length < 256 {
        length as u64 * HEADS + head
    } else {
        WEIGHTS - 1
    }
}

fn text_weight(bytes: &[u8]) -> u64
    ensures { result ≡ min (text_weight_of (length bytes.now) bytes.now) (2 ^ 48 - 1) }
{
    after_length(bytes.len(), head(bytes, 5, HEADS))
}

fn big_weight(z: i128) -> u64
    ensures { result
        ≡ min (text_weight_of (length (magnitude (unsigned_abs z)))
        (sign_of z ∷ magnitude (unsigned_abs z))) (2 ^ 48 - 1) }
{
    let bytes = low_first(z.unsigned_abs());
    let digits = significant_of(&bytes);
    let below = HEADS / 256;
    after_length(
        digits.len(),
        u64::from(sign_byte(z)) * below + head(digits, 4, below),
    )
}

fn int_weight(z: i128) -> u64
    ensures { result ≡ min (weight_of (int z)) (2 ^ 48 - 1) }
{
    if is_byte(z) {
        z as u64
    } else if fits_four(z) {
        u64::from(four_bytes_of(z))
    } else {
        big_weight(z)
    }
}

// The weight as far as 48 bits hold it.
#[tactic(auto, using(crate::proofs::Lists::count_terms, crate::proofs::Lists::count_pairs))]
fn weight(t: &Term) -> u64
    ensures { result ≡ min (weight_of (term t.now)) (2 ^ 48 - 1) }
{
    match t {
        Term::Int(z) => int_weight(*z),
        Term::Atom(a) => text_weight(a.as_str().as_bytes()),
        Term::Bin(b) => text_weight(b.as_slice()),
        Term::Tuple(ts) | Term::List(ts) => (ts.as_slice().len() as u64).min(WEIGHTS - 1),
        Term::Map(ps) => (ps.as_slice().len() as u64).min(WEIGHTS - 1),
    }
}

/// The tag of the spelling, and what comes next: an integer of up to four bytes; of a longer one, of an atom and of a
/// binary, how many bytes there are (up to 255) and the first of them; how many elements a tuple, list or map has.
impl Abbreviate for Term {
    ghost use Rattle.tab_term.specs.View.{term};
    ghost use Rattle.tab_term.specs.Abbreviations.{number, spelled_less};

    ghost abbreviation = { λ t. number (term t) };

    ghost agrees = { λ a b h. spelled_less (term a) (term b) h };

    fn abbreviated(&self) -> u64 {
        u64::from(tag(self)) * WEIGHTS + weight(self)
    }
}
