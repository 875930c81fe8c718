//! The parts of a term's canonical spelling. The order of terms and the writing of terms share them.

ghost use Rattle.std.specs.Prelude.{◌≡◌, ◌≤◌, length, IsTrue};
ghost use Rattle.std.specs.Int.{w32, cast_unsigned};
ghost use Rattle.tab_term.specs.Canon.{tag as tag_of, int_tag as int_tag_of, list_tag as list_tag_of, all_bytes, is_byte_term as is_byte_term_of, is_byte as is_byte_of, fits_four as fits_four_of, sign_of, magnitude, significant};
ghost use Rattle.tab_term.specs.Data.{plain_terms};
ghost use Rattle.tab_term.specs.View.{term, terms};

use crate::term::{Term, Terms};

// The tags, by their names in the External Term Format.
/// The tags of the external term format (ERTS User's Guide, "External Term Format"): an integer of one byte.
pub const SMALL_INTEGER_EXT: u8 = 97;

/// An integer of four bytes.
pub const INTEGER_EXT: u8 = 98;

/// An atom in Latin-1, whose length has two bytes. It is read, and never written.
pub const ATOM_EXT: u8 = 100;

/// A tuple whose arity has one byte.
pub const SMALL_TUPLE_EXT: u8 = 104;

/// A tuple whose arity has four bytes.
pub const LARGE_TUPLE_EXT: u8 = 105;

/// The empty list.
pub const NIL_EXT: u8 = 106;

/// A list of bytes.
pub const STRING_EXT: u8 = 107;

/// A list of terms.
pub const LIST_EXT: u8 = 108;

/// A binary.
pub const BINARY_EXT: u8 = 109;

/// An integer of fewer than 256 bytes, the lowest first, behind its sign.
pub const SMALL_BIG_EXT: u8 = 110;

/// An atom in Latin-1, whose length has one byte. It is read, and never written.
pub const SMALL_ATOM_EXT: u8 = 115;

/// A map.
pub const MAP_EXT: u8 = 116;

/// An atom in UTF-8, whose length has two bytes.
pub const ATOM_UTF8_EXT: u8 = 118;

/// An atom in UTF-8, whose length has one byte.
pub const SMALL_ATOM_UTF8_EXT: u8 = 119;

/// Whether one byte holds the integer.
pub fn is_byte(z: i128) -> bool
    ensures { result ≡ is_byte_of z }
{
    0 <= z && z < 256
}

/// Whether four bytes with a sign hold the integer.
pub fn fits_four(z: i128) -> bool
    ensures { result ≡ fits_four_of z }
{
    -2147483648 <= z && z < 2147483648
}

/// An integer that four bytes with a sign hold, as those bytes.
pub fn four_bytes_of(z: i128) -> u32
    requires { IsTrue (fits_four_of z) }
    ensures { result ≡ cast_unsigned w32 z }
{
    (z as i32).cast_unsigned()
}

/// The sign byte of a longer integer.
pub fn sign_byte(z: i128) -> u8
    ensures { result ≡ sign_of z }
{
    if z < 0 { 1 } else { 0 }
}

/// The bytes of a magnitude, the lowest first, with zeros at the end.
pub fn low_first(n: u128) -> [u8; 16]
    ensures { significant result ≡ magnitude n }
{
    n.to_le_bytes()
}

/// The bytes without the zeros at the end.
#[tactic(auto, using(crate::proofs::Digits::drop_zero, crate::proofs::Digits::no_zero))]
pub fn significant_of(bytes: &[u8]) -> &[u8]
    ensures value { result.now ≡ significant bytes.now }
    ensures within { length result.now ≤ length bytes.now }
{
    let mut n = bytes.len();
    while n > 0 && bytes[n - 1] == 0 {
        n -= 1;
    }
    &bytes[..n]
}

/// Whether the term is an integer that one byte holds.
pub fn is_byte_term(t: &Term) -> bool
    ensures { result ≡ is_byte_term_of (term t.now) }
{
    match t {
        Term::Int(z) => is_byte(*z),
        _ => false,
    }
}

fn are_bytes(ts: &[Term]) -> bool
    ensures { result ≡ all_bytes (terms ts.now) }
{
    for t in ts {
        if !is_byte_term(t) {
            return false;
        }
    }
    true
}

/// The tag of an integer.
pub fn int_tag(z: i128) -> u8
    ensures { result ≡ int_tag_of z }
{
    if is_byte(z) {
        SMALL_INTEGER_EXT
    } else if fits_four(z) {
        INTEGER_EXT
    } else {
        SMALL_BIG_EXT
    }
}

/// The tag of a list of these elements. It looks at them up to the first that is no byte.
pub fn list_tag(ts: &Terms) -> u8
    ensures { result ≡ list_tag_of ts.now }
{
    let items = ts.as_slice();
    if items.is_empty() {
        NIL_EXT
    } else if items.len() < 0x1_0000 && are_bytes(items) {
        STRING_EXT
    } else {
        LIST_EXT
    }
}

/// The tag of a term.
pub fn tag(t: &Term) -> u8
    ensures { result ≡ tag_of (term t.now) }
{
    match t {
        Term::Int(z) => int_tag(*z),
        Term::Atom(a) => {
            if a.as_str().len() < 256 {
                SMALL_ATOM_UTF8_EXT
            } else {
                ATOM_UTF8_EXT
            }
        }
        Term::Tuple(ts) => {
            if ts.as_slice().len() < 256 {
                SMALL_TUPLE_EXT
            } else {
                LARGE_TUPLE_EXT
            }
        }
        Term::List(ts) => list_tag(ts),
        Term::Bin(_) => BINARY_EXT,
        Term::Map(_) => MAP_EXT,
    }
}
