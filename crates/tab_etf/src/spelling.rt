//! The canonical encoding of a term, piece by piece.

ghost use Rattle.std.specs.Prelude.{◌≡◌, ◌<◌, ◌+◌, ◌^◌, ◌++◌, ◌∷◌, [], List, ℕ, length, IsTrue, unsigned_abs};
ghost use Rattle.tab_term.specs.Canon.{is_byte as is_byte_of, int_tag, int_contents, sign_of, magnitude, length_field, atom_tag, atom_length_field, tuple_tag, arity_field, is_byte_term, byte_of, all_bytes, bytes_of, list_tag as list_tag_of, list_contents, canon, canons, pair_canons};
ghost use Rattle.std.specs.Int.{w16, w32, to_be_bytes};
ghost use Rattle.tab_term.specs.Data.{count, pair_count};
ghost use Rattle.tab_term.specs.View.{term, terms, pairs as pairs_of};
ghost use Rattle.tab_etf.specs.Writing.{Writes};

use crate::device::Target;
use crate::writer::Writer;
use tab_term::spelling::{
    ATOM_UTF8_EXT, BINARY_EXT, INTEGER_EXT, LARGE_TUPLE_EXT, LIST_EXT, MAP_EXT, NIL_EXT,
    SMALL_ATOM_UTF8_EXT, SMALL_BIG_EXT, SMALL_INTEGER_EXT, SMALL_TUPLE_EXT, STRING_EXT, fits_four,
    four_bytes_of, is_byte, list_tag, low_first, sign_byte, significant_of,
};
use tab_term::{Pairs, Term, Terms};

/// A tag and four bytes, to be put at once.
pub fn tagged(tag: u8, n: u32) -> [u8; 5]
    ensures { result ≡ tag ∷ to_be_bytes w32 n }
{
    let [a, b, c, d] = n.to_be_bytes();
    [tag, a, b, c, d]
}

/// A tag and a byte, one after the other: as an array they would be stored in two parts and loaded as one, which a processor waits for.
#[tactic(auto, using(crate::proofs::WritingLemmas::writes_then))]
fn put_two<W: Target>(writer: &mut Writer<W>, tag: u8, byte: u8)
    ensures { Writes W.contents W.faults writer.old writer.new (tag ∷ byte ∷ []) }
{
    writer.put_byte(tag);
    writer.put_byte(byte);
}

/// A tag and a number of four bytes, one after the other for the same reason.
#[tactic(auto, using(crate::proofs::WritingLemmas::writes_then))]
fn put_four<W: Target>(writer: &mut Writer<W>, tag: u8, n: u32)
    ensures { Writes W.contents W.faults writer.old writer.new (tag ∷ to_be_bytes w32 n) }
{
    writer.put_byte(tag);
    writer.put(&n.to_be_bytes());
}

// ---- integers

fn one_byte(z: i128) -> u8
    requires { IsTrue (is_byte_of z) }
    ensures { result ≡ unsigned_abs z }
{
    z as u8
}

#[tactic(auto, using(crate::proofs::WritingLemmas::writes_then))]
fn put_digits<W: Target>(writer: &mut Writer<W>, sign: u8, digits: &[u8])
    requires { length digits.now < 256 }
    ensures { Writes W.contents W.faults writer.old writer.new
        (110 ∷ length digits.now ∷ sign ∷ digits.now) }
{
    writer.put(&[SMALL_BIG_EXT, digits.len() as u8, sign]);
    writer.put(digits);
}

// Inlined, it would make the encoding of a short number save registers for it.
#[inline(never)]
#[tactic(auto, using(crate::proofs::WritingLemmas::writes_then))]
fn put_big<W: Target>(writer: &mut Writer<W>, z: i128)
    ensures { Writes W.contents W.faults writer.old writer.new
        (110 ∷ length (magnitude (unsigned_abs z)) ∷ sign_of z ∷ magnitude (unsigned_abs z)) }
{
    let bytes = low_first(z.unsigned_abs());
    put_digits(writer, sign_byte(z), significant_of(&bytes));
}

/// Writes an integer in the shortest of its forms.
#[tactic(auto, using(crate::proofs::WritingLemmas::writes_then))]
pub fn put_int<W: Target>(writer: &mut Writer<W>, z: i128)
    ensures { Writes W.contents W.faults writer.old writer.new (int_tag z ∷ int_contents z) }
{
    if is_byte(z) {
        put_two(writer, SMALL_INTEGER_EXT, one_byte(z));
    } else if fits_four(z) {
        put_four(writer, INTEGER_EXT, four_bytes_of(z));
    } else {
        put_big(writer, z);
    }
}

// ---- lengths and texts

#[tactic(auto, using(crate::proofs::WritingLemmas::writes_then))]
fn put_length<W: Target>(writer: &mut Writer<W>, n: usize)
    ensures { Writes W.contents W.faults writer.old writer.new (length_field n) }
{
    if n < 0xffff_ffff {
        writer.put(&(n as u32).to_be_bytes());
    } else {
        writer.put(&[255, 255, 255, 255]);
        writer.put(&(n as u64).to_be_bytes());
    }
}

#[tactic(auto, using(crate::proofs::WritingLemmas::writes_then))]
fn put_atom_head<W: Target>(writer: &mut Writer<W>, n: usize)
    requires { n < 2 ^ 16 }
    ensures { Writes W.contents W.faults writer.old writer.new (atom_tag n ∷ atom_length_field n) }
{
    if n < 256 {
        put_two(writer, SMALL_ATOM_UTF8_EXT, n as u8);
    } else {
        writer.put(&[ATOM_UTF8_EXT]);
        writer.put(&(n as u16).to_be_bytes());
    }
}

/// Writes the beginning of a tuple: its tag, and how many elements follow.
#[tactic(auto, using(crate::proofs::WritingLemmas::writes_then))]
pub fn put_tuple_head<W: Target>(writer: &mut Writer<W>, n: usize)
    ensures { Writes W.contents W.faults writer.old writer.new (tuple_tag n ∷ arity_field n) }
{
    if n < 256 {
        put_two(writer, SMALL_TUPLE_EXT, n as u8);
    } else {
        writer.put(&[LARGE_TUPLE_EXT]);
        put_length(writer, n);
    }
}

/// A tag, a length or a count, and so many bytes.
#[tactic(auto, using(crate::proofs::WritingLemmas::writes_then))]
pub fn put_tagged<W: Target>(writer: &mut Writer<W>, tag: u8, n: usize)
    ensures { Writes W.contents W.faults writer.old writer.new (tag ∷ length_field n) }
{
    if n < 0xffff_ffff {
        put_four(writer, tag, n as u32);
    } else {
        writer.put(&[tag]);
        put_length(writer, n);
    }
}

/// Writes an atom in the shorter of its two forms that are UTF-8.
#[tactic(auto, using(crate::proofs::WritingLemmas::writes_then))]
pub fn put_atom<W: Target>(writer: &mut Writer<W>, text: &str)
    requires { length text.now < 2 ^ 16 }
    ensures { Writes W.contents W.faults writer.old writer.new
        (atom_tag (length text.now) ∷ atom_length_field (length text.now) ++ text.now) }
{
    put_atom_head(writer, text.len());
    writer.put(text.as_bytes());
}

#[tactic(auto, using(crate::proofs::WritingLemmas::writes_then))]
fn put_binary<W: Target>(writer: &mut Writer<W>, bytes: &[u8])
    ensures { Writes W.contents W.faults writer.old writer.new
        (109 ∷ length_field (length bytes.now) ++ bytes.now) }
{
    put_tagged(writer, BINARY_EXT, bytes.len());
    writer.put(bytes);
}

// ---- lists of bytes

/// The number of an integer that one byte holds.
pub fn byte_in(t: &Term) -> u8
    requires { IsTrue (is_byte_term (term t.now)) }
    ensures { result ≡ byte_of (term t.now) }
{
    match t {
        Term::Int(z) => one_byte(*z),
        _ => 0,
    }
}

fn put_bytes<W: Target>(writer: &mut Writer<W>, ts: &[Term])
    requires { IsTrue (all_bytes (terms ts.now)) }
    ensures { Writes W.contents W.faults writer.old writer.new (bytes_of (terms ts.now)) }
{
    for t in ts {
        writer.put_byte(byte_in(t));
    }
}

#[tactic(auto, using(crate::proofs::WritingLemmas::writes_then))]
fn put_string<W: Target>(writer: &mut Writer<W>, ts: &[Term])
    requires bytes { IsTrue (all_bytes (terms ts.now)) }
    requires short { length ts.now < 2 ^ 16 }
    ensures { Writes W.contents W.faults writer.old writer.new
        (107 ∷ to_be_bytes w16 (length ts.now) ++ bytes_of (terms ts.now)) }
{
    writer.put(&[STRING_EXT]);
    writer.put(&(ts.len() as u16).to_be_bytes());
    put_bytes(writer, ts);
}

// ---- terms

/// Writes a term in its canonical form, which is the one that a payload of this program has.
#[cycle(put)]
#[tactic(auto, using(crate::proofs::WritingLemmas::writes_then), unfolding(tab_term::specs::Canon::canon))]
pub fn put<W: Target>(writer: &mut Writer<W>, t: &Term)
    ensures { Writes W.contents W.faults writer.old writer.new (canon (term t.now)) }
{
    match t {
        Term::Int(z) => put_int(writer, *z),
        Term::Atom(a) => put_atom(writer, a.as_str()),
        Term::Tuple(ts) => put_tuple(writer, ts),
        Term::List(ts) => put_list(writer, ts),
        Term::Bin(b) => put_binary(writer, b.as_slice()),
        Term::Map(ps) => put_map(writer, ps),
    }
}

#[cycle(put)]
#[tactic(auto, using(crate::proofs::WritingLemmas::writes_then))]
fn put_tuple<W: Target>(writer: &mut Writer<W>, ts: &Terms)
    ensures { Writes W.contents W.faults writer.old writer.new
        (tuple_tag (count ts.now) ∷ arity_field (count ts.now) ++ canons ts.now) }
{
    let items = ts.as_slice();
    put_tuple_head(writer, items.len());
    put_all(writer, items);
}

/// Writes a list. A list of bytes is written as a string if it is short enough, as Erlang does.
#[cycle(put)]
#[tactic(auto, using(crate::proofs::WritingLemmas::writes_then))]
pub fn put_list<W: Target>(writer: &mut Writer<W>, ts: &Terms)
    ensures { Writes W.contents W.faults writer.old writer.new
        (list_tag_of ts.now ∷ list_contents ts.now (canons ts.now)) }
{
    let items = ts.as_slice();
    match list_tag(ts) {
        NIL_EXT => writer.put(&[NIL_EXT]),
        STRING_EXT => put_string(writer, items),
        _ => {
            put_tagged(writer, LIST_EXT, items.len());
            put_all(writer, items);
            writer.put(&[NIL_EXT]);
        }
    }
}

#[cycle(put)]
#[tactic(auto, using(crate::proofs::WritingLemmas::writes_then))]
fn put_map<W: Target>(writer: &mut Writer<W>, ps: &Pairs)
    ensures { Writes W.contents W.faults writer.old writer.new
        (116 ∷ length_field (pair_count ps.now) ++ pair_canons ps.now) }
{
    let items = ps.as_slice();
    put_tagged(writer, MAP_EXT, items.len());
    put_pairs(writer, items);
}

#[cycle(put)]
#[tactic(auto, using(tab_term::proofs::Lists::weight_at))]
fn put_all<W: Target>(writer: &mut Writer<W>, ts: &[Term])
    ensures { Writes W.contents W.faults writer.old writer.new (canons (terms ts.now)) }
{
    for t in ts {
        put(writer, t);
    }
}

#[cycle(put)]
#[tactic(auto, using(tab_term::proofs::Lists::pair_weight_at))]
fn put_pairs<W: Target>(writer: &mut Writer<W>, ps: &[(Term, Term)])
    ensures { Writes W.contents W.faults writer.old writer.new (pair_canons (pairs_of ps.now)) }
{
    for p in ps {
        put(writer, &p.0);
        put(writer, &p.1);
    }
}
