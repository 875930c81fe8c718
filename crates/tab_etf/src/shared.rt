//! Lists of terms that are shared: how they are written, and how long that is.

ghost use Rattle.std.specs.Prelude.{◌≡◌, ◌<◌, ◌^◌, ◌++◌, ◌∷◌, length, min, IsTrue};
ghost use Rattle.std.specs.Int.{w16, to_be_bytes};
ghost use Rattle.tab_term.specs.Canon.{all_bytes, bytes_of, canon, canons, list_tag, list_contents};
ghost use Rattle.tab_term.specs.Data.{count, list};
ghost use Rattle.tab_etf.specs.Measures.{IsMeasure};
ghost use Rattle.tab_etf.specs.Writing.{Writes};

use crate::device::Target;
use crate::measuring::{field_len, spelled_len};
use crate::spelling::{byte_in, put, put_tagged};
use crate::writer::Writer;
use tab_lists::SharedTerms;
use tab_term::spelling::{LIST_EXT, NIL_EXT, STRING_EXT, is_byte_term};

/// The head of a list, and the length of its elements.
#[derive(Clone, Copy)]
pub struct Measure {
    pub tag: u8,
    /// The number of elements; `usize::MAX` if there are more.
    pub count: usize,
    /// Their length in bytes; `u64::MAX` if it is more.
    pub len: u64,
}

/// The tag of a list that was gone over.
pub fn tag_of(_ts: &SharedTerms, counted: usize, bytes: bool) -> u8
    requires count { counted ≡ min (count _ts.now) usize.MAX }
    requires bytes { bytes ≡ all_bytes _ts.now }
    ensures { result ≡ list_tag _ts.now }
{
    if counted == 0 {
        NIL_EXT
    } else if counted < 0x1_0000 && bytes {
        STRING_EXT
    } else {
        LIST_EXT
    }
}

/// Goes over the list once, which has neither a count of its elements nor their lengths.
pub fn measure_of(ts: &SharedTerms) -> Measure
    ensures tag { result.tag ≡ list_tag ts.now }
    ensures count { result.count ≡ min (count ts.now) usize.MAX }
    ensures len { result.len ≡ min (length (canons ts.now)) u64.MAX }
{
    let mut count: usize = 0;
    let mut len: u64 = 0;
    let mut bytes = true;
    for t in ts.iter() {
        count = count.saturating_add(1);
        len = len.saturating_add(spelled_len(t));
        bytes &= is_byte_term(t);
    }
    let tag = tag_of(ts, count, bytes);
    Measure { tag, count, len }
}

fn put_bytes<W: Target>(writer: &mut Writer<W>, ts: &SharedTerms)
    requires { IsTrue (all_bytes ts.now) }
    ensures { Writes W.contents W.faults writer.old writer.new (bytes_of ts.now) }
{
    for t in ts.iter() {
        writer.put_byte(byte_in(t));
    }
}

#[tactic(auto, using(crate::proofs::WritingLemmas::writes_then))]
fn put_string<W: Target>(writer: &mut Writer<W>, ts: &SharedTerms, len: u16)
    requires { IsTrue (all_bytes ts.now) }
    ensures { Writes W.contents W.faults writer.old writer.new
        (107 ∷ to_be_bytes w16 len ++ bytes_of ts.now) }
{
    writer.put(&[STRING_EXT]);
    writer.put(&len.to_be_bytes());
    put_bytes(writer, ts);
}

fn put_all<W: Target>(writer: &mut Writer<W>, ts: &SharedTerms)
    ensures { Writes W.contents W.faults writer.old writer.new (canons ts.now) }
{
    for t in ts.iter() {
        put(writer, t);
    }
}

/// Writes the list, as `put_list` writes one whose elements are its own.
pub fn put_shared<W: Target>(writer: &mut Writer<W>, ts: &SharedTerms, measure: Measure)
    requires measure { IsMeasure measure ts.now }
    requires fits { count ts.now < 2 ^ 64 }
    ensures { Writes W.contents W.faults writer.old writer.new
        (list_tag ts.now ∷ list_contents ts.now (canons ts.now)) }
{
    match measure.tag {
        NIL_EXT => writer.put(&[NIL_EXT]),
        STRING_EXT => put_string(writer, ts, measure.count as u16),
        _ => {
            put_tagged(writer, LIST_EXT, measure.count);
            put_all(writer, ts);
            writer.put(&[NIL_EXT]);
        }
    }
}

/// The length of the canonical encoding of a list with this measure; `u64::MAX` if it is more.
#[tactic(auto, using(crate::proofs::Lengths::empty_length, crate::proofs::Lengths::bytes_length))]
pub fn shared_len(ts: &SharedTerms, measure: Measure) -> u64
    requires { IsMeasure measure ts.now }
    ensures { result ≡ min (length (canon (list ts.now))) u64.MAX }
{
    match measure.tag {
        NIL_EXT => 1,
        STRING_EXT => measure.count as u64 + 3,
        _ => measure.len.saturating_add(field_len(measure.count) + 2),
    }
}
