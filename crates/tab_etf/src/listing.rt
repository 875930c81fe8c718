//! Lists that are appended in one walk: their count is put in once it is known.

ghost use Rattle.std.specs.Prelude.{◌≡◌, ◌≢◌, ◌⊎◌, ◌<◌, ◌≤◌, ◌+◌, ◌^◌, ◌++◌, ◌∷◌, [], List, ℕ, true, Some, None, min, length, take, drop, vec_len, if◌then◌else◌, MatchOption, IfSome, IfNone, IfOk, OnOk, OnErr, IsFalse};
ghost use Rattle.std.specs.Int.{w32, to_be_bytes};
ghost use Rattle.tab_term.specs.Canon.{canon, canons, all_bytes, list_tag};
ghost use Rattle.tab_term.specs.Data.{count, list};
ghost use Rattle.tab_etf.specs.Listings.{IsCounted, IsOver, IsPast, held, faults_of, uncounted};
ghost use Rattle.tab_etf.specs.declared.outline.Body.TheVariants.{One};
ghost use Rattle.tab_etf.specs.Writing.{Writes};

use crate::counted::Counted;
use crate::device::Broken;
use crate::encoding::append;
use crate::outline::{Body, Leaf, Outline};
use crate::shared::{Measure, tag_of};
use crate::spelling::put;
use crate::writer::Writer;
use std::alloc::AllocError;
use tab_lists::SharedTerms;
use tab_term::spelling::{LIST_EXT, NIL_EXT, STRING_EXT, is_byte_term};

/// The tag and the count of a list after a walk of it.
#[derive(Clone, Copy)]
struct Found {
    tag: u8,
    /// The number of elements, which fits four bytes.
    count: usize,
}

/// Writes the elements, until the device has more than `most` bytes. It returns None then, and if the count of elements
/// does not fit four bytes.
fn put_within(writer: &mut Writer<Counted<Vec<u8>>>, ts: &SharedTerms, most: usize) -> Option<Found>
    ensures found { IfSome result (λ found. IsCounted found ts.now) }
    ensures all { IfSome result (λ _. Writes held faults_of writer.old writer.new (canons ts.now)) }
    ensures part { (s : List ℕ) × Writes held faults_of writer.old writer.new s
        × (length s ≤ length (canons ts.now)) }
    ensures over { IfNone result
        ((most < length writer.new.device.now.inner.items)
        ⊎ (4294967295 ≤ length (canons ts.now))) }
{
    let mut count: usize = 0;
    let mut bytes = true;
    for t in ts.iter() {
        put(writer, t);
        if writer.device().inner().len() > most {
            return None;
        }
        count = count.saturating_add(1);
        bytes &= is_byte_term(t);
    }
    if count >= 0xffff_ffff {
        return None;
    }
    let tag = tag_of(ts, count, bytes);
    Some(Found { tag, count })
}

/// Writes a list of terms with a count of 0.
fn spell_uncounted(
    device: &mut Counted<Vec<u8>>,
    ts: &SharedTerms,
    most: usize,
) -> Result<Option<Found>, Broken>
    ensures found { IfOk result (λ walked. IfSome walked (λ found. IsCounted found ts.now)) }
    ensures all { IfOk result
        (λ walked. IfSome walked
        (λ _. device.new.inner.items ≡ device.old.inner.items ++ uncounted ts.now)) }
    ensures part { (s : List ℕ) × (device.new.inner.items ≡ device.old.inner.items ++ s) }
    ensures over { IfOk result
        (λ walked. IfNone walked
        (IsOver most (length device.old.inner.items) (length (canons ts.now)))) }
{
    let mut writer = Writer::new(device);
    writer.put(&[LIST_EXT, 0, 0, 0, 0]);
    let found = put_within(&mut writer, ts, most);
    writer.put(&[NIL_EXT]);
    writer.write_out();
    if writer.has_failed() {
        return Err(Broken);
    }
    Ok(found)
}

/// Adds a list of terms with a count of 0. The bytes that were there stay, also on an error.
fn append_uncounted(
    ts: &SharedTerms,
    most: usize,
    out: &mut Vec<u8>,
) -> Result<Option<Found>, Broken>
    ensures found { IfOk result (λ walked. IfSome walked (λ found. IsCounted found ts.now)) }
    ensures all { IfOk result
        (λ walked. IfSome walked (λ _. out.new.items ≡ out.old.items ++ uncounted ts.now)) }
    ensures part { (s : List ℕ) × (out.new.items ≡ out.old.items ++ s) }
    ensures over { IfOk result
        (λ walked. IfNone walked (IsOver most (length out.old.items) (length (canons ts.now)))) }
{
    let alloc = *out.allocator();
    let mut device = Counted::new(std::mem::replace(out, Vec::new(alloc)));
    let walked = spell_uncounted(&mut device, ts, most);
    *out = device.into_inner();
    walked
}

/// Puts a number of four bytes in the place of four bytes.
pub fn put_number(out: &mut Vec<u8>, at: usize, n: u32)
    requires { at + 4 ≤ vec_len out.old }
    ensures { out.new.items
        ≡ take at out.old.items ++ (to_be_bytes w32 n ++ drop (at + 4) out.old.items) }
{
    out[at..at + 4].copy_from_slice(&n.to_be_bytes());
}

/// Appends the canonical encoding of a list that is empty or a string. On an error the bytes are as before.
fn append_short(ts: &SharedTerms, found: Found, out: &mut Vec<u8>) -> Result<(), AllocError>
    requires found { IsCounted found ts.now }
    requires short { found.tag ≢ 108 }
    ensures ok { OnOk result (out.new.items ≡ out.old.items ++ canon (list ts.now)) }
    ensures err { OnErr result (out.new.items ≡ out.old.items) }
{
    if found.tag == NIL_EXT {
        out.push(NIL_EXT)?;
        return Ok(());
    }
    let measure = Measure {
        tag: STRING_EXT,
        count: found.count,
        len: 2 * found.count as u64,
    };
    append(&alone(Leaf::SharedList(ts, measure)), &[], 0, out)
}

/// Appends the canonical encoding of a list, if the bytes are then at most about `most`. On false and on an error they
/// are as before.
///
/// It walks the list once, and once more if the list is written as a string.
pub fn append_list(ts: &SharedTerms, most: usize, out: &mut Vec<u8>) -> Result<bool, AllocError>
    ensures ok { IfOk result
        (λ within. out.new.items ≡ out.old.items ++ (if within then canon (list ts.now) else [])) }
    ensures over { IfOk result
        (λ within. IsFalse within
        → IsPast most (length out.old.items) (length (canon (list ts.now)))) }
    ensures err { OnErr result (out.new.items ≡ out.old.items) }
{
    let at = out.len();
    match append_uncounted(ts, most, out) {
        Ok(Some(found)) => {
            if found.tag == LIST_EXT {
                put_number(out, at + 1, found.count as u32);
                return Ok(true);
            }
            out.truncate(at);
            append_short(ts, found, out)?;
            Ok(true)
        }
        Ok(None) => {
            out.truncate(at);
            Ok(false)
        }
        Err(_) => {
            out.truncate(at);
            Err(AllocError)
        }
    }
}

/// An outline of one part.
pub fn alone<'a>(leaf: Leaf<'a>) -> Outline<'a>
    ensures { result ≡ record { first = None; second = None; body = One leaf.entry } }
{
    Outline {
        first: None,
        second: None,
        body: Body::One(leaf),
    }
}
