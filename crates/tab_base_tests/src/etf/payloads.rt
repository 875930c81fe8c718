//! Payloads: which are terms, and which fault the others have.

use std::alloc::{AllocError, Global};
use std::test::Fail;
use tab_etf::{EtfFault, Fault, append_frame, decode, encode, encoded_len};
use tab_term::{Atom, Bytes, Term, Terms};
use tab_test_tools::bytes;

/// Payloads as hexadecimal digits, `63*6801` for two bytes 63 times, that are written back as they are.
static SPELLED: [&str; 18] = [
    "83 63*6801 61 00",
    "83 76 01 FE 255*C3A9",
    "83 61 00",
    "83 61 FF",
    "83 62 00 00 01 00",
    "83 62 FF FF FF FF",
    "83 62 7F FF FF FF",
    "83 6E 04 00 00 00 00 80",
    "83 62 80 00 00 00",
    "83 6E 04 01 01 00 00 80",
    "83 6E 10 01 15*00 80",
    "83 6B 00 02 61 62",
    "83 6A",
    "83 68 00",
    "83 6C 00010000 65536*6100 6A",
    "83 74 00000000",
    "83 74 00000001 6101 74 00000001 6101 6A",
    "83 63*6801 7400000000",
];

/// Payloads, and the payload that their term is written as.
static RESPELLED: [(&str, &str); 12] = [
    ("83 6E 11 01 15*00 80 00", "83 6E 10 01 15*00 80"),
    ("83 6E 00 00", "83 61 00"),
    ("83 6E 00 01", "83 61 00"),
    ("83 63*6801 6B 00 00", "83 63*6801 6A"),
    ("83 63*6801 6C 00 00 00 00 6A", "83 63*6801 6A"),
    ("83 6E 02 01 00 00", "83 61 00"),
    ("83 6C 00 00 00 02 61 61 61 62 6A", "83 6B 00 02 61 62"),
    ("83 64 00 01 E9", "83 77 02 C3 A9"),
    ("83 69 00 00 00 01 61 07", "83 68 01 61 07"),
    ("83 6B 00 00", "83 6A"),
    (
        "83 74 00000002 770162 6102 770161 6101",
        "83 74 00000002 770161 6101 770162 6102",
    ),
    (
        "83 74 00000003 770161 6100 6800 6A 6102 6A",
        "83 74 00000003 6102 6A 6800 6A 770161 6100",
    ),
];

/// Payloads, the first fault of each, and its place.
static REFUSED: [(&str, Fault, usize); 36] = [
    ("", Fault::Truncated, 0),
    ("82 61 01", Fault::Version, 0),
    ("83 62 00 00", Fault::Truncated, 4),
    ("83 46 8*00", Fault::LeftOut(70), 1),
    ("83 6E 01 02 05", Fault::Integer, 1),
    ("83 64*6801 61 00", Fault::Depth, 129),
    ("83 77 01 E9", Fault::Atom, 1),
    ("83 6C 00 00 00 01 61 01 61 02", Fault::ImproperTail, 8),
    ("83 61 01 00", Fault::Trailing, 3),
    ("83 6C FF FF FF FF 61 01", Fault::Truncated, 8),
    ("83 6E 02 02 05", Fault::Truncated, 5),
    ("83 6E 11 16*00 80 00", Fault::Integer, 1),
    ("83 6E 00 02", Fault::Integer, 1),
    ("83 64*6801 46", Fault::Depth, 129),
    ("83 63*6801 6B 00 01 00", Fault::Depth, 127),
    ("83 63*6801 6B 00 02 00", Fault::Truncated, 131),
    ("83 63*6801 6C 00 00 00 00 46", Fault::ImproperTail, 132),
    ("83 6C 00 00 00 00", Fault::Truncated, 6),
    ("83 76 01 00 256*61", Fault::Atom, 1),
    ("83 64 01 00 256*61", Fault::Atom, 1),
    ("83 77 02 C0 80", Fault::Atom, 1),
    ("83 77 03 ED A0 80", Fault::Atom, 1),
    ("83", Fault::Truncated, 1),
    ("83 50 00 00 00 00", Fault::LeftOut(80), 1),
    // As long as a payload may be.
    ("83 1048575*6C", Fault::Depth, 321),
    (
        "83 74 00000002 6101 6105 6200000001 6106",
        Fault::DuplicateKey,
        10,
    ),
    ("83 64*74000000016100 6100", Fault::Depth, 447),
    ("83 74 00000002 6101 6105 6101", Fault::DuplicateKey, 10),
    ("83 74 00000002 6101 6105 62000000", Fault::Truncated, 14),
    (
        "83 74 00000002 6B000161 6A 6C0000000161616A 6A",
        Fault::DuplicateKey,
        11,
    ),
    (
        "83 74 00000002 74000000026101 6A 6102 6A 6A 74000000026102 6A 6101 6A 6A",
        Fault::DuplicateKey,
        18,
    ),
    (
        "83 74 00000003 6102 6A 6101 6A 6102 46",
        Fault::DuplicateKey,
        12,
    ),
    ("83 63*6801 74 00000001 6100 6100", Fault::Depth, 132),
    ("83 74 0000", Fault::Truncated, 4),
    ("83 74 FFFFFFFF", Fault::Truncated, 6),
    ("83 74 FFFFFFFF 6101 6A", Fault::Truncated, 9),
];

/// The payload of a term. Empty if `encoded_len` gives another length.
fn spelled(alloc: Global, term: &Term) -> Result<Vec<u8>, Fail> {
    let mut out = Vec::new(alloc);
    encode(term, &mut out)?;
    if encoded_len(term) != Some(out.len() as u64) {
        out.clear();
    }
    Ok(out)
}

/// Returns whether the payload's term is written as this.
fn is_respelled(alloc: Global, payload: &[u8], want: &[u8]) -> Result<bool, Fail> {
    let out = spelled(alloc, &decode(alloc, payload)?)?;
    Ok(out.as_slice() == want)
}

/// The same for payloads as hexadecimal digits.
fn is_written_as(alloc: Global, text: &str, want: &str) -> Result<bool, Fail> {
    let payload = bytes(alloc, text)?;
    is_respelled(alloc, &payload, &bytes(alloc, want)?)
}

#[test]
fn payloads_are_read_and_written_back(rt: HostRuntime) -> Result<(), Fail> {
    for text in &SPELLED {
        assert!(rt; is_written_as(rt.alloc(), text, text)?, "{text}");
    }
    Ok(())
}

#[test]
fn payloads_are_read_and_written_in_one_form(rt: HostRuntime) -> Result<(), Fail> {
    for (text, want) in &RESPELLED {
        assert!(rt; is_written_as(rt.alloc(), text, want)?, "{text}");
    }
    Ok(())
}

fn fault_in(alloc: Global, payload: &[u8]) -> Option<EtfFault> {
    match decode(alloc, payload) {
        Ok(_) => None,
        Err(fault) => Some(fault),
    }
}

fn fault_of(alloc: Global, text: &str) -> Result<Option<EtfFault>, AllocError> {
    let payload = bytes(alloc, text)?;
    Ok(fault_in(alloc, &payload))
}

#[test]
fn payloads_are_refused_at_their_first_fault(rt: HostRuntime) {
    for (text, fault, place) in &REFUSED {
        let found = fault_of(rt.alloc(), text);
        assert!(rt; found == Ok(Some(EtfFault::At(*fault, *place))), "{text}");
    }
}

/// The number of payloads of this tag and one byte that are terms.
fn terms_of(alloc: Global, tag: u8) -> u32 {
    let mut count = 0u32;
    for byte in 0..=255u8 {
        if fault_in(alloc, &[131, tag, byte]).is_none() {
            count = count.saturating_add(1);
        }
    }
    count
}

#[test]
fn of_three_bytes_259_payloads_are_terms(rt: HostRuntime) {
    let mut count = 0u32;
    for tag in 0..=255u8 {
        count = count.saturating_add(terms_of(rt.alloc(), tag));
    }
    // 256 of tag 97, tag 104 with arity 0, tags 115 and 119 with the empty atom
    assert_eq!(rt; count, 259);
}

/// A map of 5,000 integers as keys, each to the empty list: from 1,000,000 on, in steps that go round after 5,000.
fn long_map(alloc: Global, first: u32, step: u32) -> Result<Vec<u8>, AllocError> {
    let mut out = bytes(alloc, "83 74 00001388")?;
    for i in 0..5_000u32 {
        let key = first.wrapping_add(step.wrapping_mul(i)) % 5_000;
        let [a, b, c, d] = 1_000_000u32.saturating_add(key).to_be_bytes();
        out.extend_from_slice(&[98, a, b, c, d, 106])?;
    }
    Ok(out)
}

/// Returns whether the map with these keys is written with its keys ascending.
fn is_sorted(alloc: Global, first: u32, step: u32) -> Result<bool, Fail> {
    let want = long_map(alloc, 0, 1)?;
    is_respelled(alloc, &long_map(alloc, first, step)?, &want)
}

#[test]
fn a_long_map_is_read_in_any_order(rt: HostRuntime) -> Result<(), Fail> {
    for (first, step) in [(0, 1), (4_999, 4_999), (0, 1_237)] {
        assert!(rt; is_sorted(rt.alloc(), first, step)?, "in steps of {step}");
    }
    Ok(())
}

/// Every second key, which comes again at the 2,501st pair of six bytes each.
#[test]
fn a_long_map_has_each_key_once(rt: HostRuntime) -> Result<(), Fail> {
    let payload = long_map(rt.alloc(), 0, 2)?;
    let fault = fault_in(rt.alloc(), &payload);
    assert!(rt; fault == Some(EtfFault::At(Fault::DuplicateKey, 15_006)));
    Ok(())
}

/// `{reply, <<1, 2>>}`.
fn built(alloc: Global) -> Result<Term, Fail> {
    let mut elements = Vec::new(alloc);
    elements.push(Term::Bin(Bytes::from_vec(bytes(alloc, "0102")?)))?;
    let name = Atom::new(alloc, "reply")?;
    elements.insert(0, Term::Atom(name))?;
    Ok(Term::Tuple(Terms::from_vec(elements)))
}

fn framed(alloc: Global, term: &Term) -> Result<Vec<u8>, Fail> {
    let mut out = bytes(alloc, "FF")?;
    append_frame(term, &mut out)?;
    Ok(out)
}

fn is_framed(alloc: Global) -> Result<bool, Fail> {
    let out = framed(alloc, &built(alloc)?)?;
    let want = bytes(alloc, "FF 00000011 83 6802 7705 7265706C79 6D00000002 0102")?;
    Ok(out == want)
}

#[test]
fn a_term_is_built_and_written(rt: HostRuntime) -> Result<(), Fail> {
    assert!(rt; is_framed(rt.alloc())?);
    Ok(())
}
