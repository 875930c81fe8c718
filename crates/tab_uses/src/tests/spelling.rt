//! Terms that come back, and payloads that are written again.

use crate::{AgainFault, PayloadFault, append_canonical, term_again};
use std::alloc::{AllocError, Global};
use tab_etf::{EtfFault, Fault, decode, encode};
use tab_term::{Pairs, Term, Terms};

/// Canonical payloads: `{t,1,a}`, -1, `[97,98]`, `<<97,98>>`, and `#{a => 1, b => 2}`.
static SPELLED: [&[u8]; 5] = [
    b"\x83h\x03w\x01ta\x01w\x01a",
    b"\x83b\xff\xff\xff\xff",
    b"\x83k\x00\x02ab",
    b"\x83m\x00\x00\x00\x02ab",
    b"\x83t\x00\x00\x00\x02w\x01aa\x01w\x01ba\x02",
];

fn spelled_again(alloc: Global, payload: &[u8]) -> Result<Vec<u8>, AgainFault> {
    let value = decode(alloc, payload)?;
    let again = term_again(alloc, &value)?;
    let mut out = Vec::new(alloc);
    encode(&again, &mut out)?;
    Ok(out)
}

#[test]
fn terms_come_back(rt: HostRuntime) {
    for (line, payload) in SPELLED.iter().enumerate() {
        let again = spelled_again(rt.alloc(), payload);
        assert!(rt;
            again.is_ok_and(|again| again.as_slice() == *payload),
            "line {line}"
        );
    }
}

/// Zero in so many levels.
fn nested(alloc: Global, levels: u32) -> Result<Term, AllocError> {
    let mut value = Term::Int(0);
    for _ in 1..levels {
        let mut elements = Vec::with_capacity(alloc, 1)?;
        elements.push_reserved(value);
        value = Term::Tuple(Terms::from_vec(elements));
    }
    Ok(value)
}

/// `#{1 => 0, 0 => 0}`, its keys out of order.
fn out_of_order(alloc: Global) -> Result<Term, AllocError> {
    let mut pairs = Vec::with_capacity(alloc, 2)?;
    pairs.push_reserved((Term::Int(1), Term::Int(0)));
    pairs.push_reserved((Term::Int(0), Term::Int(0)));
    Ok(Term::Map(Pairs::from_vec(pairs)))
}

fn fault_of(alloc: Global, value: &Term) -> Option<AgainFault> {
    term_again(alloc, value).err()
}

fn fault_at_depth(alloc: Global, levels: u32) -> Result<Option<AgainFault>, AllocError> {
    let value = nested(alloc, levels)?;
    Ok(fault_of(alloc, &value))
}

fn fault_out_of_order(alloc: Global) -> Result<Option<AgainFault>, AllocError> {
    let map = out_of_order(alloc)?;
    Ok(fault_of(alloc, &map))
}

#[test]
fn others_do_not(rt: HostRuntime) {
    let alloc = rt.alloc();
    assert!(rt; fault_at_depth(alloc, 64) == Ok(None), "64 levels");
    let depth = AgainFault::Decode(EtfFault::At(Fault::Depth, 129));
    assert!(rt; fault_at_depth(alloc, 65) == Ok(Some(depth)), "65 levels");
    assert!(rt;
        fault_out_of_order(alloc) == Ok(Some(AgainFault::OtherTerm)),
        "a map out of order"
    );
}

/// Payloads; the fault of each and its position, if it is no term; and the bytes after the byte 7 then.
static PAYLOADS: [(&[u8], Option<(Fault, usize)>, &[u8]); 8] = [
    (b"\x83a\x01", None, b"\x07\x83a\x01"),
    (b"\x83b\x00\x00\x00\x01", None, b"\x07\x83a\x01"),
    (b"\x83l\x00\x00\x00\x02aaabj", None, b"\x07\x83k\x00\x02ab"),
    (b"\x83s\x01t", None, b"\x07\x83w\x01t"),
    (b"", Some((Fault::Truncated, 0)), b"\x07"),
    (b"\x82a\x01", Some((Fault::Version, 0)), b"\x07"),
    (b"\x83F", Some((Fault::LeftOut(70), 1)), b"\x07"),
    (b"\x83a\x01\x00", Some((Fault::Trailing, 3)), b"\x07"),
];

fn fault_at(written: Result<(), PayloadFault>) -> Option<(Fault, usize)> {
    match written {
        Err(PayloadFault::Decode(EtfFault::At(fault, place))) => Some((fault, place)),
        _ => None,
    }
}

/// Returns whether the payload has this fault, and these are the bytes after the byte 7.
fn is_appended(
    alloc: Global,
    (payload, fault, wanted): &(&[u8], Option<(Fault, usize)>, &[u8]),
) -> Result<bool, AllocError> {
    let mut out = Vec::from_slice(alloc, b"\x07")?;
    let written = append_canonical(alloc, payload, &mut out);
    Ok(fault_at(written) == *fault && out.as_slice() == *wanted)
}

#[test]
fn payloads_are_written_anew(rt: HostRuntime) {
    for (line, row) in PAYLOADS.iter().enumerate() {
        assert!(rt; is_appended(rt.alloc(), row) == Ok(true), "line {line}");
    }
}
