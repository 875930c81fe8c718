//! Terms: their order, their copies, patterns and numbers, against tables from outside. A term is given as its payload.

use std::alloc::{AllocError, Global};
use std::test::Fail;
use tab_etf::decode;
use tab_key::Abbreviate;
use tab_term::{Atom, Term, has_wildcard, matches};
use tab_test_tools::bytes;

/// Terms, ascending by the bytes of their encodings, as a program in another language encoded and sorted them.
static ASCENDING: [&str; 60] = [
    "83 6100",
    "83 6101",
    "83 61FF",
    "83 6200000100",
    "83 6200000101",
    "83 620000FFFF",
    "83 6200010000",
    "83 627FFFFFFF",
    "83 6280000000",
    "83 62FFFFFF00",
    "83 62FFFFFFFF",
    "83 6800",
    "83 6801 6100",
    "83 6801 620000012C",
    "83 6801 62FFFFFFFF",
    "83 2*6801 6100",
    "83 3*6801 6100",
    "83 63*6801 6100",
    "83 6802 2*6101",
    "83 68FF 255*6100",
    "83 6900000100 256*6100",
    "83 6A",
    "83 6B0001 00",
    "83 6B0001 FF",
    "83 6B0002 2*01",
    "83 6BFFFF 65535*00",
    "83 6C00000001 620000012C 6A",
    "83 6C00000001 62FFFFFFFF 6A",
    "83 6C00000002 2*620000012C 6A",
    "83 6C00010000 65536*6100 6A",
    "83 6D00000000",
    "83 6D00000001 62",
    "83 6D00000002 2*61",
    "83 6D000000FF 255*00",
    "83 6D00000100 256*00",
    "83 6E040000000080",
    "83 6E040000010080",
    "83 6E040001000080",
    "83 6E040101000080",
    "83 6E05000000000001",
    "83 6E0900000000000000000001",
    "83 6E0901000000000000000001",
    "83 6E1000FFFFFFFFFFFFFFFFFFFFFFFFFFFFFF7F",
    "83 6E100100000000000000000000000000000080",
    "83 7400000000",
    "83 7400000001 6100 6101",
    "83 7400000001 6100 620000012C",
    "83 7400000001 6101 6102",
    "83 7400000001 6101 620000012C",
    "83 7400000001 6101 6800",
    "83 7400000001 6102 6100",
    "83 760100 128*C3A9",
    "83 7603FC 255*F09D849E",
    "83 7700",
    "83 7701 5F",
    "83 7701 62",
    "83 7701 7A",
    "83 7702 2*61",
    "83 77FE 127*C3A9",
    "83 77FF 255*61",
];

/// A pattern, a term, whether it fits, and whether the pattern has a wildcard.
static PATTERNS: [(&str, &str, bool, bool); 11] = [
    ("83 7701 5F", "83 6B0003 3*07", true, true),
    ("83 7702 2*5F", "83 7701 5F", false, false),
    ("83 7701 61", "83 7701 61", true, false),
    ("83 6802 2*6101", "83 6802 2*6101", true, false),
    ("83 6802 2*6101", "83 6B0002 2*01", false, false),
    ("83 6802 2*6101", "83 6803 3*6101", false, false),
    ("83 6B0002 2*01", "83 6B0002 2*01", true, false),
    (
        "83 7400000001 6101 6102",
        "83 7400000001 6101 6102",
        true,
        false,
    ),
    (
        "83 7400000001 6101 6102",
        "83 7400000001 6101 6103",
        false,
        false,
    ),
    ("83 6801 7701 5F", "83 6801 6105", true, true),
    (
        "83 7400000001 6101 6801 7701 5F",
        "83 7400000001 6101 6801 7701 61",
        false,
        false,
    ),
];

/// A term, its depth, and its number: the tag of the encoding, and its weight.
static NUMBERS: [(&str, u64, u64); 11] = [
    ("83 6107", 1, 0x0061_0000_0000_0007),
    ("83 6200000100", 1, 0x0062_0000_0000_0100),
    ("83 62FFFFFFFF", 1, 0x0062_0000_ffff_ffff),
    ("83 6E040000000080", 1, 0x006e_0400_0000_0080),
    ("83 6E0B010000000000000000000001", 1, 0x006e_0b01_0000_0000),
    ("83 6E0600FF0504030201", 1, 0x006e_0600_ffff_ffff),
    ("83 7706 706572736F6E", 1, 0x0077_0670_6572_736f),
    ("83 6D00000002 2*61", 1, 0x006d_0261_6100_0000),
    ("83 6D0000012C 300*61", 1, 0x006d_ffff_ffff_ffff),
    ("83 6801 6105", 2, 0x0068_0000_0000_0001),
    ("83 7400000001 6101 6801 7701 5F", 3, 0x0074_0000_0000_0001),
];

fn held(alloc: Global, text: &str) -> Result<Term, Fail> {
    Ok(decode(alloc, &bytes(alloc, text)?)?)
}

fn ascending(alloc: Global) -> Result<Vec<Term>, Fail> {
    let mut terms = Vec::new(alloc);
    for text in &ASCENDING {
        terms.push(held(alloc, text)?)?;
    }
    Ok(terms)
}

/// Returns whether the term with this number is less than those after it, greater than those before it, and equal to itself.
fn is_in_order(terms: &[Term], number: usize, term: &Term) -> bool {
    let mut right = true;
    for (i, other) in terms.iter().enumerate() {
        right &= term.cmp(other) == number.cmp(&i) && (term == other) == (number == i);
    }
    right
}

fn is_copied(alloc: Global, term: &Term) -> bool {
    match term.try_clone(alloc) {
        Ok(copy) => copy == *term,
        Err(_) => false,
    }
}

#[test]
fn terms_stand_in_the_order_of_their_spellings(rt: HostRuntime) -> Result<(), Fail> {
    let terms = ascending(rt.alloc())?;
    for (number, term) in terms.iter().enumerate() {
        assert!(rt;
            is_in_order(&terms, number, term) && is_copied(rt.alloc(), term),
            "term {number}"
        );
    }
    Ok(())
}

/// Returns whether the pattern fits as it should, and has a wildcard if it should.
fn is_matched(
    alloc: Global,
    pattern: &str,
    subject: &str,
    (fits, wild): (bool, bool),
) -> Result<bool, Fail> {
    let pattern = held(alloc, pattern)?;
    let found = matches(&pattern, &held(alloc, subject)?);
    Ok(found == fits && has_wildcard(&pattern) == wild)
}

#[test]
fn patterns_match(rt: HostRuntime) -> Result<(), Fail> {
    for (pattern, subject, fits, wild) in &PATTERNS {
        let right = is_matched(rt.alloc(), pattern, subject, (*fits, *wild))?;
        assert!(rt; right, "{pattern}");
    }
    Ok(())
}

/// A term's depth and number.
fn numbers(alloc: Global, text: &str) -> Result<(u64, u64), Fail> {
    let term = held(alloc, text)?;
    Ok((term.depth(), term.abbreviated()))
}

fn number_of_a_copy(alloc: Global) -> Result<u64, AllocError> {
    let name = Atom::from_short_text(alloc, "person")?;
    Ok(name.try_clone(alloc)?.abbreviated())
}

#[test]
fn terms_have_depths_and_numbers(rt: HostRuntime) -> Result<(), Fail> {
    for (text, depth, number) in &NUMBERS {
        assert!(rt; numbers(rt.alloc(), text)? == (*depth, *number), "{text}");
    }
    assert!(rt; number_of_a_copy(rt.alloc()) == Ok(0x0070_6572_736f_6e00));
    Ok(())
}
