//! Fields, and the terms without elements.

ghost use Rattle.std.specs.Prelude.{◌≡◌, ◌≤◌, ◌<◌, ◌^◌, ◌==◌, List, ℕ, length, string_bytes, encode_utf8_all, MatchOption, Ok};
ghost use Rattle.std.specs.Int.{w16, w32};
ghost use Rattle.tab_term.specs.Numbers.{low_value};
ghost use Rattle.tab_term.specs.View.{term};
ghost use Rattle.tab_etf.specs.Spells.{numbers, signed_value};
ghost use Rattle.tab_etf.specs.Reading.{Gives, byte_at, number_at, bytes_at, short_text_at, text_at, small_integer, integer, integer_is, small_big, atom_is, utf8_is, latin1_is, latin1_atom, small_latin1_atom, utf8_atom, small_utf8_atom, string, binary, leaf};

use crate::fault::{Fault, ReadError, Stop};
use std::alloc::Global;
use tab_term::spelling::{
    ATOM_EXT, ATOM_UTF8_EXT, BINARY_EXT, INTEGER_EXT, NIL_EXT, SMALL_ATOM_EXT, SMALL_ATOM_UTF8_EXT,
    SMALL_BIG_EXT, SMALL_INTEGER_EXT, STRING_EXT,
};
use tab_term::{Atom, Bytes, Term, TermFault, Terms};

/// The first fault of a payload, with so many bytes of it left.
pub fn stop(fault: Fault, left: usize) -> ReadError
    ensures { result ≡ ReadError.At (record { fault = fault; left = left }) }
{
    ReadError::At(Stop { fault, left })
}

/// The next byte, and the bytes after it.
pub fn u8_at(bytes: &[u8]) -> Result<(u8, &[u8]), ReadError>
    ensures { Gives (λ x. (x.0, x.1.now)) result (byte_at bytes.now) }
{
    match bytes {
        [] => Err(stop(Fault::Truncated, 0)),
        [first, rest @ ..] => Ok((*first, rest)),
    }
}

fn u16_at(bytes: &[u8]) -> Result<(u16, &[u8]), ReadError>
    ensures { Gives (λ x. (x.0, x.1.now)) result (number_at w16 bytes.now) }
{
    if bytes.len() < 2 {
        return Err(stop(Fault::Truncated, 0));
    }
    let (front, rest) = bytes.split_at(2);
    Ok((u16::from_be_bytes([front[0], front[1]]), rest))
}

/// The next four bytes as a number, the highest first, and the bytes after them.
pub fn u32_at(bytes: &[u8]) -> Result<(u32, &[u8]), ReadError>
    ensures { Gives (λ x. (x.0, x.1.now)) result (number_at w32 bytes.now) }
{
    if bytes.len() < 4 {
        return Err(stop(Fault::Truncated, 0));
    }
    let (front, rest) = bytes.split_at(4);
    let number = u32::from_be_bytes([front[0], front[1], front[2], front[3]]);
    Ok((number, rest))
}

fn take_at(count: usize, bytes: &[u8]) -> Result<(&[u8], &[u8]), ReadError>
    ensures { Gives (λ x. (x.0.now, x.1.now)) result (bytes_at count bytes.now) }
{
    if bytes.len() < count {
        return Err(stop(Fault::Truncated, 0));
    }
    Ok(bytes.split_at(count))
}

#[tactic(auto, unfolding(crate::specs::Reading::short_text_at))]
fn text8_at(bytes: &[u8]) -> Result<(&[u8], &[u8]), ReadError>
    ensures { Gives (λ x. (x.0.now, x.1.now)) result (short_text_at bytes.now) }
{
    let (count, rest) = u8_at(bytes)?;
    take_at(count as usize, rest)
}

#[tactic(auto, unfolding(crate::specs::Reading::text_at))]
fn text16_at(bytes: &[u8]) -> Result<(&[u8], &[u8]), ReadError>
    ensures { Gives (λ x. (x.0.now, x.1.now)) result (text_at w16 bytes.now) }
{
    let (count, rest) = u16_at(bytes)?;
    take_at(count as usize, rest)
}

#[tactic(auto, unfolding(crate::specs::Reading::text_at))]
fn text32_at(bytes: &[u8]) -> Result<(&[u8], &[u8]), ReadError>
    ensures { Gives (λ x. (x.0.now, x.1.now)) result (text_at w32 bytes.now) }
{
    let (count, rest) = u32_at(bytes)?;
    take_at(count as usize, rest)
}

// ---- integers

#[tactic(auto, unfolding(crate::specs::Reading::small_integer))]
fn small_integer_of(bytes: &[u8]) -> Result<(Term, &[u8]), ReadError>
    ensures { Gives (λ x. (term x.0, x.1.now)) result (small_integer bytes.now) }
{
    let (number, rest) = u8_at(bytes)?;
    Ok((Term::Int(number as i128), rest))
}

#[tactic(auto, unfolding(crate::specs::Reading::integer))]
fn integer_of(bytes: &[u8]) -> Result<(Term, &[u8]), ReadError>
    ensures { Gives (λ x. (term x.0, x.1.now)) result (integer bytes.now) }
{
    let (number, rest) = u32_at(bytes)?;
    Ok((Term::Int(number.cast_signed() as i128), rest))
}

/// The greatest magnitude of an integer of 128 bits.
const TOP: u128 = 0x8000_0000_0000_0000_0000_0000_0000_0000;

/// The number of these bytes, least significant first, unless it is over 2^127.
fn magnitude_of(bytes: &[u8]) -> Option<u128>
    ensures { MatchOption result (2 ^ 127 < low_value bytes.now)
        (λ m. (m ≡ low_value bytes.now) × (m ≤ 2 ^ 127)) }
{
    let mut m: u128 = 0;
    let mut i = bytes.len();
    while i > 0 {
        i -= 1;
        if m > TOP / 256 {
            return None;
        }
        m = m * 256 + bytes[i] as u128;
    }
    if m > TOP { None } else { Some(m) }
}

/// The integer of a sign byte and a magnitude.
fn signed_of(sign: u8, m: u128) -> Option<i128>
    ensures { result ≡ signed_value sign m }
{
    match sign {
        0 => { if m < TOP { Some(m as i128) } else { None } }
        1 => {
            if m == TOP {
                Some(i128::MIN)
            } else if m < TOP {
                Some(-(m as i128))
            } else {
                None
            }
        }
        _ => None,
    }
}

#[tactic(auto, using(crate::proofs::Magnitude::too_great))]
fn big_of(sign: u8, digits: &[u8]) -> Option<i128>
    ensures { result ≡ signed_value sign (low_value digits.now) }
{
    signed_of(sign, magnitude_of(digits)?)
}

fn integer_in(sign: u8, digits: &[u8], left: usize) -> Result<i128, ReadError>
    ensures { Gives (λ z. z) result (integer_is (signed_value sign (low_value digits.now)) left) }
{
    big_of(sign, digits).ok_or_else(|| stop(Fault::Integer, left))
}

#[tactic(auto, unfolding(crate::specs::Reading::small_big))]
fn small_big_of(bytes: &[u8]) -> Result<(Term, &[u8]), ReadError>
    ensures { Gives (λ x. (term x.0, x.1.now)) result (small_big bytes.now) }
{
    let (count, rest) = u8_at(bytes)?;
    let (sign, rest) = u8_at(rest)?;
    let (digits, rest) = take_at(count as usize, rest)?;
    Ok((Term::Int(integer_in(sign, digits, bytes.len() + 1)?), rest))
}

// ---- atoms

fn atom_of(alloc: Global, text: &str, left: usize) -> Result<Atom, ReadError>
    ensures { Gives (λ a. a) result (atom_is text.now left) }
{
    Atom::new(alloc, text).map_err(|fault| match fault {
        TermFault::TooLong => stop(Fault::Atom, left),
        TermFault::NoMemory => ReadError::Memory,
    })
}

#[tactic(auto, using(crate::proofs::LeafLemmas::utf8_here, crate::proofs::LeafLemmas::utf8_not))]
fn utf8_name(alloc: Global, text: &[u8], left: usize) -> Result<Atom, ReadError>
    ensures { Gives (λ a. a) result (utf8_is text.now left) }
{
    match std::str::from_utf8(text) {
        Ok(text) => atom_of(alloc, text, left),
        Err(_) => Err(stop(Fault::Atom, left)),
    }
}

/// Each byte is a character.
#[tactic(auto, using(crate::proofs::LeafLemmas::latin1_more))]
fn latin1_text(alloc: Global, bytes: &[u8]) -> Result<String, ReadError>
    ensures { Gives (λ s. string_bytes s) result (Ok (encode_utf8_all bytes.now)) }
{
    let mut text = String::new(alloc);
    text.reserve(bytes.len())?;
    for byte in bytes {
        text.push(char::from(*byte))?;
    }
    Ok(text)
}

fn latin1_name(alloc: Global, text: &[u8], left: usize) -> Result<Atom, ReadError>
    ensures { Gives (λ a. a) result (latin1_is text.now left) }
{
    let text = latin1_text(alloc, text)?;
    atom_of(alloc, text.as_str(), left)
}

#[tactic(auto, unfolding(crate::specs::Reading::latin1_atom))]
fn latin1_atom_of(alloc: Global, bytes: &[u8]) -> Result<(Term, &[u8]), ReadError>
    ensures { Gives (λ x. (term x.0, x.1.now)) result (latin1_atom bytes.now) }
{
    let (text, rest) = text16_at(bytes)?;
    Ok((Term::Atom(latin1_name(alloc, text, bytes.len() + 1)?), rest))
}

#[tactic(auto, unfolding(crate::specs::Reading::small_latin1_atom))]
fn small_latin1_atom_of(alloc: Global, bytes: &[u8]) -> Result<(Term, &[u8]), ReadError>
    ensures { Gives (λ x. (term x.0, x.1.now)) result (small_latin1_atom bytes.now) }
{
    let (text, rest) = text8_at(bytes)?;
    Ok((Term::Atom(latin1_name(alloc, text, bytes.len() + 1)?), rest))
}

#[tactic(auto, unfolding(crate::specs::Reading::utf8_atom))]
fn utf8_atom_of(alloc: Global, bytes: &[u8]) -> Result<(Term, &[u8]), ReadError>
    ensures { Gives (λ x. (term x.0, x.1.now)) result (utf8_atom bytes.now) }
{
    let (text, rest) = text16_at(bytes)?;
    Ok((Term::Atom(utf8_name(alloc, text, bytes.len() + 1)?), rest))
}

#[tactic(auto, unfolding(crate::specs::Reading::small_utf8_atom))]
fn small_utf8_atom_of(alloc: Global, bytes: &[u8]) -> Result<(Term, &[u8]), ReadError>
    ensures { Gives (λ x. (term x.0, x.1.now)) result (small_utf8_atom bytes.now) }
{
    let (text, rest) = text8_at(bytes)?;
    Ok((Term::Atom(utf8_name(alloc, text, bytes.len() + 1)?), rest))
}

// ---- lists of bytes, and binaries

#[tactic(auto, using(crate::proofs::LeafLemmas::numbers_more))]
fn numbers_of(alloc: Global, bytes: &[u8]) -> Result<Terms, ReadError>
    ensures { Gives (λ ts. ts) result (Ok (numbers bytes.now)) }
{
    let mut items = Vec::with_capacity(alloc, bytes.len())?;
    for byte in bytes {
        items.push(Term::Int(*byte as i128))?;
    }
    Ok(Terms::from_vec(items))
}

#[tactic(auto, unfolding(crate::specs::Reading::string))]
fn string_of(alloc: Global, deepest: bool, bytes: &[u8]) -> Result<(Term, &[u8]), ReadError>
    ensures { Gives (λ x. (term x.0, x.1.now)) result (string deepest bytes.now) }
{
    let (count, rest) = u16_at(bytes)?;
    let (text, rest) = take_at(count as usize, rest)?;
    if count > 0 && deepest {
        return Err(stop(Fault::Depth, bytes.len() + 1));
    }
    Ok((Term::List(numbers_of(alloc, text)?), rest))
}

#[tactic(auto, unfolding(crate::specs::Reading::binary))]
fn binary_of(alloc: Global, bytes: &[u8]) -> Result<(Term, &[u8]), ReadError>
    ensures { Gives (λ x. (term x.0, x.1.now)) result (binary bytes.now) }
{
    let (content, rest) = text32_at(bytes)?;
    Ok((
        Term::Bin(Bytes::from_vec(Vec::from_slice(alloc, content)?)),
        rest,
    ))
}

/// Reads the part after the tag of a term without elements.
#[tactic(auto, unfolding(crate::specs::Reading::leaf))]
pub fn leaf_of(
    alloc: Global,
    deepest: bool,
    tag: u8,
    bytes: &[u8],
) -> Result<(Term, &[u8]), ReadError>
    ensures { Gives (λ x. (term x.0, x.1.now)) result (leaf deepest tag bytes.now) }
{
    match tag {
        SMALL_INTEGER_EXT => small_integer_of(bytes),
        INTEGER_EXT => integer_of(bytes),
        SMALL_BIG_EXT => small_big_of(bytes),
        ATOM_EXT => latin1_atom_of(alloc, bytes),
        SMALL_ATOM_EXT => small_latin1_atom_of(alloc, bytes),
        ATOM_UTF8_EXT => utf8_atom_of(alloc, bytes),
        SMALL_ATOM_UTF8_EXT => small_utf8_atom_of(alloc, bytes),
        NIL_EXT => Ok((Term::List(Terms::from_vec(Vec::new(alloc))), bytes)),
        STRING_EXT => string_of(alloc, deepest, bytes),
        BINARY_EXT => binary_of(alloc, bytes),
        _ => Err(stop(Fault::LeftOut(tag), bytes.len() + 1)),
    }
}
