//! Frames of a few words and numbers, which are appended with no outline of them.

ghost use Rattle.std.specs.Prelude.{◌≡◌, ◌<◌, ◌≤◌, ◌++◌, ◌∷◌, ◌↔◌, [], pos, None, length, OnOk, OnErr, Err};
ghost use Rattle.tab_term.specs.Canon.{canon, int_tag, int_contents, magnitude};
ghost use Rattle.tab_term.specs.Data.{pair};
ghost use Rattle.tab_etf.specs.Briefs.{token_term, brief_term, IsShortToken, IsShortBrief, HasRoom, AddsInPlace};
ghost use Rattle.tab_etf.specs.Frames.{frame};
ghost use Rattle.tab_etf.specs.Outlines.{leaf_term, outline_term, IsShort, IsShortOutline};

use crate::encoding::{EncodeFault, frame_head};
use crate::measuring::int_len;
use crate::outline::{Body, Leaf, Outline};
use crate::spelling::tagged;
use tab_term::spelling::{
    INTEGER_EXT, SMALL_ATOM_UTF8_EXT, SMALL_BIG_EXT, SMALL_INTEGER_EXT, SMALL_TUPLE_EXT, low_first,
    significant_of,
};

/// A word or a number.
#[derive(Clone, Copy)]
pub enum Token<'a> {
    /// An atom of this text.
    Word(&'a str),
    Number(u64),
}

/// One token, or a pair of two.
#[derive(Clone, Copy)]
pub enum Brief<'a> {
    One(Token<'a>),
    Two(Token<'a>, Token<'a>),
}

impl<'a> Token<'a> {
    /// The token as a part of an outline.
    pub fn leaf(self) -> Leaf<'a>
        requires { IsShortToken self }
        ensures term { leaf_term result ≡ token_term self.entry }
        ensures short { IsShort result }
    {
        match self {
            Token::Word(text) => Leaf::Word(text),
            Token::Number(number) => Leaf::Number(number),
        }
    }
}

impl<'a> Brief<'a> {
    /// The outline of the same term.
    pub fn outline(self) -> Outline<'a>
        requires { IsShortBrief self }
        ensures alone { result.first ≡ None }
        ensures term { outline_term result ≡ brief_term self.entry }
        ensures short { IsShortOutline result }
    {
        let body = match self {
            Brief::One(only) => Body::One(only.leaf()),
            Brief::Two(left, right) => Body::Two(left.leaf(), right.leaf()),
        };
        Outline {
            first: None,
            second: None,
            body,
        }
    }
}

// ---- lengths

#[tactic(auto, using(crate::proofs::BriefsLemmas::word_length, crate::proofs::Lengths::int_length))]
fn token_len(token: &Token) -> u64
    requires { IsShortToken token.now }
    ensures len { result ≡ length (canon (token_term token.now)) }
    ensures small { result ≤ 257 }
{
    match token {
        Token::Word(text) => text.len() as u64 + 2,
        Token::Number(number) => int_len(i128::from(*number)),
    }
}

#[tactic(auto, using(crate::proofs::OutlinesLemmas::pair_length))]
fn brief_len(brief: &Brief) -> u64
    requires { IsShortBrief brief.now }
    ensures len { result ≡ length (canon (brief_term brief.now)) }
    ensures small { result ≤ 516 }
{
    match brief {
        Brief::One(only) => token_len(only),
        Brief::Two(left, right) => token_len(left) + token_len(right) + 2,
    }
}

// ---- bytes, for which there is room

/// Adds the bytes one by one: words are short, so a call that copies them would cost more.
fn add_all(bytes: &[u8], out: &mut Vec<u8>)
    requires { HasRoom out.old bytes.now }
    ensures { AddsInPlace out.old out.new bytes.now }
{
    for byte in bytes {
        out.push_reserved(*byte);
    }
}

fn add_two(first: u8, second: u8, out: &mut Vec<u8>)
    requires { HasRoom out.old (first ∷ second ∷ []) }
    ensures { AddsInPlace out.old out.new (first ∷ second ∷ []) }
{
    out.push_reserved(first);
    out.push_reserved(second);
}

fn add_number(number: u64, out: &mut Vec<u8>)
    requires { HasRoom out.old (int_tag (pos number) ∷ int_contents (pos number)) }
    ensures { AddsInPlace out.old out.new (int_tag (pos number) ∷ int_contents (pos number)) }
{
    if number < 256 {
        add_two(SMALL_INTEGER_EXT, number as u8, out);
    } else if number < 0x8000_0000 {
        add_all(&tagged(INTEGER_EXT, number as u32), out);
    } else {
        add_big(number, out);
    }
}

fn add_big(number: u64, out: &mut Vec<u8>)
    requires { HasRoom out.old (110 ∷ length (magnitude number) ∷ 0 ∷ magnitude number) }
    ensures { AddsInPlace out.old out.new (110 ∷ length (magnitude number) ∷ 0 ∷ magnitude number) }
{
    let bytes = low_first(u128::from(number));
    let digits = significant_of(&bytes);
    add_all(&[SMALL_BIG_EXT, digits.len() as u8, 0], out);
    add_all(digits, out);
}

fn add_token(token: &Token, out: &mut Vec<u8>)
    requires short { IsShortToken token.now }
    requires room { HasRoom out.old (canon (token_term token.now)) }
    ensures { AddsInPlace out.old out.new (canon (token_term token.now)) }
{
    match token {
        Token::Word(text) => {
            add_two(SMALL_ATOM_UTF8_EXT, text.len() as u8, out);
            add_all(text.as_bytes(), out);
        }
        Token::Number(number) => add_number(*number, out),
    }
}

#[tactic(auto, using(crate::proofs::OutlinesLemmas::pair_length))]
fn add_brief(brief: &Brief, out: &mut Vec<u8>)
    requires short { IsShortBrief brief.now }
    requires room { HasRoom out.old (canon (brief_term brief.now)) }
    ensures { AddsInPlace out.old out.new (canon (brief_term brief.now)) }
{
    match brief {
        Brief::One(only) => add_token(only, out),
        Brief::Two(left, right) => {
            add_two(SMALL_TUPLE_EXT, 2, out);
            add_token(left, out);
            add_token(right, out);
        }
    }
}

/// Adds the frame of `{First, Brief}`, as `append_outline` adds that of an outline.
///
/// Its length is known from those of its words and numbers, so it is written into the vector's own room at once.
pub fn append_brief(first: &Token, brief: &Brief, out: &mut Vec<u8>) -> Result<(), EncodeFault>
    requires first { IsShortToken first.now }
    requires brief { IsShortBrief brief.now }
    ensures ok { OnOk result
        (out.new.items
        ≡ out.old.items ++ frame (131 ∷ canon (pair (token_term first.now) (brief_term brief.now)))) }
    ensures too_long { (result ≡ Err EncodeFault.TooLong)
        ↔ (4294967295 < length (131 ∷ canon (pair (token_term first.now) (brief_term brief.now)))) }
    ensures err { OnErr result (out.new.items ≡ out.old.items) }
{
    let len = token_len(first) + brief_len(brief) + 3;
    out.reserve(len as usize + 4)?;
    add_all(&frame_head(len as u32), out);
    add_two(SMALL_TUPLE_EXT, 2, out);
    add_token(first, out);
    add_brief(brief, out);
    Ok(())
}
