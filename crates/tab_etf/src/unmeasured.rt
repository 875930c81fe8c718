//! Frames that are appended in one walk of the lists that they hold: the length of the frame is put in once it is known.

ghost use Rattle.std.specs.Prelude.{◌≡◌, ◌<◌, ◌≤◌, ◌*◌, ◌++◌, ◌∷◌, [], IsTrue, IsFalse, min, length, if◌then◌else◌, IfOk, OnErr, codes};
ghost use Rattle.tab_term.specs.Canon.{canon, canons};
ghost use Rattle.tab_term.specs.Data.{atom, list, pair};
ghost use Rattle.tab_term.specs.View.{term};
ghost use Rattle.tab_lists.specs.Answers.{answer_term, answers as terms_of};
ghost use Rattle.tab_etf.specs.Frames.{frame};
ghost use Rattle.tab_etf.specs.Listings.{Adds, IsPast, unmeasured_term};
ghost use Rattle.tab_etf.specs.Outlines.{leaf_term, IsWritable};

use crate::encoding::append;
use crate::listing::{alone, append_list, put_number};
use crate::measuring::LONGEST;
use crate::outline::{Body, Leaf, Outline};
use crate::spelling::tagged;
use std::alloc::AllocError;
use tab_lists::{Answer, Answers, SharedTerms};
use tab_term::Term;
use tab_term::spelling::{LIST_EXT, NIL_EXT, SMALL_TUPLE_EXT};

/// The room that a frame reserves at its beginning, so that a short one is one allocation.
const ROOM: usize = 512;

/// The encoding of `ok`.
const OK: &[u8] = b"w\x02ok";

/// The encoding of `{atomic, Value}` before the value.
const ATOMIC: &[u8] = b"h\x02w\x06atomic";

/// A value that is appended and not measured before.
#[derive(Clone, Copy)]
pub enum Unmeasured<'a> {
    /// A list of these elements.
    List(&'a SharedTerms),
    /// `{atomic, Answers}`.
    Atomic(&'a Answers),
}

/// Adds `{aborted, Reason}`.
fn append_aborted(reason: &Term, out: &mut Vec<u8>) -> Result<(), AllocError>
    ensures ok { IfOk result
        (λ _. out.new.items
        ≡ out.old.items ++ canon (pair (atom (codes "aborted")) (term reason.now))) }
    ensures err { OnErr result (out.new.items ≡ out.old.items) }
{
    let aborted = Outline {
        first: None,
        second: None,
        body: Body::Two(Leaf::Word("aborted"), Leaf::Held(reason)),
    };
    append(&aborted, &[], 0, out)
}

// Each of these appends the canonical encoding, if the bytes are then at most about `most`. On false and on an error a
// beginning of it may be appended.

#[cycle(append)]
fn append_answers(answers: &Answers, most: usize, out: &mut Vec<u8>) -> Result<bool, AllocError>
    ensures ok { IfOk result
        (λ within. IsTrue within → out.new.items ≡ out.old.items ++ canon (list answers.now)) }
    ensures over { IfOk result
        (λ within. IsFalse within
        → IsPast most (length out.old.items) (length (canon (list answers.now)))) }
    ensures part { Adds out.old.items out.new.items }
{
    let items = answers.as_slice();
    if items.is_empty() {
        out.push(NIL_EXT)?;
        return Ok(true);
    }
    if items.len() >= 0xffff_ffff {
        return Ok(false);
    }
    out.extend_from_slice(&tagged(LIST_EXT, items.len() as u32))?;
    if !append_all(items, most, out)? {
        return Ok(false);
    }
    out.push(NIL_EXT)?;
    Ok(true)
}

#[cycle(append)]
fn append_answer(answer: &Answer, most: usize, out: &mut Vec<u8>) -> Result<bool, AllocError>
    ensures ok { IfOk result
        (λ within. IsTrue within
        → out.new.items ≡ out.old.items ++ canon (answer_term answer.now)) }
    ensures over { IfOk result
        (λ within. IsFalse within
        → IsPast most (length out.old.items) (length (canon (answer_term answer.now)))) }
    ensures part { Adds out.old.items out.new.items }
{
    match answer {
        Answer::Done => {
            out.extend_from_slice(OK)?;
            Ok(out.len() <= most)
        }
        Answer::Found(rows) => append_list(rows, most, out),
        Answer::Aborted(reason) => {
            append_aborted(reason, out)?;
            Ok(out.len() <= most)
        }
        Answer::Atomic(inner) => {
            out.extend_from_slice(ATOMIC)?;
            append_answers(inner, most, out)
        }
    }
}

#[cycle(append)]
fn append_all(items: &[Answer], most: usize, out: &mut Vec<u8>) -> Result<bool, AllocError>
    ensures ok { IfOk result
        (λ within. IsTrue within → out.new.items ≡ out.old.items ++ canons (terms_of items.now)) }
    ensures over { IfOk result
        (λ within. IsFalse within
        → IsPast most (length out.old.items) (length (canons (terms_of items.now)))) }
    ensures part { Adds out.old.items out.new.items }
{
    for answer in items {
        if !append_answer(answer, most, out)? {
            return Ok(false);
        }
    }
    Ok(true)
}

fn append_value(value: &Unmeasured, most: usize, out: &mut Vec<u8>) -> Result<bool, AllocError>
    ensures ok { IfOk result
        (λ within. IsTrue within
        → out.new.items ≡ out.old.items ++ canon (unmeasured_term value.now)) }
    ensures over { IfOk result
        (λ within. IsFalse within
        → IsPast most (length out.old.items) (length (canon (unmeasured_term value.now)))) }
    ensures part { Adds out.old.items out.new.items }
{
    match value {
        Unmeasured::List(elements) => append_list(elements, most, out),
        Unmeasured::Atomic(answers) => {
            out.extend_from_slice(ATOMIC)?;
            append_answers(answers, most, out)
        }
    }
}

/// Appends the frame of `{First, Value}` if it takes at most `most` bytes, in one walk of each list.
///
/// On false and on an error the bytes are as before. A list counts with each of its elements, also one that is written
/// as a string.
pub fn append_pair_within(
    first: &Leaf,
    value: &Unmeasured,
    most: usize,
    out: &mut Vec<u8>,
) -> Result<bool, AllocError>
    requires { IsWritable first.now }
    ensures ok { IfOk result
        (λ within. out.new.items
        ≡ out.old.items
        ++ (if within then frame
        (131 ∷ canon (pair (leaf_term first.now) (unmeasured_term value.now))) else [])) }
    ensures within { IfOk result
        (λ within. IsTrue within
        → length (frame (131 ∷ canon (pair (leaf_term first.now) (unmeasured_term value.now))))
        ≤ most) }
    ensures over { IfOk result
        (λ within. IsFalse within
        → min most 4294967295
        < 2 * length (frame
        (131 ∷ canon (pair (leaf_term first.now) (unmeasured_term value.now))))) }
    ensures err { OnErr result (out.new.items ≡ out.old.items) }
{
    let start = out.len();
    let most = most.min(LONGEST as usize);
    append(
        &alone(*first),
        &[0, 0, 0, 0, 131, SMALL_TUPLE_EXT, 2],
        ROOM,
        out,
    )?;
    match append_value(value, start.saturating_add(most), out) {
        Ok(within) => {
            let len = out.len() - start;
            if within && len <= most {
                put_number(out, start, (len - 4) as u32);
                return Ok(true);
            }
            out.truncate(start);
            Ok(false)
        }
        Err(fault) => {
            out.truncate(start);
            Err(fault)
        }
    }
}
