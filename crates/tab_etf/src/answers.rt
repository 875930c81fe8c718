//! The answers of a transaction: how they are written, and how long that is.

ghost use Rattle.std.specs.Prelude.{◌≡◌, ◌≤◌, ◌+◌, ◌∷◌, length, min};
ghost use Rattle.tab_term.specs.Canon.{canon, canons};
ghost use Rattle.tab_term.specs.Data.{atom, list};
ghost use Rattle.tab_lists.specs.Answers.{answer_term, answers as terms_of};
ghost use Rattle.tab_etf.specs.Writing.{Writes};

use crate::device::Target;
use crate::measuring::{atom_len, field_len, spelled_len};
use crate::shared::{measure_of, put_shared, shared_len};
use crate::spelling::{put, put_atom, put_tagged};
use crate::writer::Writer;
use tab_lists::{Answer, Answers};
use tab_term::spelling::{LIST_EXT, NIL_EXT, SMALL_TUPLE_EXT};

// ---- how long they are

/// The number of bytes before the value of `{Word, Value}`.
pub(crate) fn word_len(word: &str) -> u64
    requires { length word.now ≤ 255 }
    ensures value { result ≡ 2 + length (canon (atom word.now)) }
    ensures small { result ≤ 259 }
{
    atom_len(word.len()) + 2
}

/// The length in bytes of the list of the answers; `u64::MAX` if it is more.
#[cycle(len)]
pub fn answers_len(answers: &Answers) -> u64
    ensures { result ≡ min (length (canon (list answers.now))) u64.MAX }
{
    let items = answers.as_slice();
    if items.is_empty() {
        return 1;
    }
    all_len(items).saturating_add(field_len(items.len()) + 2)
}

#[cycle(len)]
fn answer_len(answer: &Answer) -> u64
    ensures { result ≡ min (length (canon (answer_term answer.now))) u64.MAX }
{
    match answer {
        Answer::Done => atom_len("ok".len()),
        Answer::Found(rows) => shared_len(rows, measure_of(rows)),
        Answer::Aborted(reason) => spelled_len(reason).saturating_add(word_len("aborted")),
        Answer::Atomic(inner) => answers_len(inner).saturating_add(word_len("atomic")),
    }
}

#[cycle(len)]
fn all_len(items: &[Answer]) -> u64
    ensures { result ≡ min (length (canons (terms_of items.now))) u64.MAX }
{
    let mut sum: u64 = 0;
    for answer in items {
        sum = sum.saturating_add(answer_len(answer));
    }
    sum
}

// ---- how they are written

/// Writes the bytes before the value of `{Word, Value}`.
#[tactic(auto, using(crate::proofs::WritingLemmas::writes_then))]
pub(crate) fn put_word<W: Target>(writer: &mut Writer<W>, word: &str)
    requires { length word.now ≤ 255 }
    ensures { Writes W.contents W.faults writer.old writer.new (104 ∷ 2 ∷ canon (atom word.now)) }
{
    writer.put(&[SMALL_TUPLE_EXT, 2]);
    put_atom(writer, word);
}

/// Writes the list of the answers. None of them is an integer, so it is never a string.
#[cycle(put)]
pub fn put_answers<W: Target>(writer: &mut Writer<W>, answers: &Answers)
    requires { length (canon (list answers.now)) ≤ 4294967295 }
    ensures { Writes W.contents W.faults writer.old writer.new (canon (list answers.now)) }
{
    let items = answers.as_slice();
    if items.is_empty() {
        writer.put(&[NIL_EXT]);
        return;
    }
    put_tagged(writer, LIST_EXT, items.len());
    put_all(writer, items);
    writer.put(&[NIL_EXT]);
}

#[cycle(put)]
fn put_answer<W: Target>(writer: &mut Writer<W>, answer: &Answer)
    requires { length (canon (answer_term answer.now)) ≤ 4294967295 }
    ensures { Writes W.contents W.faults writer.old writer.new (canon (answer_term answer.now)) }
{
    match answer {
        Answer::Done => put_atom(writer, "ok"),
        Answer::Found(rows) => put_shared(writer, rows, measure_of(rows)),
        Answer::Aborted(reason) => {
            put_word(writer, "aborted");
            put(writer, reason);
        }
        Answer::Atomic(inner) => {
            put_word(writer, "atomic");
            put_answers(writer, inner);
        }
    }
}

#[cycle(put)]
fn put_all<W: Target>(writer: &mut Writer<W>, items: &[Answer])
    requires { length (canons (terms_of items.now)) ≤ 4294967295 }
    ensures { Writes W.contents W.faults writer.old writer.new (canons (terms_of items.now)) }
{
    for answer in items {
        put_answer(writer, answer);
    }
}
