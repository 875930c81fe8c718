//! Events: how they are written, and how long that is.

ghost use Rattle.std.specs.Prelude.{◌≡◌, ◌≤◌, ◌+◌, ◌++◌, ◌∷◌, length, min, pos};
ghost use Rattle.tab_term.specs.Canon.{canon, canons};
ghost use Rattle.tab_term.specs.Data.{atom, int, list, triple};
ghost use Rattle.tab_term.specs.View.{term};
ghost use Rattle.tab_lists.specs.EventTerms.{event_body, event_term, event_terms, tag_word};
ghost use Rattle.tab_term.specs.Tuples.{five, tid};
ghost use Rattle.tab_etf.specs.Writing.{Writes};

use crate::answers::{put_word, word_len};
use crate::device::Target;
use crate::measuring::{atom_len, field_len, int_len, spelled_len};
use crate::shared::{measure_of, put_shared, shared_len};
use crate::spelling::{put, put_atom, put_int, put_tagged};
use crate::writer::Writer;
use tab_lists::{Detail, EventTerm, EventTerms, SharedEvent};
use tab_term::spelling::{LIST_EXT, NIL_EXT, SMALL_TUPLE_EXT};

/// The first element of every event.
const EVENT: &str = "mnesia_table_event";

// ---- how long they are

/// The length in bytes of the list of the events; `u64::MAX` if it is more.
pub fn events_len(events: &EventTerms) -> u64
    ensures { result ≡ min (length (canon (list events.now))) u64.MAX }
{
    let items = events.as_slice();
    if items.is_empty() {
        return 1;
    }
    all_len(items).saturating_add(field_len(items.len()) + 2)
}

fn all_len(items: &[SharedEvent]) -> u64
    ensures { result ≡ min (length (canons (event_terms items.now))) u64.MAX }
{
    let mut sum: u64 = 0;
    for event in items {
        sum = sum.saturating_add(event_len(event.event()));
    }
    sum
}

/// The length in bytes of the event; `u64::MAX` if it is more.
pub fn event_len(event: &EventTerm) -> u64
    ensures { result ≡ min (length (canon (event_term event.now))) u64.MAX }
{
    body_len(event).saturating_add(word_len(EVENT))
}

/// The length in bytes of `{Tag, What, Id}`, or of `{Tag, Tab, What, Old, Id}`.
fn body_len(event: &EventTerm) -> u64
    ensures { result ≡ min (length (canon (event_body event.now))) u64.MAX }
{
    let len = spelled_len(&event.what)
        .saturating_add(word_len(event.tag.word()))
        .saturating_add(tid_len(event.age));
    match &event.detail {
        Some(detail) => len.saturating_add(detail_len(detail)),
        None => len,
    }
}

/// The length in bytes of the table and the records before.
fn detail_len(detail: &Detail) -> u64
    ensures { result
        ≡ min (length (canon (atom detail.now.table)) + length (canon (list detail.now.old)))
        u64.MAX }
{
    shared_len(&detail.old, measure_of(&detail.old)).saturating_add(atom_len(
        detail.table.as_str().len(),
    ))
}

/// The length in bytes of `{tid, Age}`.
fn tid_len(age: u64) -> u64
    ensures { result ≡ min (length (canon (tid age))) u64.MAX }
{
    age_len(age).saturating_add(word_len("tid"))
}

#[tactic(auto, using(crate::proofs::Lengths::int_length))]
fn age_len(age: u64) -> u64
    ensures { result ≡ length (canon (int (pos age))) }
{
    int_len(i128::from(age))
}

// ---- how they are written

/// Writes the list of the events. None of them is an integer, so it is never a string.
pub fn put_events<W: Target>(writer: &mut Writer<W>, events: &EventTerms)
    requires { length (canon (list events.now)) ≤ 4294967295 }
    ensures { Writes W.contents W.faults writer.old writer.new (canon (list events.now)) }
{
    let items = events.as_slice();
    if items.is_empty() {
        writer.put(&[NIL_EXT]);
        return;
    }
    put_tagged(writer, LIST_EXT, items.len());
    put_all(writer, items);
    writer.put(&[NIL_EXT]);
}

fn put_all<W: Target>(writer: &mut Writer<W>, items: &[SharedEvent])
    requires { length (canons (event_terms items.now)) ≤ 4294967295 }
    ensures { Writes W.contents W.faults writer.old writer.new (canons (event_terms items.now)) }
{
    for event in items {
        put_event(writer, event.event());
    }
}

/// Writes the event. It reads the records before in place.
pub fn put_event<W: Target>(writer: &mut Writer<W>, event: &EventTerm)
    requires { length (canon (event_term event.now)) ≤ 4294967295 }
    ensures { Writes W.contents W.faults writer.old writer.new (canon (event_term event.now)) }
{
    put_word(writer, EVENT);
    match &event.detail {
        Some(detail) => put_detailed(writer, event, detail),
        None => put_simple(writer, event),
    }
}

/// Writes `{Tag, What, Id}`.
fn put_simple<W: Target>(writer: &mut Writer<W>, event: &EventTerm)
    ensures { Writes W.contents W.faults writer.old writer.new
        (canon (triple (atom (tag_word event.now.tag)) (term event.now.what) (tid event.now.age))) }
{
    writer.put(&[SMALL_TUPLE_EXT, 3]);
    put_atom(writer, event.tag.word());
    put(writer, &event.what);
    put_tid(writer, event.age);
}

/// Writes `{Tag, Tab, What, Old, Id}`.
fn put_detailed<W: Target>(writer: &mut Writer<W>, event: &EventTerm, detail: &Detail)
    requires { length (canon (list detail.now.old)) ≤ 4294967295 }
    ensures { Writes W.contents W.faults writer.old writer.new
        (canon (five (atom (tag_word event.now.tag)) (atom detail.now.table) (term event.now.what)
        (list detail.now.old) (tid event.now.age))) }
{
    writer.put(&[SMALL_TUPLE_EXT, 5]);
    put_atom(writer, event.tag.word());
    put_atom(writer, detail.table.as_str());
    put(writer, &event.what);
    put_shared(writer, &detail.old, measure_of(&detail.old));
    put_tid(writer, event.age);
}

/// Writes `{tid, Age}`.
fn put_tid<W: Target>(writer: &mut Writer<W>, age: u64)
    ensures { Writes W.contents W.faults writer.old writer.new (canon (tid age)) }
{
    put_word(writer, "tid");
    put_age(writer, age);
}

#[tactic(auto, unfolding(tab_term::specs::Canon::canon))]
fn put_age<W: Target>(writer: &mut Writer<W>, age: u64)
    ensures { Writes W.contents W.faults writer.old writer.new (canon (int (pos age))) }
{
    put_int(writer, i128::from(age));
}
