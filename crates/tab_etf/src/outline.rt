//! Terms that are given by their parts, and are written without being built.

ghost use Rattle.std.specs.Prelude.{◌≡◌, ◌<◌, ◌≤◌, ◌∷◌, min, length, MatchOption, IfSome};
ghost use Rattle.tab_term.specs.Canon.{canon};
ghost use Rattle.tab_term.specs.Data.{list};
ghost use Rattle.tab_lists.specs.EventTerms.{event_term};
ghost use Rattle.tab_etf.specs.Outlines.{leaf_term, body_term, outline_term, head_canon, OfHead, OfBody, OfOutline, IsShort, IsShortOutline, IsWritable};
ghost use Rattle.tab_etf.specs.Writing.{Writes};

use crate::answers::{answers_len, put_answers};
use crate::device::Target;
use crate::events::{event_len, events_len, put_event, put_events};
use crate::measuring::{LONGEST, atom_len, int_len, list_len, spelled_len};
use crate::shared::{Measure, measure_of, put_shared, shared_len};
use crate::spelling::{put, put_atom, put_int, put_list};
use crate::writer::Writer;
use tab_lists::{Answers, EventTerm, EventTerms, SharedTerms};
use tab_term::spelling::SMALL_TUPLE_EXT;
use tab_term::{Term, Terms};

/// A part of a term.
#[derive(Clone, Copy)]
pub enum Leaf<'a> {
    /// An atom of this text.
    Word(&'a str),
    Number(u64),
    Held(&'a Term),
    /// A list of these elements.
    List(&'a Terms),
    /// A list of these elements, with its measure.
    SharedList(&'a SharedTerms, Measure),
    /// The list of these answers, with how many bytes it takes.
    Answers(&'a Answers, u64),
    /// An event, with how many bytes it takes.
    Event(&'a EventTerm, u64),
    /// The list of these events, with how many bytes it takes.
    Events(&'a EventTerms, u64),
}

impl<'a> Leaf<'a> {
    /// A list of these elements, which are measured once.
    pub fn shared(elements: &'a SharedTerms) -> Leaf<'a>
        ensures term { leaf_term result ≡ list elements.now }
        ensures short { IsShort result }
    {
        Leaf::SharedList(elements, measure_of(elements))
    }

    /// The list of these answers, which are measured once.
    pub fn answers(answers: &'a Answers) -> Leaf<'a>
        ensures term { leaf_term result ≡ list answers.now }
        ensures short { IsShort result }
    {
        Leaf::Answers(answers, answers_len(answers))
    }

    /// An event, which is measured once.
    pub fn event(event: &'a EventTerm) -> Leaf<'a>
        ensures term { leaf_term result ≡ event_term event.now }
        ensures short { IsShort result }
    {
        Leaf::Event(event, event_len(event))
    }

    /// The list of these events, which are measured once.
    pub fn events(events: &'a EventTerms) -> Leaf<'a>
        ensures term { leaf_term result ≡ list events.now }
        ensures short { IsShort result }
    {
        Leaf::Events(events, events_len(events))
    }
}

/// One part, or a tuple of parts.
#[derive(Clone, Copy)]
pub enum Body<'a> {
    One(Leaf<'a>),
    Two(Leaf<'a>, Leaf<'a>),
    Three(Leaf<'a>, Leaf<'a>, Leaf<'a>),
    Four(Leaf<'a>, Leaf<'a>, Leaf<'a>, Leaf<'a>),
}

/// A body, possibly in a pair with the second part, and that in a pair with the first: `{first, {second, body}}`.
#[derive(Clone, Copy)]
pub struct Outline<'a> {
    pub first: Option<Leaf<'a>>,
    pub second: Option<Leaf<'a>>,
    pub body: Body<'a>,
}

#[tactic(auto, unfolding(tab_term::specs::Canon::canon))]
fn put_leaf<W: Target>(writer: &mut Writer<W>, leaf: &Leaf)
    requires { IsWritable leaf.now }
    ensures { Writes W.contents W.faults writer.old writer.new (canon (leaf_term leaf.now)) }
{
    match leaf {
        Leaf::Word(text) => put_atom(writer, text),
        Leaf::Number(number) => put_int(writer, i128::from(*number)),
        Leaf::Held(held) => put(writer, held),
        Leaf::List(elements) => put_list(writer, elements),
        Leaf::SharedList(elements, measure) => put_shared(writer, elements, *measure),
        Leaf::Answers(answers, _) => put_answers(writer, answers),
        Leaf::Event(event, _) => put_event(writer, event),
        Leaf::Events(events, _) => put_events(writer, events),
    }
}

#[tactic(auto, using(crate::proofs::WritingLemmas::writes_then, crate::proofs::WritingLemmas::writes_none))]
fn put_head<W: Target>(writer: &mut Writer<W>, head: &Option<Leaf>)
    requires { OfHead IsWritable head.now }
    ensures { Writes W.contents W.faults writer.old writer.new (head_canon head.now) }
{
    if let Some(leaf) = head {
        writer.put(&[SMALL_TUPLE_EXT, 2]);
        put_leaf(writer, leaf);
    }
}

#[tactic(auto, using(crate::proofs::OutlinesLemmas::writes_pair, crate::proofs::OutlinesLemmas::writes_triple, crate::proofs::OutlinesLemmas::writes_four))]
fn put_body<W: Target>(writer: &mut Writer<W>, body: &Body)
    requires { OfBody IsWritable body.now }
    ensures { Writes W.contents W.faults writer.old writer.new (canon (body_term body.now)) }
{
    match body {
        Body::One(only) => put_leaf(writer, only),
        Body::Two(first, second) => {
            writer.put(&[SMALL_TUPLE_EXT, 2]);
            put_leaf(writer, first);
            put_leaf(writer, second);
        }
        Body::Three(first, second, third) => {
            writer.put(&[SMALL_TUPLE_EXT, 3]);
            put_leaf(writer, first);
            put_leaf(writer, second);
            put_leaf(writer, third);
        }
        Body::Four(first, second, third, fourth) => {
            writer.put(&[SMALL_TUPLE_EXT, 4]);
            put_leaf(writer, first);
            put_leaf(writer, second);
            put_leaf(writer, third);
            put_leaf(writer, fourth);
        }
    }
}

/// Writes the canonical encoding.
#[tactic(auto, using(crate::proofs::OutlinesLemmas::writes_outline))]
pub fn put_outline<W: Target>(writer: &mut Writer<W>, outline: &Outline)
    requires { OfOutline IsWritable outline.now }
    ensures { Writes W.contents W.faults writer.old writer.new (canon (outline_term outline.now)) }
{
    put_head(writer, &outline.first);
    put_head(writer, &outline.second);
    put_body(writer, &outline.body);
}

#[tactic(auto, using(crate::proofs::Lengths::int_length, crate::proofs::Lengths::atom_length))]
fn leaf_len(leaf: &Leaf) -> u64
    requires { IsShort leaf.now }
    ensures { result ≡ min (length (canon (leaf_term leaf.now))) u64.MAX }
{
    match leaf {
        Leaf::Word(text) => atom_len(text.len()),
        Leaf::Number(number) => int_len(i128::from(*number)),
        Leaf::Held(held) => spelled_len(held),
        Leaf::List(elements) => list_len(elements),
        Leaf::SharedList(elements, measure) => shared_len(elements, *measure),
        Leaf::Answers(_, len) | Leaf::Event(_, len) | Leaf::Events(_, len) => *len,
    }
}

fn head_len(head: &Option<Leaf>) -> u64
    requires { OfHead IsShort head.now }
    ensures { result ≡ min (length (head_canon head.now)) u64.MAX }
{
    match head {
        Some(leaf) => leaf_len(leaf).saturating_add(2),
        None => 0,
    }
}

#[tactic(auto, using(crate::proofs::OutlinesLemmas::pair_length, crate::proofs::OutlinesLemmas::triple_length, crate::proofs::OutlinesLemmas::four_length))]
fn body_len(body: &Body) -> u64
    requires { OfBody IsShort body.now }
    ensures { result ≡ min (length (canon (body_term body.now))) u64.MAX }
{
    match body {
        Body::One(only) => leaf_len(only),
        Body::Two(first, second) => leaf_len(first)
            .saturating_add(leaf_len(second))
            .saturating_add(2),
        Body::Three(first, second, third) => leaf_len(first)
            .saturating_add(leaf_len(second))
            .saturating_add(leaf_len(third))
            .saturating_add(2),
        Body::Four(first, second, third, fourth) => leaf_len(first)
            .saturating_add(leaf_len(second))
            .saturating_add(leaf_len(third))
            .saturating_add(leaf_len(fourth))
            .saturating_add(2),
    }
}

/// The length of the payload: the byte 131 and the canonical encoding. None if it is over 4,294,967,295 bytes.
#[tactic(auto, using(crate::proofs::OutlinesLemmas::outline_length))]
pub fn outline_len(outline: &Outline) -> Option<u64>
    requires { IsShortOutline outline.now }
    ensures len { MatchOption result (4294967295 < length (131 ∷ canon (outline_term outline.now)))
        (λ n. (n ≡ length (131 ∷ canon (outline_term outline.now))) × (n ≤ 4294967295)) }
    ensures fits { IfSome result (λ _. OfOutline IsWritable outline.now) }
{
    let len = head_len(&outline.first)
        .saturating_add(head_len(&outline.second))
        .saturating_add(body_len(&outline.body))
        .saturating_add(1);
    if len <= LONGEST { Some(len) } else { None }
}
