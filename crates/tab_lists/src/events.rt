//! Events as they are told, given by their parts.

ghost use Rattle.std.specs.Prelude.{◌≡◌, ◌≤◌, ◌+◌, ◌==◌, ◌++◌, ◌∷◌, [], OnOk, OnErr, IfOk, length, min, vec_len, vec_capacity, Some, None};
ghost use Rattle.tab_term.specs.Data.{none, count, plain_terms, terms_list};
ghost use Rattle.tab_lists.specs.EventTerms.{tag_word, event_term, event_terms};
ghost use Rattle.tab_term.specs.Memory.{event_memory, event_memories};
ghost use Rattle.tab_lists.specs.EventsForms.{events_in};
ghost use Rattle.tab_lists.specs.declared.events.EventTerm.{EventTerm};
ghost use Rattle.tab_lists.specs.declared.events.EventsForm.TheVariants as form;

use crate::shared_terms::SharedTerms;
use std::alloc::{AllocError, Global};
use std::marker::Model;
use std::slice;
use std::sync::Arc;
use tab_term::{Atom, Term};

/// What was done, as an event says it.
#[derive(Clone, Copy, Debug, PartialEq, Eq)]
pub enum Tag {
    Write,
    Delete,
    DeleteObject,
}

impl Tag {
    /// The text of its atom.
    pub fn word(self) -> &'static str
        ensures word { result.now ≡ tag_word self }
        ensures short { length result.now ≤ 255 }
    {
        match self {
            Tag::Write => "write",
            Tag::Delete => "delete",
            Tag::DeleteObject => "delete_object",
        }
    }
}

/// What a detailed event tells besides: the table, and the records of the key just before.
pub struct Detail {
    pub table: Atom,
    pub old: SharedTerms,
}

/// The parts of an event's term. The records before are shared with the table.
pub struct EventTerm {
    pub tag: Tag,
    /// The record, or `{Tab, Key}`.
    pub what: Term,
    /// Of a detailed event.
    pub detail: Option<Detail>,
    pub age: u64,
}

// A derived drop would be expanded, field by field, at each exit of each function that holds one of these.
impl Drop for Detail {
    fn drop(self) {
        let Detail { table, old } = self;
        drop((table, old));
    }
}

impl Drop for EventTerm {
    fn drop(self) {
        let EventTerm {
            tag: _,
            what,
            detail,
            age: _,
        } = self;
        drop((what, detail));
    }
}

impl EventTerm {
    /// Of a simple event. Takes no memory.
    pub fn simple(tag: Tag, what: Term, age: u64) -> EventTerm
        ensures { result ≡ record { tag = tag; what = what; detail = None; age = age } }
    {
        EventTerm {
            tag,
            what,
            detail: None,
            age,
        }
    }

    /// Of a detailed event. Takes no memory.
    pub fn detailed(tag: Tag, table: Atom, what: Term, old: SharedTerms, age: u64) -> EventTerm
        ensures { result
            ≡ record {
              tag = tag;
              what = what;
              detail = Some
                  (record { table = table; old = old });
              age = age;
            } }
    {
        EventTerm {
            tag,
            what,
            detail: Some(Detail { table, old }),
            age,
        }
    }

    /// The bytes of the event's record or key, as `Term::memory` counts them. The records before are shared with the table.
    #[tactic(auto, using(crate::proofs::EventsLemmas::event_bytes))]
    pub fn memory(&self) -> u64
        ensures { result ≡ min (event_memory (event_term self.now)) u64.MAX }
    {
        self.what.memory()
    }
}

/// An event behind a count of those who are told it.
pub struct SharedEvent {
    held: Arc<EventTerm, Global>,
}

impl Drop for SharedEvent {
    fn drop(self) {
        let SharedEvent { held } = self;
        drop(held);
    }
}

impl Model for SharedEvent {
    ghost use Rattle.std.specs.Coded.{codes};
    ghost use Rattle.tab_term.specs.Code.{term_code, terms_code, pairs_code};
    ghost use Rattle.tab_lists.specs.declared.events.EventTerm.{EventTerm};

    ghost Value = { EventTerm };

    ghost coded = { Prim.hlevel (codes, term_code, terms_code, pairs_code) };

    ghost view = { λ a. a.held.value };
}

impl SharedEvent {
    /// An event that is shared with no one yet.
    pub fn new(alloc: Global, event: EventTerm) -> Result<SharedEvent, AllocError>
        ensures { IfOk result (λ e. e ≡ event) }
    {
        Ok(SharedEvent {
            held: Arc::new(alloc, event)?,
        })
    }

    /// The same event. It allocates nothing: the error is a count of owners that is full, at 2^63.
    pub fn try_clone(&self) -> Result<SharedEvent, AllocError>
        ensures { IfOk result (λ e. e ≡ self.now) }
    {
        Ok(SharedEvent {
            held: Arc::try_clone(&self.held)?,
        })
    }

    /// The event, which is shared.
    pub fn event(&self) -> &EventTerm
        ensures { result.now ≡ self.now }
    {
        &self.held
    }
}

/// The events of a commit, in their order. Contracts see the terms that they are.
pub struct EventTerms {
    alloc: Global,
    events: EventsForm,
}

/// How the events are kept: one, as most commits have, takes no list; none and several stand in a vector.
pub enum EventsForm {
    One(SharedEvent),
    Many(Vec<SharedEvent>),
}

// A derived drop would be expanded, variant by variant, at each exit of each function that holds events.
impl Drop for EventsForm {
    fn drop(self) {
        match self {
            EventsForm::One(event) => drop(event),
            EventsForm::Many(events) => drop(events),
        }
    }
}

impl EventsForm {
    /// One event more behind the one that this is, in a vector with room for both.
    fn with(self, mut both: Vec<SharedEvent>, event: SharedEvent) -> EventsForm
        requires room { vec_len both + 2 ≤ vec_capacity both }
        requires none { both.items ≡ [] }
        requires one { (e : EventTerm) × (self ≡ form.One e) }
        ensures { events_in result ≡ events_in self ++ event ∷ [] }
    {
        if let EventsForm::One(first) = self {
            both.push_reserved(first);
            both.push_reserved(event);
        }
        EventsForm::Many(both)
    }
}

impl Drop for EventTerms {
    fn drop(self) {
        let EventTerms { alloc: _, events } = self;
        drop(events);
    }
}

impl Model for EventTerms {
    ghost use Rattle.tab_term.specs.Data.{PlainTerms};
    ghost use Rattle.tab_term.specs.Code.{terms_code};

    ghost Value = { PlainTerms };

    ghost coded = { terms_code };

    ghost use Rattle.tab_lists.specs.EventTerms.{event_terms};
    ghost use Rattle.tab_lists.specs.EventsForms.{events_in};

    ghost view = { λ a. event_terms (events_in a.events) };
}

impl EventTerms {
    /// No events. Takes no memory.
    pub fn new(alloc: Global) -> EventTerms
        ensures { result ≡ none }
    {
        EventTerms {
            alloc,
            events: EventsForm::Many(Vec::new(alloc)),
        }
    }

    /// One event more, behind the others. The first takes no memory.
    #[tactic(auto, using(crate::proofs::EventsLemmas::events_push))]
    pub fn push(&mut self, event: SharedEvent) -> Result<(), AllocError>
        ensures ok { OnOk result
            (self.new ≡ plain_terms (terms_list self.old ++ event_term event ∷ [])) }
        ensures err { OnErr result (self.new ≡ self.old) }
    {
        match &mut self.events {
            EventsForm::Many(events) if !events.is_empty() => {
                events.push(event)?;
                return Ok(());
            }
            EventsForm::Many(_) => {
                self.events = EventsForm::One(event);
                return Ok(());
            }
            EventsForm::One(_) => {}
        }
        let both = Vec::with_capacity(self.alloc, 2)?;
        let none = EventsForm::Many(Vec::new(self.alloc));
        let first = std::mem::replace(&mut self.events, none);
        self.events = first.with(both, event);
        Ok(())
    }

    /// Whether there are none.
    #[tactic(auto, using(crate::proofs::EventsLemmas::count_events))]
    pub fn is_empty(&self) -> bool
        ensures { result ≡ (count self.now == 0) }
    {
        self.as_slice().is_empty()
    }

    /// The bytes of the events' records and keys, as `Term::memory` counts them.
    pub fn memory(&self) -> u64
        ensures { result ≡ min (event_memories self.now) u64.MAX }
    {
        let mut sum: u64 = 0;
        for event in self.as_slice() {
            sum = sum.saturating_add(event.event().memory());
        }
        sum
    }

    /// The events, in their order.
    #[tactic(auto, using(crate::proofs::EventsLemmas::count_events))]
    pub fn as_slice(&self) -> &[SharedEvent]
        ensures items { event_terms result.now ≡ self.now }
        ensures len { length result.now ≡ count self.now }
    {
        match &self.events {
            EventsForm::One(event) => slice::from_ref(event),
            EventsForm::Many(events) => events.as_slice(),
        }
    }
}
