//! All sessions, each with its transaction, its subscriptions and its post.

ghost use Rattle.std.specs.Prelude.{◌≡◌, ◌<◌, ◌∷◌, ◌++◌, [], Some, None, IfOk, OnOk, OnErr, MatchOption, length, map, count_by, is_some, option_map, option_to_list, slice_index_or};
ghost use Rattle.std.specs.Borrow.{sem};
ghost use Rattle.tab_model.specs.Slices.{batch_for, end_for};
ghost use Rattle.tab_model.specs.State.{level_in, without_watch};
ghost use Rattle.tab_model.specs.declared.data.Item.TheVariants as Item;
ghost use Rattle.tab_model.specs.declared.data.Ending.TheVariants as Ending;
ghost use Rattle.tab_outbox.specs.Mailboxes.{Meets};
ghost use Rattle.tab_subs.specs.Deliveries.{Delivers};
ghost use Rattle.tab_subs.specs.Subscribers.{Subscriber, fresh, at, nobody, without, taken_from, level_of, overflow_of, has_watcher as has_watcher_of, IsHeldAt, Marks, AllBelow, numbers};

use crate::answers::{Marked, Taken};
use crate::only_event::OnlyEvent;
use crate::prepared::{Prepared, next_due, with_room};
use crate::session::Session;
use crate::shaped::Shaped;
use std::alloc::{AllocError, Global};
use std::collections::VecDeque;
use std::marker::Model;
use tab_events::{Event, Level};
use tab_lists::SharedTerms;
use tab_model::{Sessions, SharedItem};
use tab_outbox::{Mailbox, Met, Post};
use tab_term::Atom;

/// The joined sessions, in the order of their numbers.
#[derive(Drop)]
pub struct Subs<P: Post, T> {
    sessions: Vec<Session<P, T>>,
}

impl<P: Post, T> Model for Subs<P, T> {
    ghost use Rattle.std.specs.Prelude.{List};
    ghost use Rattle.std.specs.Coded.{codes};
    ghost use Rattle.tab_term.specs.Code.{term_code, terms_code, pairs_code};
    ghost use Rattle.tab_subs.specs.Subscribers.{Subscriber, Ascends, numbers};

    ghost Value = { List (Subscriber T) };

    ghost coded = { Prim.hlevel (codes, term_code, terms_code, pairs_code, T.code) };

    ghost view = { λ a. a.sessions.items };

    ghost invariant = { λ a. Ascends (numbers a.sessions.items) };
}

impl<P: Post + Drop, T: Drop> Subs<P, T> {
    ghost use Rattle.tab_subs.specs.Lending.{lends_one};

    /// Nobody.
    pub fn new(alloc: Global) -> Subs<P, T>
        ensures { result ≡ [] }
    {
        Subs {
            sessions: Vec::new(alloc),
        }
    }

    /// A session joins, with its post. Its number is above all that are joined.
    pub fn join(&mut self, alloc: Global, session: u32, post: P) -> Result<(), AllocError>
        requires above { AllBelow session (numbers self.old) }
        ensures ok { OnOk result (self.new ≡ self.old ++ fresh session (P.outbox post) ∷ []) }
        ensures err { OnErr result (self.new ≡ self.old) }
    {
        self.sessions.reserve(1)?;
        self.sessions
            .push_reserved(Session::new(alloc, session, post));
        Ok(())
    }

    /// A session leaves, and its post is dropped.
    pub fn leave(&mut self, session: u32)
        ensures { self.new ≡ without self.old session }
    {
        self.sessions.retain(|slot| slot.number() != session);
    }

    /// The index of a session, for the calls below. None if it isn't joined.
    pub fn place(&self, session: u32) -> Option<usize>
        ensures { MatchOption result (at self.now session ≡ None) (IsHeldAt self.now session) }
    {
        for (place, slot) in self.sessions.iter().enumerate() {
            if slot.number() == session {
                return Some(place);
            }
        }
        None
    }

    /// The number of joined sessions.
    pub fn len(&self) -> usize
        ensures { result ≡ length self.now }
    {
        self.sessions.len()
    }

    /// The number of the session at the place.
    pub fn number(&self, place: usize) -> u32
        requires { place < length self.now }
        ensures { result ≡ (slice_index_or self.now place nobody).number }
    {
        self.sessions[place].number()
    }

    /// The open transaction of the session at the place, if there is one.
    pub fn transaction(&self, place: usize) -> &Option<T>
        requires { place < length self.now }
        ensures { result.now ≡ (slice_index_or self.now place nobody).transaction }
    {
        self.sessions[place].transaction()
    }

    /// The open transaction of the session at the place, or the place for one.
    pub fn transaction_mut(&mut self, place: usize) -> &mut Option<T>
        requires { place < length self.old }
        ensures* lends { sem 𝓛 (lends_one P.row T.row P.Post self.entry place result) }
        ensures value { result.now ≡ (slice_index_or self.old place nobody).transaction }
    {
        self.sessions[place].transaction_mut()
    }

    /// Takes the session's next item. None if it isn't joined.
    pub fn take(&mut self, session: u32) -> Option<Taken>
        ensures { (self.new, result) ≡ taken_from self.old (at self.old session) }
    {
        let Some(place) = self.place(session) else {
            return None;
        };
        Some(self.sessions[place].take())
    }

    /// The session watches the table, with its begin marker put into its post, which may refuse it. None of one that isn't
    /// joined.
    pub fn subscribe(
        &mut self,
        alloc: Global,
        session: u32,
        table: Atom,
        level: Level,
        dump: Option<SharedTerms>,
    ) -> Result<Option<Marked>, AllocError>
        ensures ok { IfOk result
            (λ m. Marks self.old (at self.old session)
            (λ s. record { table = table; level = level } ∷ s.watching)
            (Item.Began table level dump) m self.new) }
        ensures err { OnErr result (self.new ≡ self.old) }
    {
        let Some(place) = self.place(session) else {
            return Ok(None);
        };
        let marked = self.sessions[place].subscribe(alloc, table, level, dump)?;
        Ok(Some(marked))
    }

    /// The session watches the table no more, with its end marker put into its post, which may refuse it. None of one that
    /// isn't joined.
    pub fn unsubscribe(
        &mut self,
        alloc: Global,
        session: u32,
        table: &Atom,
    ) -> Result<Option<Marked>, AllocError>
        ensures ok { IfOk result
            (λ m. Marks self.old (at self.old session) (λ s. without_watch s.watching table.now)
            (Item.Ended table.now Ending.Unsubscribed) m self.new) }
        ensures err { OnErr result (self.new ≡ self.old) }
    {
        let Some(place) = self.place(session) else {
            return Ok(None);
        };
        let marked = self.sessions[place].unsubscribe(alloc, table)?;
        Ok(Some(marked))
    }

    /// The items of a commit: for each session the events of the tables that it watches, at its levels, as one item.
    /// The number is the commit's.
    pub fn prepare(
        &self,
        alloc: Global,
        commit: u64,
        events: &[Event],
    ) -> Result<Prepared, AllocError>
        ensures { IfOk result
            (λ p. p ≡ record {
              number = commit;
              items = map
                  (λ s. batch_for (level_in s.watching) commit events.now) self.now;
              ended = None;
            }) }
    {
        let due = match events {
            [event] => self.due_of_one(alloc, commit, event)?,
            _ => self.due_of(alloc, commit, events)?,
        };
        with_room(alloc, commit, due, None)
    }

    /// The items of a commit with one event, one item a level.
    fn due_of_one(
        &self,
        alloc: Global,
        commit: u64,
        event: &Event,
    ) -> Result<VecDeque<Option<SharedItem>>, AllocError>
        ensures { IfOk result
            (λ due. map option_to_list due.items
            ≡ map
            (λ s. batch_for (level_in s.watching) commit (event.now ∷ [])) self.now) }
    {
        let mut only = OnlyEvent::new(commit, event);
        let mut due = VecDeque::with_capacity(alloc, self.sessions.len())?;
        for slot in self.sessions.iter() {
            due.push_back(only.due(alloc, slot.level(&event.tab))?)?;
        }
        Ok(due)
    }

    /// The items of a commit: a batch of its own for each session that watches one of its tables.
    fn due_of(
        &self,
        alloc: Global,
        commit: u64,
        events: &[Event],
    ) -> Result<VecDeque<Option<SharedItem>>, AllocError>
        ensures { IfOk result
            (λ due. map option_to_list due.items
            ≡ map
            (λ s. batch_for (level_in s.watching) commit events.now) self.now) }
    {
        let mut shaped = unshaped(alloc, events)?;
        let mut due = VecDeque::with_capacity(alloc, self.sessions.len())?;
        for slot in self.sessions.iter() {
            due.push_back(slot.batch(alloc, commit, &mut shaped)?)?;
        }
        Ok(due)
    }

    /// The items of a table's deletion: an end marker for each session that watches it. The number is that of the next
    /// commit.
    pub fn prepare_end(
        &self,
        alloc: Global,
        table: &Atom,
        commit: u64,
    ) -> Result<Prepared, AllocError>
        ensures { IfOk result
            (λ p. p ≡ record {
              number = commit;
              items = map
                  (λ s. end_for (level_in s.watching) (Some table.now)) self.now;
              ended = Some table.now;
            }) }
    {
        let mut due = VecDeque::with_capacity(alloc, self.sessions.len())?;
        for slot in self.sessions.iter() {
            due.push_back(slot.end_mark(alloc, table)?)?;
        }
        with_room(alloc, commit, due, Some(table.try_clone(alloc)?))
    }

    /// Puts the prepared items, in the order of the sessions' numbers, and returns the sessions that overflowed: an
    /// item that a post refuses ends its session's subscriptions.
    pub fn deliver(&mut self, prepared: Prepared) -> Sessions
        ensures { Delivers prepared self.old self.new result }
    {
        let Prepared {
            number,
            mut due,
            mut over,
            ended,
        } = prepared;
        for slot in self.sessions.iter_mut() {
            let refused = slot.receive(number, next_due(&mut due), ended.as_ref());
            if !refused {
                continue;
            }
            over.push_reserved(slot.number());
        }
        Sessions { items: over }
    }

    /// At which level the session watches the table.
    pub fn level(&self, session: u32, table: &Atom) -> Option<Level>
        ensures { result ≡ level_of (at self.now session) table.now }
    {
        let Some(place) = self.place(session) else {
            return None;
        };
        self.sessions[place].level(table)
    }

    /// The post of a session that is joined.
    pub fn post(&self, session: u32) -> Option<&P>
        ensures { option_map (λ p. P.outbox p.now) result
            ≡ option_map (λ s. s.outbox) (at self.now session) }
    {
        let Some(place) = self.place(session) else {
            return None;
        };
        Some(self.sessions[place].post())
    }

    /// The number of the session's overflow, if the session has not taken it yet.
    pub fn overflow(&self, session: u32) -> Option<u64>
        ensures { result ≡ overflow_of (at self.now session) }
    {
        let Some(place) = self.place(session) else {
            return None;
        };
        self.sessions[place].overflow()
    }

    /// The number of sessions that watch the table.
    pub fn watchers(&self, table: &Atom) -> usize
        ensures { result ≡ count_by (λ s. is_some (level_in s.watching table.now)) self.now }
    {
        self.sessions
            .iter()
            .filter(|slot| slot.level(table).is_some())
            .count()
    }

    /// Returns whether a session watches the table.
    pub fn has_watcher(&self, table: &Atom) -> bool
        ensures { result ≡ has_watcher_of self.now table.now }
    {
        self.sessions.iter().any(|slot| slot.level(table).is_some())
    }
}

impl<P: Mailbox + Drop, T: Drop> Subs<P, T> {
    /// Takes one item more at the other end of the session's post, or shows that all that was put is taken. None of a
    /// session that isn't joined.
    pub fn meet(&mut self, session: u32, end: &mut P::End) -> Option<Met>
        ensures same { self.new ≡ self.old }
        ensures end { P.mailbox end.new ≡ P.mailbox end.old }
        ensures met { Meets (option_map (λ s. s.outbox) (at self.old session)) (P.mailbox end.old)
            (P.taken end.old) result (P.taken end.new) }
    {
        let Some(place) = self.place(session) else {
            return None;
        };
        Some(self.sessions[place].meet(end))
    }
}

fn unshaped<'a>(alloc: Global, events: &'a [Event]) -> Result<Vec<Shaped<'a>>, AllocError>
    ensures { IfOk result (λ shaped. shaped.items ≡ events.now) }
{
    let mut shaped = Vec::with_capacity(alloc, events.len())?;
    for event in events {
        shaped.push(Shaped::new(event))?;
    }
    Ok(shaped)
}
