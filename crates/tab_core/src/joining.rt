//! Sessions join and leave.

ghost use Rattle.std.specs.Prelude.{◌≡◌, ◌<◌, ◌^◌, ◌-◌, ◌&&◌, [], IsFalse, IfOk, IsOk, IsTrue, OnErr, length, min, nat_lt};
ghost use Rattle.tab_model.specs.declared.ask.Ask.TheVariants.{Join, Leave};
ghost use Rattle.tab_model.specs.Standing.{levels_of};
ghost use Rattle.tab_model.specs.State.{is_waiting};
ghost use Rattle.tab_subs.specs.Subscribers.{IsHeldAt};
ghost use Rattle.tab_core.specs.Parts.{parts_of, state_with};
ghost use Rattle.tab_core.specs.Kept.{IsKept};
ghost use Rattle.tab_core.specs.Ready.{AreReady, IsReadyAt};
ghost use Rattle.tab_core.specs.Steps.{StepsTo, is_told_for_none};

use crate::machine::{Machine, SESSIONS};
use crate::operating::end_if;
use crate::queue::find;
use crate::step::Stepped;
use arrayvec::ArrayVec;
use std::alloc::AllocError;
use tab_model::{Limit, Reply};
use tab_outbox::Post;

impl<P: Post + Drop> Machine<P> {
    /// Returns whether the session waits for a lock.
    pub(crate) fn waits(&self, session: u32) -> bool
        ensures { result ≡ is_waiting (state_with self.now) session }
    {
        find(&self.queue, session).is_some()
    }

    /// Returns whether some session waits or backs off.
    pub(crate) fn has_waiters(&self) -> bool
        ensures { IsFalse result → self.now.queue.items ≡ [] }
    {
        !self.queue.is_empty() || self.ages.anyone_rests()
    }

    /// The sessions that wait and would be granted their lock now, and those whose back-off may end.
    pub(crate) fn ready(&self) -> ArrayVec<u32, SESSIONS>
        requires kept { IsKept (parts_of self.now) }
        ensures { AreReady (state_with self.now) result.items }
    {
        let mut ready = ArrayVec::new();
        for place in 0..self.sessions.len() {
            if !self.is_ready(place) {
                continue;
            }
            ready.push(self.sessions.number(place));
        }
        ready
    }

    /// Returns whether the session at the index waits and would be granted its lock now, or its back-off may end.
    fn is_ready(&self, place: usize) -> bool
        requires { place < length self.now.sessions }
        ensures { IsReadyAt (parts_of self.now) place result }
    {
        match self.sessions.transaction(place) {
            Some(transaction) => self.ages.is_ready(transaction.age),
            None => false,
        }
    }

    /// The number of the session's open levels, up to the greatest 64 bit number.
    pub(crate) fn levels(&self, session: u32) -> u64
        requires kept { IsKept (parts_of self.now) }
        ensures { result ≡ min (levels_of (state_with self.now) session) (2 ^ 64 - 1) }
    {
        match self.sessions.place(session) {
            Some(place) => self.levels_at(session, place),
            None => 0,
        }
    }

    fn levels_at(&self, session: u32, place: usize) -> u64
        requires kept { IsKept (parts_of self.now) }
        requires there { IsHeldAt self.now.sessions session place }
        ensures { result ≡ min (levels_of (state_with self.now) session) (2 ^ 64 - 1) }
    {
        let Some(transaction) = self.sessions.transaction(place) else {
            return 0;
        };
        (transaction.store.depth() as u64).saturating_add(1)
    }

    /// Returns whether the session's number and the limit of sessions let it join.
    pub(crate) fn admits(&self, session: u32) -> bool
        ensures { result
            ≡ (nat_lt self.now.greatest session && nat_lt
            (length self.now.sessions) self.now.limits.sessions) }
    {
        session > self.greatest && (self.sessions.len() as u64) < self.limits.sessions
    }

    /// Adds a session with its number, which is greater than all that joined before, and its post. It takes memory only
    /// for the session's slot.
    pub(crate) fn join(&mut self, session: u32, post: P) -> Result<Stepped, AllocError>
        requires kept { IsKept (parts_of self.old) }
        ensures done { IfOk result
            (λ s. StepsTo (state_with self.old) session (Join (P.outbox post)) s
            (state_with self.new)) }
        ensures told { IsTrue
            (is_told_for_none (state_with self.old) session (Join (P.outbox post)))
            → IsOk result }
        ensures err { OnErr result
            (state_with self.new ≡ state_with self.old) }
        ensures kept { IsKept (parts_of self.new) }
    {
        if session <= self.greatest {
            drop(post);
            return Ok(Stepped::without_entry(Reply::BadSession));
        }
        if self.sessions.len() as u64 >= self.limits.sessions {
            drop(post);
            return Ok(Stepped::without_entry(Reply::SystemLimit(Limit::Sessions)));
        }
        self.sessions.join(self.alloc, session, post)?;
        self.greatest = session;
        Ok(Stepped::without_entry(Reply::Done))
    }

    /// The session's transaction, locks and queued request are gone, and its post. Takes no memory.
    pub(crate) fn leave(&mut self, session: u32) -> Stepped
        requires kept { IsKept (parts_of self.old) }
        ensures done { StepsTo (state_with self.old) session Leave result
            (state_with self.new) }
        ensures kept { IsKept (parts_of self.new) }
    {
        let Some(place) = self.sessions.place(session) else {
            return Stepped::without_entry(Reply::BadSession);
        };
        end_if(true, self.sessions.transaction_mut(place), &mut self.ages);
        self.sessions.leave(session);
        self.queue.retain(|request| request.session != session);
        Stepped::without_entry(Reply::Done)
    }
}
