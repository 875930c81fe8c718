//! What a core's sessions are, as its caller sees them.

ghost use Rattle.std.specs.Prelude.{◌≡◌, ◌^◌, ◌-◌, ◌&&◌, [], None, MatchOption, IsFalse, count_by, is_some, length, min, nat_lt, option_map};
ghost use Rattle.tab_model.specs.Standing.{is_joined, levels_of};
ghost use Rattle.tab_model.specs.State.{is_waiting, level_in, session_at};
ghost use Rattle.tab_outbox.specs.Mailboxes.{Meets};
ghost use Rattle.tab_core.specs.Ready.{AreReady};

use crate::machine::SESSIONS;
use crate::{Core, Rest};
use arrayvec::ArrayVec;
use tab_outbox::{Mailbox, Met, Post};
use tab_term::Atom;

impl<P: Post + Drop> Core<P> {
    /// Returns whether a session of this number is joined.
    pub fn joined(&self, session: u32) -> bool
        ensures { result ≡ is_joined self.now session }
    {
        self.machine.sessions.place(session).is_some()
    }

    /// Returns whether the session waits for a lock.
    pub fn waits(&self, session: u32) -> bool
        ensures { result ≡ is_waiting self.now session }
    {
        self.machine.waits(session)
    }

    /// The back-off state of the session: whether it was restarted for a lock that is not free yet.
    pub fn rest(&self, session: u32) -> Rest {
        let sessions = &self.machine.sessions;
        let Some(place) = sessions.place(session) else {
            return Rest::Over;
        };
        match sessions.transaction(place) {
            Some(transaction) => self.machine.ages.rest(transaction.age),
            None => Rest::Over,
        }
    }

    /// The sessions that wait and would be granted their lock now, and those whose back-off may end.
    pub fn ready(&self) -> ArrayVec<u32, SESSIONS>
        ensures { AreReady self.now result.items }
    {
        self.machine.ready()
    }

    /// Returns whether some session waits or backs off.
    pub fn has_waiters(&self) -> bool
        ensures { IsFalse result → self.now.queue ≡ [] }
    {
        self.machine.has_waiters()
    }

    /// Returns whether the session's number and the limit of sessions let it join.
    pub fn admits(&self, session: u32) -> bool
        ensures { result
            ≡ (nat_lt self.now.greatest session && nat_lt
            (length self.now.sessions) self.now.limits.sessions) }
    {
        self.machine.admits(session)
    }

    /// The number of sessions that watch the table.
    pub fn watchers(&self, table: &Atom) -> usize
        ensures { result
            ≡ count_by (λ s. is_some (level_in s.watching table.now)) self.now.sessions }
    {
        self.machine.sessions.watchers(table)
    }

    /// The greatest number that has joined.
    pub fn greatest(&self) -> u32
        ensures { result ≡ self.now.greatest }
    {
        self.machine.greatest
    }

    /// The number of outermost transactions that were committed.
    pub fn commits(&self) -> u64
        ensures { result ≡ self.now.commits }
    {
        self.machine.commits
    }

    /// The number of the session's open levels, up to the greatest 64 bit number.
    pub fn levels(&self, session: u32) -> u64
        ensures { result ≡ min (levels_of self.now session) (2 ^ 64 - 1) }
    {
        self.machine.levels(session)
    }

    /// The post of a session that is joined.
    pub fn post(&self, session: u32) -> Option<&P>
        ensures { option_map (λ p. P.outbox p.now) result
            ≡ option_map (λ s. s.outbox) (session_at self.now.sessions session) }
    {
        self.machine.sessions.post(session)
    }

    /// The number of the session's overflow, if the session has not taken it yet. None if it isn't joined.
    pub fn overflow(&self, session: u32) -> Option<u64>
        ensures { MatchOption (session_at self.now.sessions session) (result ≡ None)
            (λ s. result ≡ s.overflow) }
    {
        self.machine.sessions.overflow(session)
    }
}

impl<P: Mailbox + Drop> Core<P> {
    /// Takes one item more at the other end of the session's post, or shows that all that was put is taken. None of a
    /// session that isn't joined.
    pub fn meet(&mut self, session: u32, end: &mut P::End) -> Option<Met>
        ensures same { self.new ≡ self.old }
        ensures end { P.mailbox end.new ≡ P.mailbox end.old }
        ensures met { Meets (option_map (λ s. s.outbox) (session_at self.old.sessions session))
            (P.mailbox end.old) (P.taken end.old) result (P.taken end.new) }
    {
        self.machine.sessions.meet(session, end)
    }
}
