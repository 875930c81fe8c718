//! The locks of a core's sessions, and what keeps a session waiting.

use crate::Core;
use crate::machine::SESSIONS;
use arrayvec::ArrayVec;
use tab_model::Lock;
use tab_outbox::Post;

impl<P: Post + Drop> Core<P> {
    /// The joined sessions, in the order of their numbers.
    pub fn members(&self) -> ArrayVec<u32, SESSIONS> {
        let mut members = ArrayVec::new();
        for place in 0..self.machine.sessions.len() {
            let _kept = members.try_push(self.machine.sessions.number(place));
        }
        members
    }

    /// The locks of the session's transaction, in the order in which they were granted. None of one that isn't joined.
    pub fn locks(&self, session: u32) -> &[Lock] {
        match self.age(session) {
            Some(age) => self.machine.ages.locks(age),
            None => &[],
        }
    }

    /// The lock that the session waits for.
    pub fn awaited(&self, session: u32) -> Option<&Lock> {
        self.machine.ages.awaited(self.age(session)?)
    }

    /// Returns whether the session waits for a lock that the other one has, or asked for before it.
    pub fn waits_for(&self, session: u32, other: u32) -> bool {
        match (self.age(session), self.age(other)) {
            (Some(age), Some(other)) => self.machine.ages.waits_for(age, other),
            _ => false,
        }
    }

    /// The lock for which the session was restarted, until it asks again.
    pub fn restarted_for(&self, session: u32) -> Option<&Lock> {
        self.machine.ages.died_for(self.age(session)?)
    }

    /// Returns whether the session was restarted for a lock that the other one has or awaits.
    pub fn backs_off_from(&self, session: u32, other: u32) -> bool {
        match (self.age(session), self.age(other)) {
            (Some(age), Some(other)) => self.machine.ages.died_by(age, other),
            _ => false,
        }
    }

    /// The age of the session's transaction.
    fn age(&self, session: u32) -> Option<u64> {
        let sessions = &self.machine.sessions;
        let place = sessions.place(session)?;
        match sessions.transaction(place) {
            Some(transaction) => Some(transaction.age),
            None => None,
        }
    }
}
