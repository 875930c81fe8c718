//! The back-off of transactions that died for a lock, until it is free.

ghost use Rattle.std.specs.Prelude.{◌≡◌, IfSome};
ghost use Rattle.tab_model.specs.Ages.{can_retry, request_of};

use crate::ages::Ages;
use crate::waiting::{Waiting, any_opposing, conflicts_in, drop_requests};
use tab_locks::Conflict;
use tab_model::Lock;

/// The back-off state of a transaction.
#[derive(Clone, Copy, Debug, PartialEq, Eq)]
pub enum Rest {
    /// It has no back-off.
    Over,
    /// No other holds or awaits a lock in conflict, and no older one backs off for one.
    Free,
    /// No other holds or awaits a lock in conflict, but an older one backs off for one.
    Behind,
    /// Another holds or awaits a lock in conflict.
    Held,
}

impl Ages {
    /// The back-off state of the transaction of this age. Replies do not depend on it, so it has no contract.
    pub fn rest(&self, age: u64) -> Rest {
        let Some(lock) = lock_of(&self.resting, age) else {
            return Rest::Over;
        };
        let is_held = !matches!(self.locks.conflicts(age, lock), Conflict::Free);
        if is_held || any_opposing(&self.queue, age, lock) {
            return Rest::Held;
        }
        match conflicts_in(&self.resting, age, lock) {
            Conflict::WithOlder => Rest::Behind,
            Conflict::Free | Conflict::WithYounger => Rest::Free,
        }
    }

    /// Returns whether any transaction has a back-off.
    pub fn anyone_rests(&self) -> bool {
        !self.resting.is_empty()
    }

    /// Returns whether a queued request of this age would be granted now, or the back-off of this age may end.
    pub fn is_ready(&self, age: u64) -> bool
        ensures { IfSome (request_of age self.now.queue) (λ r. result ≡ can_retry self.now r) }
    {
        if self.waits(age) {
            return self.may_go(age);
        }
        matches!(self.rest(age), Rest::Free)
    }

    /// Ends the back-off of the transaction of this age.
    pub fn end_rest(&mut self, age: u64)
        ensures { self.new ≡ self.old }
    {
        drop_requests(&mut self.resting, age);
    }
}

/// The lock that the transaction of this age died for.
pub(crate) fn lock_of(resting: &[Waiting], age: u64) -> Option<&Lock> {
    for waiting in resting {
        if waiting.age == age {
            return Some(&waiting.lock);
        }
    }
    None
}
