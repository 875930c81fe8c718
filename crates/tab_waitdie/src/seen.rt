//! The locks of an owner, and what keeps it from another.

ghost use Rattle.std.specs.Prelude.{◌≡◌, ◌<◌, ◌&&◌, ◌||◌, ◌++◌, ◌==◌, MatchOption, false, filter, length, not, option_map, slice_index_or, take};
ghost use Rattle.std.specs.List.{list_any};
ghost use Rattle.tab_model.specs.Ages.{before, opposes as opposes_of, request_of};
ghost use Rattle.tab_model.specs.Locks.{conflict as conflict_of};
ghost use Rattle.tab_locks.specs.Placed.{owned_by};
ghost use Rattle.tab_locks.specs.Plain.{lock_of};
ghost use Rattle.tab_waitdie.specs.Queue.{owned};

use crate::ages::Ages;
use crate::resting::lock_of as lock_in;
use crate::waiting::{Waiting, conflict, opposes, place_of};
use tab_model::Lock;

impl Ages {
    /// The locks of this owner, in the order in which they were granted.
    pub fn locks(&self, owner: u64) -> &[Lock]
        ensures { owned_by owner result.now ≡ filter (λ x. x.0 == owner) self.now.held }
    {
        self.locks.of(owner)
    }

    /// The lock that the queued request of this age waits for.
    pub fn awaited(&self, age: u64) -> Option<&Lock>
        ensures { option_map (λ l. lock_of l.now) result
            ≡ option_map (λ r. r.1) (request_of age self.now.queue) }
    {
        if !self.waits(age) {
            return None;
        }
        Some(&self.queue[place_of(&self.queue, age)].lock)
    }

    /// Returns whether the queued request of this age waits for the other owner: for a lock of it, or for its request
    /// that was queued before.
    pub fn waits_for(&self, age: u64, other: u64) -> bool
        ensures { MatchOption (request_of age self.now.queue) (result ≡ false)
            (λ r. result
            ≡ list_any (λ x. opposes_of r x && (x.0 == other))
            (self.now.held ++ before age self.now.queue)) }
    {
        if !self.waits(age) {
            return false;
        }
        let at = place_of(&self.queue, age);
        waits_at(self.locks.of(other), &self.queue, at, other)
    }

    /// The lock that the owner died for, until it asks again. No answer depends on it, so no contract speaks of it.
    pub fn died_for(&self, age: u64) -> Option<&Lock> {
        lock_in(&self.resting, age)
    }

    /// Returns whether the other owner has or awaits a lock in conflict with that one.
    pub fn died_by(&self, age: u64, other: u64) -> bool {
        let Some(lock) = lock_in(&self.resting, age) else {
            return false;
        };
        if age == other {
            return false;
        }
        any_conflict(self.locks.of(other), lock) || is_opposed_by(&self.queue, age, lock, other)
    }
}

/// Returns whether the request at this place waits for the other owner, which has these locks.
fn waits_at(locks: &[Lock], queue: &[Waiting], at: usize, other: u64) -> bool
    requires { at < length queue.now }
    ensures { (d : Waiting)
        → let r = owned (slice_index_or queue.now at d) in result
        ≡ ((not (other == r.0)
        && list_any (λ l. conflict_of r.1 (lock_of l)) locks.now)
        || list_any (λ w. opposes_of r (owned w) && (w.age == other)) (take at queue.now)) }
{
    let waiting = &queue[at];
    other != waiting.age && any_conflict(locks, &waiting.lock)
        || is_opposed_by(&queue[..at], waiting.age, &waiting.lock, other)
}

fn any_conflict(locks: &[Lock], lock: &Lock) -> bool
    ensures { result ≡ list_any (λ l. conflict_of (lock_of lock.now) (lock_of l)) locks.now }
{
    locks.iter().any(|other| conflict(lock, other))
}

fn is_opposed_by(queue: &[Waiting], age: u64, lock: &Lock, other: u64) -> bool
    ensures { result
        ≡ list_any (λ w. opposes_of (age, lock_of lock.now) (owned w) && (w.age == other)) queue.now }
{
    queue.iter().any(|waiting| opposes(age, lock, waiting) && waiting.age == other)
}
