ghost use Rattle.std.specs.Prelude.{◌≡◌, ◌==◌, ◌<◌, IfOk, IsSome, Some, length, slice_index_or, take, true};
ghost use Rattle.std.specs.List.{list_any};
ghost use Rattle.tab_model.specs.Locks.{conflict as conflict_of, meets as meets_of};
ghost use Rattle.tab_model.specs.Ages.{opposes as opposes_of, blocks as blocks_of, before, request_of, without};
ghost use Rattle.tab_locks.specs.Plain.{is_write as is_write_of, lock_of, part_of};
ghost use Rattle.tab_locks.specs.Placed.{conflict_with};
ghost use Rattle.tab_model.specs.State.{is_in};
ghost use Rattle.tab_waitdie.specs.Queue.{owned, queued};

use std::alloc::{AllocError, Global};
use tab_locks::Conflict;
use tab_model::{Lock, Mode, What};
use tab_term::Atom;

/// A request that waits.
#[derive(Drop)]
pub(crate) struct Waiting {
    pub age: u64,
    pub lock: Lock,
}

/// The queued requests that a request for this lock conflicts with: none, only younger ones, or an older one.
pub(crate) fn conflicts_in(queue: &[Waiting], age: u64, lock: &Lock) -> Conflict
    ensures { result ≡ conflict_with (age, lock_of lock.now) (queued queue.now) }
{
    if !any_opposing(queue, age, lock) {
        return Conflict::Free;
    }
    Conflict::with(any_blocking(queue, age, lock))
}

pub(crate) fn any_opposing(queue: &[Waiting], age: u64, lock: &Lock) -> bool
    ensures { result ≡ list_any (λ w. opposes_of (age, lock_of lock.now) (owned w)) queue.now }
{
    queue.iter().any(|waiting| opposes(age, lock, waiting))
}

fn any_blocking(queue: &[Waiting], age: u64, lock: &Lock) -> bool
    ensures { result ≡ list_any (λ w. blocks_of (age, lock_of lock.now) (owned w)) queue.now }
{
    queue.iter().any(|waiting| blocks(age, lock, waiting))
}

pub(crate) fn opposes(age: u64, lock: &Lock, waiting: &Waiting) -> bool
    ensures { result ≡ opposes_of (age, lock_of lock.now) (owned waiting.now) }
{
    waiting.age != age && conflict(lock, &waiting.lock)
}

fn blocks(age: u64, lock: &Lock, waiting: &Waiting) -> bool
    ensures { result ≡ blocks_of (age, lock_of lock.now) (owned waiting.now) }
{
    opposes(age, lock, waiting) && !(age < waiting.age)
}

pub(crate) fn conflict(asked: &Lock, other: &Lock) -> bool
    ensures { result ≡ conflict_of (lock_of asked.now) (lock_of other.now) }
{
    asked.table == other.table
        && (is_write(asked.mode) || is_write(other.mode))
        && meets(&asked.what, &other.what)
}

fn meets(asked: &What, other: &What) -> bool
    ensures { result ≡ meets_of (part_of asked.now) (part_of other.now) }
{
    match (asked, other) {
        (What::Key(key), What::Key(other)) => key == other,
        _ => true,
    }
}

fn is_write(mode: Mode) -> bool
    ensures { result ≡ is_write_of mode }
{
    match mode {
        Mode::Read => false,
        Mode::Write => true,
    }
}

pub(crate) fn is_queued(queue: &[Waiting], age: u64) -> bool
    ensures { result ≡ list_any (λ w. w.age == age) queue.now }
{
    queue.iter().any(|waiting| waiting.age == age)
}

/// The index of the request of this age.
pub(crate) fn place_of(queue: &[Waiting], age: u64) -> usize
    requires { IsSome (request_of age (queued queue.now)) }
    ensures within { result < length queue.now }
    ensures before { before age (queued queue.now) ≡ queued (take result queue.now) }
    ensures request { (d : Waiting)
        → request_of age (queued queue.now) ≡ Some (owned (slice_index_or queue.now result d)) }
{
    for (place, waiting) in queue.iter().enumerate() {
        if waiting.age == age {
            return place;
        }
    }
    unreachable!()
}

/// Takes the requests of this age away.
pub(crate) fn drop_requests(queue: &mut Vec<Waiting>, age: u64)
    ensures { queued queue.new.items ≡ without age (queued queue.old.items) }
{
    queue.retain(|waiting| waiting.age != age);
}

pub(crate) fn is_awaited(queue: &[Waiting], table: &Atom) -> bool
    ensures { result ≡ list_any (λ w. is_in table.now (owned w)) queue.now }
{
    queue.iter().any(|waiting| waiting.lock.table == *table)
}

pub(crate) fn copy_of(alloc: Global, lock: &Lock) -> Result<Lock, AllocError>
    ensures { IfOk result (λ l. l ≡ lock.now) }
{
    Ok(Lock {
        table: lock.table.try_clone(alloc)?,
        what: copy_of_what(alloc, &lock.what)?,
        mode: lock.mode,
    })
}

fn copy_of_what(alloc: Global, what: &What) -> Result<What, AllocError>
    ensures { IfOk result (λ w. w ≡ what.now) }
{
    match what {
        What::All => Ok(What::All),
        What::Key(key) => Ok(What::Key(key.try_clone(alloc)?)),
    }
}
