ghost use Rattle.std.specs.Prelude.{◌≡◌, ◌<◌, ◌∷◌, ◌++◌, ℕ, List, [], IsTrue, None, IfOk, OnOk, IfSome, IsSome, OnErr, is_some, length, not, slice_index_or, take};
ghost use Rattle.std.specs.List.{list_any};
ghost use Rattle.tab_model.specs.Ages.{Ages as ages_record, Chain, all_of, can_retry, decide as decision, forget as forgotten, last_of, opposes, request_of, without};
ghost use Rattle.tab_locks.specs.Plain.{lock_of};
ghost use Rattle.tab_model.specs.State.{is_in};
ghost use Rattle.tab_locks.specs.Placed.{placed, without_last};
ghost use Rattle.tab_waitdie.specs.declared.ages.LockDecision.TheVariants.{Granted};
ghost use Rattle.tab_waitdie.specs.Queue.{owned, queued};
ghost use Rattle.tab_waitdie.specs.Decisions.{answer_of, after_answer, is_granted, after_retried, ages, answer_to as answer_by};

use crate::waiting::{
    Waiting, any_opposing, conflicts_in, copy_of, drop_requests, is_awaited, is_queued, place_of,
};
use std::alloc::{AllocError, Global};
use std::marker::Model;
use tab_locks::{Asked, Conflict, LockTable};
use tab_model::Lock;
use tab_term::Atom;

/// The answer to a request.
#[derive(Clone, Copy, Debug, PartialEq, Eq)]
pub enum LockDecision {
    Granted,
    Wait,
    Die,
}

/// The answer to a retry.
#[derive(Clone, Copy, Debug, PartialEq, Eq)]
pub enum Retried {
    Granted,
    Wait,
}

/// The owners of locks, and the transactions that wait for one, each by its age.
#[derive(Drop)]
pub struct Ages {
    alloc: Global,
    pub(crate) locks: LockTable,
    pub(crate) queue: Vec<Waiting>,
    /// The transactions that died, each with the lock that it died for, until it asks again. No answer depends on them,
    /// so contracts don't show them.
    pub(crate) resting: Vec<Waiting>,
}

impl Model for Ages {
    ghost use Rattle.std.specs.Coded.{codes};
    ghost use Rattle.tab_term.specs.Code.{term_code};
    ghost use Rattle.tab_model.specs.Ages.{Ages as ages_record, Rises};
    ghost use Rattle.tab_waitdie.specs.Queue.{ages_of};

    ghost Value = { ages_record };

    ghost coded = { Prim.hlevel (codes, term_code) };

    ghost view = { λ a. ages_of a.locks a.queue.items };

    ghost invariant = { λ a. Rises (ages_of a.locks a.queue.items) };
}

impl Ages {
    /// No transaction holds or asks for a lock.
    pub fn new(alloc: Global) -> Ages
        ensures { result ≡ ages [] [] }
    {
        Ages {
            alloc,
            locks: LockTable::new(alloc),
            queue: Vec::new(alloc),
            resting: Vec::new(alloc),
        }
    }

    /// Returns whether a request of this age is queued.
    pub fn waits(&self, age: u64) -> bool
        ensures { result ≡ is_some (request_of age self.now.queue) }
    {
        is_queued(&self.queue, age)
    }

    /// A granted lock is added once more, also if one of its own covers it. A request that waits is queued. A
    /// transaction that dies keeps its locks. If no queued request opposes it, one search both tests and grants.
    pub fn request(&mut self, age: u64, lock: Lock) -> Result<LockDecision, AllocError>
        requires { request_of age self.old.queue ≡ None }
        ensures answer { IfOk result (λ a. answer_of a ≡ decision self.old (age, lock_of lock)) }
        ensures after { IfOk result (λ a. self.new ≡ after_answer self.old (age, lock_of lock) a) }
        ensures undo { IfOk result
            (λ a. a ≡ Granted → without_last age self.new.held ≡ self.old.held) }
        ensures err { OnErr result (self.new ≡ self.old) }
    {
        self.end_rest(age);
        if any_opposing(&self.queue, age, &lock) {
            let answer = self.decide(age, &lock);
            return self.settle(age, lock, answer);
        }
        match self.locks.ask(age, lock)? {
            Asked::Held => Ok(LockDecision::Granted),
            Asked::InConflict(held, lock) => {
                self.settle(age, lock, answer_to(held, Conflict::Free))
            }
        }
    }

    /// Does what is answered.
    fn settle(
        &mut self,
        age: u64,
        lock: Lock,
        answer: LockDecision,
    ) -> Result<LockDecision, AllocError>
        requires { answer_of answer ≡ decision self.old (age, lock_of lock) }
        ensures answer { IfOk result (λ a. a ≡ answer) }
        ensures after { IfOk result (λ a. self.new ≡ after_answer self.old (age, lock_of lock) a) }
        ensures undo { IfOk result
            (λ a. a ≡ Granted → without_last age self.new.held ≡ self.old.held) }
        ensures err { OnErr result (self.new ≡ self.old) }
    {
        match answer {
            LockDecision::Granted => self.locks.hold(age, lock)?,
            LockDecision::Wait => self.queue.push(Waiting { age, lock })?,
            // If memory is refused it has no back-off.
            LockDecision::Die => drop(self.resting.push(Waiting { age, lock })),
        }
        Ok(answer)
    }

    fn decide(&self, age: u64, lock: &Lock) -> LockDecision
        ensures { answer_of result ≡ decision self.now (age, lock_of lock.now) }
    {
        match self.locks.standing(age, lock) {
            None => LockDecision::Granted,
            Some(held) => answer_to(held, conflicts_in(&self.queue, age, lock)),
        }
    }

    /// Asks again for a queued request. It looks at the granted locks and at the requests queued before it.
    pub fn retry(&mut self, age: u64) -> Result<Retried, AllocError>
        requires { IsSome (request_of age self.old.queue) }
        ensures answer { IfSome (request_of age self.old.queue)
            (λ r. IfOk result (λ a. is_granted a ≡ can_retry self.old r)) }
        ensures after { IfSome (request_of age self.old.queue)
            (λ r. IfOk result (λ a. self.new ≡ after_retried self.old r a)) }
        ensures err { OnErr result (self.new ≡ self.old) }
    {
        if !self.may_go(age) {
            return Ok(Retried::Wait);
        }
        self.grant(age)?;
        self.drop_wait(age);
        Ok(Retried::Granted)
    }

    /// Returns whether a retry of the queued request is granted. It takes no memory.
    pub fn may_go(&self, age: u64) -> bool
        requires { IsSome (request_of age self.now.queue) }
        ensures { IfSome (request_of age self.now.queue) (λ r. result ≡ can_retry self.now r) }
    {
        let at = place_of(&self.queue, age);
        is_free(&self.locks, &self.queue, at)
    }

    /// Grants the lock of a queued request, which stays queued: the caller may do work that can fail before it drops
    /// the request.
    pub fn grant(&mut self, age: u64) -> Result<(), AllocError>
        requires queued { IsSome (request_of age self.old.queue) }
        requires free { IfSome (request_of age self.old.queue)
            (λ r. IsTrue (can_retry self.old r)) }
        ensures ok { IfSome (request_of age self.old.queue)
            (λ r. OnOk result (self.new ≡ ages (placed r self.old.held) self.old.queue)) }
        ensures undo { OnOk result (without_last age self.new.held ≡ self.old.held) }
        ensures err { OnErr result (self.new ≡ self.old) }
    {
        let at = place_of(&self.queue, age);
        let lock = copy_of(self.alloc, &self.queue[at].lock)?;
        self.locks.hold(age, lock)?;
        Ok(())
    }

    /// Gives back the lock that this owner was granted last, for example if its operation can't be done. It takes no
    /// memory.
    pub fn unhold(&mut self, age: u64)
        ensures { self.new ≡ ages (without_last age self.old.held) self.old.queue }
    {
        self.locks.unhold(age);
    }

    /// Takes a queued request away, if there is one, and nothing else.
    pub fn drop_wait(&mut self, age: u64)
        ensures { self.new ≡ ages self.old.held (without age self.old.queue) }
    {
        drop_requests(&mut self.queue, age);
    }

    /// Removes an owner's locks and its queued request, and ends its back-off.
    pub fn forget(&mut self, owner: u64)
        ensures { self.new ≡ forgotten self.old owner }
    {
        self.end_rest(owner);
        self.give_up(owner);
    }

    /// Removes an owner's locks and its queued request. Its back-off goes on.
    pub fn give_up(&mut self, owner: u64)
        ensures { self.new ≡ forgotten self.old owner }
    {
        self.locks.release_all(owner);
        drop_requests(&mut self.queue, owner);
    }

    /// Returns whether some granted or queued lock is on this table.
    pub fn busy(&self, table: &Atom) -> bool
        ensures { result ≡ list_any (is_in table.now) (all_of self.now) }
    {
        self.locks.is_locked(table) || is_awaited(&self.queue, table)
    }
}

fn answer_to(held: Conflict, queued: Conflict) -> LockDecision
    ensures { result ≡ answer_by held queued }
{
    match (held, queued) {
        (Conflict::Free, Conflict::Free) => LockDecision::Granted,
        (Conflict::WithOlder, _) | (_, Conflict::WithOlder) => LockDecision::Die,
        _ => LockDecision::Wait,
    }
}

/// Returns whether no other owner holds, or asked before it for, what conflicts with the request at this place.
fn is_free(locks: &LockTable, queue: &[Waiting], at: usize) -> bool
    requires { at < length queue.now }
    ensures { (d : Waiting)
        → let r = owned (slice_index_or queue.now at d) in result
        ≡ not (list_any (opposes r) (locks.now ++ queued (take at queue.now))) }
{
    let waiting = &queue[at];
    match locks.conflicts(waiting.age, &waiting.lock) {
        Conflict::Free => !any_opposing(&queue[..at], waiting.age, &waiting.lock),
        Conflict::WithYounger | Conflict::WithOlder => false,
    }
}

/// A law: no chain of waits is a cycle, since the age rises along each. The body names a field, so that a proof knows
/// the type's invariant.
pub fn no_chain_of_waits_leads_back(ages: &Ages)
    ensures { (a b : ℕ) (bs : List ℕ) → Chain ages.now a (b ∷ bs) → a < last_of b bs }
{
    let _ = &ages.locks;
}
