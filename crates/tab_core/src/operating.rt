//! Operations of a transaction, and their locks.

ghost use Rattle.std.specs.Prelude.{◌≡◌, ◌&&◌, ◌==◌, [], None, Some, IfOk, IfSome, IsOk, IsSome, OnErr, IsFalse, IsTrue, if◌then◌else◌, option_map, length};
ghost use Rattle.tab_model.specs.declared.data.Command.TheVariants as command;
ghost use Rattle.tab_model.specs.Ages.{forget as forgotten};
ghost use Rattle.tab_model.specs.Events.{is_failure as is_failure_of};
ghost use Rattle.tab_model.specs.State.{is_waiting};
ghost use Rattle.tab_model.specs.declared.ask.Ask.TheVariants.{Do as DoCommand, Retry};
ghost use Rattle.tab_model.specs.Outcome.{step_without_entry, outcome};
ghost use Rattle.tab_locks.specs.Placed.{without_last};
ghost use Rattle.tab_waitdie.specs.Decisions.{ages as ages_with};
ghost use Rattle.tab_subs.specs.Subscribers.{IsHeldAt};
ghost use Rattle.tab_core.specs.Parts.{parts_of, state_with};
ghost use Rattle.tab_core.specs.Kept.{IsKept};
ghost use Rattle.tab_core.specs.Steps.{StepsTo, asks_for_none, is_told_for_none};
ghost use Rattle.tab_core.specs.Works.{Works, WorksTo, restarted, forgotten_if};

use crate::machine::Machine;
use crate::queue::{Request, find};
use crate::step::Stepped;
use crate::transaction::Transaction;
use std::alloc::{AllocError, Global};
use tab_model::{Limit, Operation, Reply, SharedReply};
use tab_outbox::Post;
use tab_tables::Catalog;
use tab_txstore::{Whole, needs, perform};
use tab_waitdie::{Ages, LockDecision};

/// The reply of an operation, and whether it ended its transaction: by a failure at level 1.
pub(crate) struct Worked {
    pub reply: SharedReply,
    pub over: bool,
}

impl Drop for Worked {
    fn drop(self) {
        let Worked { reply, over: _ } = self;
        drop(reply);
    }
}

impl Worked {
    fn into_reply(self) -> SharedReply
        ensures { result ≡ self.reply }
    {
        let Worked { reply, over: _ } = self;
        reply
    }
}

impl<P: Post + Drop> Machine<P> {
    /// An operation of a session that waits for nothing.
    pub(crate) fn operate(
        &mut self,
        session: u32,
        place: usize,
        asked: Whole<Operation>,
    ) -> Result<SharedReply, AllocError>
        requires kept { IsKept (parts_of self.old) }
        requires there { IsHeldAt self.old.sessions session place }
        requires idle { IsFalse (is_waiting (state_with self.old) session) }
        ensures ok { IfOk result
            (λ r. outcome (state_with self.old) [] session (DoCommand (command.Do asked.value))
            ≡ step_without_entry (state_with self.new) r) }
        ensures told { IsTrue
            (is_told_for_none (state_with self.old) session
            (DoCommand (command.Do asked.value))) → IsOk result }
        ensures err { OnErr result
            (state_with self.new ≡ state_with self.old) }
        ensures kept { IsKept (parts_of self.new) }
    {
        let Some(transaction) = self.sessions.transaction(place) else {
            return Ok(SharedReply::new(Reply::NoTransaction));
        };
        if transaction.store.count() as u64 >= self.limits.operations {
            return Ok(SharedReply::new(Reply::SystemLimit(Limit::Operations)));
        }
        let age = transaction.age;
        self.queue.reserve(1)?;
        let lock = needs(self.alloc, &asked.value)?;
        match self.ages.request(age, lock)? {
            LockDecision::Granted => {
                let slot = self.sessions.transaction_mut(place);
                let worked = work(self.alloc, &self.catalog, slot, &mut self.ages, asked)?;
                end_if(worked.over, slot, &mut self.ages);
                Ok(worked.into_reply())
            }
            LockDecision::Wait => {
                self.queue.push_reserved(Request {
                    session,
                    age,
                    operation: asked.into_value(),
                });
                Ok(SharedReply::new(Reply::Waiting))
            }
            LockDecision::Die => {
                restart(self.sessions.transaction_mut(place), &mut self.ages);
                Ok(SharedReply::new(Reply::Restart))
            }
        }
    }

    /// A session asks again for the lock that it waits for.
    pub(crate) fn retry(&mut self, session: u32) -> Result<Stepped, AllocError>
        requires kept { IsKept (parts_of self.old) }
        ensures done { IfOk result
            (λ s. StepsTo (state_with self.old) session Retry s (state_with self.new)) }
        ensures free { IsTrue (asks_for_none (state_with self.old) session Retry) → IsOk result }
        ensures told { IsTrue (is_told_for_none (state_with self.old) session Retry) → IsOk result }
        ensures err { OnErr result
            (state_with self.new ≡ state_with self.old) }
        ensures kept { IsKept (parts_of self.new) }
    {
        let Some(place) = self.sessions.place(session) else {
            return Ok(Stepped::without_entry(Reply::BadSession));
        };
        Ok(Stepped::told(self.retry_at(session, place)?))
    }

    /// The queued operation of a session, if there is one, asks again for its lock.
    fn retry_at(&mut self, session: u32, place: usize) -> Result<SharedReply, AllocError>
        requires kept { IsKept (parts_of self.old) }
        requires there { IsHeldAt self.old.sessions session place }
        ensures ok { IfOk result
            (λ r. outcome (state_with self.old) [] session Retry
            ≡ step_without_entry (state_with self.new) r) }
        ensures free { IsFalse (is_waiting (state_with self.old) session) → IsOk result }
        ensures told { IsTrue (is_told_for_none (state_with self.old) session Retry) → IsOk result }
        ensures err { OnErr result
            (state_with self.new ≡ state_with self.old) }
        ensures kept { IsKept (parts_of self.new) }
    {
        let Some(request) = find(&self.queue, session) else {
            return Ok(SharedReply::new(Reply::NotWaiting));
        };
        let age = request.age;
        if !self.ages.may_go(age) {
            return Ok(SharedReply::new(Reply::Waiting));
        }
        let asked = Whole {
            value: request.operation.try_clone(self.alloc)?,
        };
        self.ages.grant(age)?;
        let slot = self.sessions.transaction_mut(place);
        let worked = work(self.alloc, &self.catalog, slot, &mut self.ages, asked)?;
        self.ages.drop_wait(age);
        self.queue.retain(|request| request.session != session);
        end_if(worked.over, slot, &mut self.ages);
        Ok(worked.into_reply())
    }
}

/// Performs an operation whose lock was granted last. If it is refused memory, the lock is given back.
fn work(
    alloc: Global,
    catalog: &Catalog,
    slot: &mut Option<Transaction>,
    ages: &mut Ages,
    asked: Whole<Operation>,
) -> Result<Worked, AllocError>
    requires { IsSome slot.old }
    ensures ok { IfSome slot.old
        (λ t. IfOk result (λ x. WorksTo catalog.now t asked.value x slot.new)) }
    ensures held { IfOk result (λ x. ages.new ≡ ages.old) }
    ensures undone { IfSome slot.old
        (λ t. OnErr result
        ((slot.new ≡ slot.old)
        × (ages.new ≡ ages_with (without_last t.age ages.old.held) ages.old.queue))) }
{
    let Some(transaction) = slot else {
        unreachable!();
    };
    let outermost = transaction.store.depth() == 0;
    match perform(alloc, catalog, &mut transaction.store, asked) {
        Ok(reply) => {
            let over = outermost && reply.reply().is_failure();
            Ok(Worked { reply, over })
        }
        Err(error) => {
            ages.unhold(transaction.age);
            Err(error)
        }
    }
}

/// The transaction is over, with its locks and its queued request.
pub(crate) fn end_if(over: bool, slot: &mut Option<Transaction>, ages: &mut Ages)
    ensures slot { slot.new ≡ (if over then None else slot.old) }
    ensures ages { ages.new ≡ (if over then forgotten_if ages.old slot.old else ages.old) }
{
    if over {
        if let Some(transaction) = slot {
            ages.forget(transaction.age);
        }
        *slot = None;
    }
}

/// Restarts a younger transaction: its operations and locks are gone, its age stays, and it backs off for the lock.
fn restart(slot: &mut Option<Transaction>, ages: &mut Ages)
    ensures slot { slot.new ≡ restarted slot.old }
    ensures ages { ages.new ≡ forgotten_if ages.old slot.old }
{
    if let Some(transaction) = slot {
        transaction.store.clear();
        ages.give_up(transaction.age);
    }
}
