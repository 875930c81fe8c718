//! The levels of a transaction: their begins and ends.

ghost use Rattle.std.specs.Prelude.{◌≡◌, ◌<◌, ◌==◌, ℕ, List, [], IfOk, IsOk, IsSome, IfSome, OnOk, OnErr, None, IsFalse, IsTrue, length, if◌then◌else◌};
ghost use Rattle.tab_model.specs.declared.data.Command.TheVariants as command;
ghost use Rattle.tab_model.specs.declared.data.Part.{Part};
ghost use Rattle.tab_model.specs.Events.{change_all};
ghost use Rattle.tab_model.specs.State.{is_waiting, moves_at, transaction_at};
ghost use Rattle.tab_model.specs.declared.ask.Ask.TheVariants.{Do as DoCommand};
ghost use Rattle.tab_model.specs.Outcome.{is_empty, step_without_entry, outcome};
ghost use Rattle.tab_subs.specs.Subscribers.{IsHeldAt};
ghost use Rattle.tab_core.specs.Parts.{parts_of, state_with};
ghost use Rattle.tab_core.specs.Kept.{Agree, IsKept};
ghost use Rattle.tab_core.specs.Outermost.{outermost, CommitsBy};
ghost use Rattle.tab_core.specs.Steps.{asks_for_none, is_told_for_none};
ghost use Rattle.tab_core.specs.Works.{Nests, NestsTo, has_level, Undoes, undone, joined, forgotten_if, committed};

use crate::machine::Machine;
use crate::operating::end_if;
use crate::step::Stepped;
use crate::transaction::Transaction;
use std::alloc::{AllocError, Global};
use std::sync::Wait;
use tab_model::{Entry, Limit, Limits, Reply, Sessions, SharedReply};
use tab_outbox::Post;
use tab_tables::{Catalog, Lender};
use tab_term::Term;
use tab_txstore::{Finished, TxStore};
use tab_waitdie::Ages;

impl<P: Post + Drop> Machine<P> {
    /// Level 1 with the next age, or a child level.
    pub(crate) fn begin(&mut self, session: u32, place: usize) -> Result<Reply, AllocError>
        requires kept { IsKept (parts_of self.old) }
        requires there { IsHeldAt self.old.sessions session place }
        requires idle { IsFalse (is_waiting (state_with self.old) session) }
        ensures ok { IfOk result
            (λ r. outcome (state_with self.old) [] session (DoCommand command.Begin)
            ≡ step_without_entry (state_with self.new) r) }
        ensures free { transaction_at (state_with self.old) session ≡ None
            → IsOk result }
        ensures told { IsTrue
            (is_told_for_none (state_with self.old) session (DoCommand command.Begin))
            → IsOk result }
        ensures err { OnErr result
            (state_with self.new ≡ state_with self.old) }
        ensures kept { IsKept (parts_of self.new) }
    {
        if self.sessions.transaction(place).is_some() {
            return Ok(nest(&self.limits, self.sessions.transaction_mut(place))?);
        }
        if self.begun >= self.limits.ages {
            return Ok(Reply::SystemLimit(Limit::Ages));
        }
        self.begun += 1;
        *self.sessions.transaction_mut(place) = Some(Transaction {
            age: self.begun,
            store: TxStore::new(self.alloc),
        });
        Ok(Reply::Tid(self.begun))
    }

    /// Opens level 1 of a one-shot, with the next age, unless the session is in a transaction.
    pub(crate) fn one_shot(&mut self, session: u32, place: usize) -> Result<Reply, AllocError>
        requires kept { IsKept (parts_of self.old) }
        requires there { IsHeldAt self.old.sessions session place }
        requires idle { IsFalse (is_waiting (state_with self.old) session) }
        ensures ok { IfOk result
            (λ r. (parts : List Part) (retries : ℕ)
            → outcome (state_with self.old) [] session
            (DoCommand (command.OneShot parts retries))
            ≡ step_without_entry (state_with self.new) r) }
        ensures free { IsOk result }
        ensures err { OnErr result
            (state_with self.new ≡ state_with self.old) }
        ensures kept { IsKept (parts_of self.new) }
    {
        if self.sessions.transaction(place).is_some() {
            return Ok(Reply::InTransaction);
        }
        Ok(self.begin(session, place)?)
    }

    /// A commit that puts nothing into posts: of a child, or the outermost if no one watches its tables, or one that is
    /// refused. If memory is refused nothing changes.
    pub(crate) fn commit<R: Wait>(&mut self, rt: &R, session: u32) -> Result<Stepped, AllocError>
        requires kept { IsKept (parts_of self.old) }
        ensures done { IfOk result
            (λ s. CommitsBy (state_with self.old) session s
            (state_with self.new)
            (outermost (state_with self.old) session)) }
        ensures free { IsTrue
            (asks_for_none (state_with self.old) session (DoCommand command.Commit))
            → IsOk result }
        ensures told { IsTrue
            (is_told_for_none (state_with self.old) session (DoCommand command.Commit))
            → IsOk result }
        ensures err { OnErr result
            (state_with self.new ≡ state_with self.old) }
        ensures agree { Agree (parts_of self.new) }
    {
        let Some(place) = self.sessions.place(session) else {
            return Ok(Stepped::without_entry(Reply::BadSession));
        };
        if self.waits(session) {
            return Ok(Stepped::without_entry(Reply::WaitingNow));
        }
        self.commit_at(rt, session, place)
    }

    /// All growths come first: from there nothing fails.
    fn commit_at<R: Wait>(
        &mut self,
        rt: &R,
        session: u32,
        place: usize,
    ) -> Result<Stepped, AllocError>
        requires kept { IsKept (parts_of self.old) }
        requires there { IsHeldAt self.old.sessions session place }
        requires idle { IsFalse (is_waiting (state_with self.old) session) }
        ensures done { IfOk result
            (λ s. CommitsBy (state_with self.old) session s
            (state_with self.new)
            (outermost (state_with self.old) session)) }
        ensures free { IsTrue (is_empty (moves_at (state_with self.old) session))
            → IsOk result }
        ensures told { IsTrue
            (is_told_for_none (state_with self.old) session (DoCommand command.Commit))
            → IsOk result }
        ensures err { OnErr result
            (state_with self.new ≡ state_with self.old) }
        ensures agree { Agree (parts_of self.new) }
    {
        let Some(transaction) = self.sessions.transaction(place) else {
            return Ok(Stepped::without_entry(Reply::NoTransaction));
        };
        if transaction.store.depth() > 0 {
            join_level(self.sessions.transaction_mut(place));
            return Ok(Stepped::without_entry(Reply::AtomicOk));
        }
        commit_to(rt, self.alloc, &mut self.catalog, &transaction.store)?;
        self.commits += 1;
        let finished = finish(
            self.alloc,
            self.commits,
            session,
            self.sessions.transaction_mut(place),
            &mut self.ages,
        );
        Ok(finished)
    }

    /// The innermost level ends, with the request that waits.
    pub(crate) fn abort(&mut self, session: u32, place: usize, reason: Term) -> Reply
        requires kept { IsKept (parts_of self.old) }
        requires there { IsHeldAt self.old.sessions session place }
        ensures ok { outcome (state_with self.old) [] session
            (DoCommand (command.Abort reason))
            ≡ step_without_entry (state_with self.new) result }
        ensures kept { IsKept (parts_of self.new) }
    {
        if self.sessions.transaction(place).is_none() {
            return Reply::NoTransaction;
        }
        self.queue.retain(|request| request.session != session);
        undo(self.sessions.transaction_mut(place), &mut self.ages);
        Reply::UserAbort(reason)
    }
}

/// Begins a child, if there is room for one more level and one more move.
fn nest(limits: &Limits, slot: &mut Option<Transaction>) -> Result<Reply, AllocError>
    requires { IsSome slot.old }
    ensures ok { IfSome slot.old (λ t. IfOk result (NestsTo limits.now t slot.new)) }
    ensures free { IfSome slot.old (λ t. IsFalse (has_level limits.now t) → IsOk result) }
    ensures err { OnErr result (slot.new ≡ slot.old) }
{
    let Some(transaction) = slot else {
        unreachable!();
    };
    nest_in(limits, transaction)
}

fn nest_in(limits: &Limits, transaction: &mut Transaction) -> Result<Reply, AllocError>
    ensures ok { IfOk result (Nests limits.now transaction.old transaction.new) }
    ensures free { IsFalse (has_level limits.now transaction.old) → IsOk result }
    ensures err { OnErr result (transaction.new ≡ transaction.old) }
{
    if transaction.store.depth() as u64 >= limits.nesting.saturating_sub(1) {
        return Ok(Reply::SystemLimit(Limit::Nesting));
    }
    if transaction.store.count() as u64 >= limits.operations {
        return Ok(Reply::SystemLimit(Limit::Operations));
    }
    transaction.store.nest(transaction.age)?;
    Ok(Reply::Tid(transaction.age))
}

/// A child commits.
fn join_level(slot: &mut Option<Transaction>)
    requires { IfSome slot.old (λ t. 0 < length t.store.levels.saved) }
    ensures { slot.new ≡ joined slot.old }
{
    if let Some(transaction) = slot {
        transaction.store.nest_commit();
    }
}

/// Makes a transaction's updates in the tables, which share the records that it has already. If there are none it takes
/// no memory.
fn commit_to<R: Wait>(
    rt: &R,
    alloc: Global,
    catalog: &mut Catalog,
    store: &TxStore,
) -> Result<(), AllocError>
    ensures ok { OnOk result (catalog.new ≡ change_all catalog.old store.now.levels.now.updates) }
    ensures free { store.now.levels.now.updates ≡ [] → IsOk result }
    ensures err { OnErr result (catalog.new ≡ catalog.old) }
{
    let updates = store.updates();
    if updates.is_empty() {
        return Ok(());
    }
    catalog.update(rt, alloc, updates, &Lender::Overlay(store.overlay()))
}

/// An open transaction is over, and leaves the log its entry.
pub(crate) fn finish(
    alloc: Global,
    number: u64,
    session: u32,
    slot: &mut Option<Transaction>,
    ages: &mut Ages,
) -> Stepped
    requires { IsSome slot.old }
    ensures over { slot.new ≡ None }
    ensures ages { ages.new ≡ forgotten_if ages.old slot.old }
    ensures told { IfSome slot.old (λ t. result ≡ committed number session t) }
{
    let Some(transaction) = slot.take() else {
        unreachable!();
    };
    let (age, store) = transaction.into_parts();
    ages.forget(age);
    let Finished {
        moves,
        told,
        updates,
    } = store.finished();
    drop(updates);
    Stepped {
        reply: SharedReply::new(Reply::Atomic(number)),
        entry: Some(Entry::Committed {
            number,
            session,
            age,
            moves,
            told,
            overflowed: Sessions {
                items: Vec::new(alloc),
            },
        }),
    }
}

/// The innermost level of an open transaction is undone, and its queued request gone.
fn undo(slot: &mut Option<Transaction>, ages: &mut Ages)
    requires { IsSome slot.old }
    ensures { IfSome slot.old (λ t. Undoes t ages.old slot.new ages.new) }
{
    let Some(transaction) = slot else {
        unreachable!();
    };
    ages.drop_wait(transaction.age);
    let over = undo_level(transaction);
    end_if(over, slot, ages);
}

/// Undoes a child; true of level 1, which stays.
fn undo_level(transaction: &mut Transaction) -> bool
    ensures over { result ≡ (length transaction.old.store.levels.saved == 0) }
    ensures store { transaction.new
        ≡ (if length transaction.old.store.levels.saved == 0 then transaction.old else undone
        transaction.old) }
{
    if transaction.store.depth() == 0 {
        return true;
    }
    transaction.store.nest_abort();
    false
}
