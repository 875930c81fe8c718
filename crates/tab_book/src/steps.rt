//! Steps of a book.

ghost use Rattle.std.specs.Prelude.{◌≡◌, ◌≢◌, ◌<◌, ◌&&◌, [], IsTrue, IsFalse, IfOk, IfSome, IsOk, MatchOption, OnOk, OnErr, is_some, length, nat_lt};
ghost use mathlib.Core.List.{IsPrefix};
ghost use Rattle.tab_model.specs.declared.data.Reply.TheVariants.{Restart};
ghost use Rattle.tab_model.specs.State.{Outbox, is_waiting, transaction_at};
ghost use Rattle.tab_model.specs.Run.{entries};
ghost use Rattle.tab_model.specs.Standing.{may_enter as may_enter_of};
ghost use Rattle.tab_core.specs.Runs.{ask_of as asked_of};
ghost use Rattle.tab_core.specs.Steps.{takes_no_memory};
ghost use Rattle.tab_book.specs.Releases.{is_retry, SaysReleases};
ghost use Rattle.tab_book.specs.Replies.{Answers, IsAnswer};
ghost use Rattle.tab_book.specs.Running.{IsRunning};
ghost use Rattle.tab_book.specs.Transitions.{counted_levels, ended_by, is_leave, is_restart, transition};
ghost use Rattle.tab_journal.specs.Journals.{is_full};
ghost use Rattle.tab_book.specs.Steps.{ask_of, leaves as leaves_of, folded, is_never_refused, oldest_joined as oldest_joined_of, with_entries, FoldsWhileFull, StepsFrom, StepsTo, MayFold, KeepsPosts};

use crate::book::Book;
use crate::log::{Request, Seen};
use crate::step::{Answered, Step, TransactionEnd, Transition};
use std::alloc::AllocError;
use tab_core::Stepped;
use tab_journal::{Folded, Journal};
use tab_model::{Command, Entry, Reply, SharedReply};
use tab_post::Host;

/// The number of a session's open levels, and of the commits.
#[derive(Clone, Copy)]
struct Standing {
    levels: u64,
    commits: u64,
}

/// The ways in which a session holds others up: an open transaction, and a queued request.
#[derive(Clone, Copy)]
struct Holdup {
    open: bool,
    waits: bool,
}

impl<H: Host> Book<H> {
    /// Makes one step of a session, with its entry put into the journal. If the journal is full and the step may give
    /// an entry, the oldest are folded into the base first, until there is room for it, which takes memory. If that is
    /// refused, or the step's, nothing else changed.
    pub fn step(&mut self, session: u32, step: Step) -> Result<Answered, AllocError>
        ensures done { IfOk result (λ r. StepsTo self.old session (ask_of step) r.told self.new) }
        ensures free { IsTrue (takes_no_memory self.old.state session (ask_of step))
            → IsFalse (is_full self.old.journal && may_enter_of self.old.state session
            (ask_of step)) → IsOk result }
        ensures err { OnErr result (MayFold self.old session (ask_of step) self.new) }
        ensures posts { KeepsPosts self.old.state self.new.state }
        ensures releases { IfOk result
            (λ r. SaysReleases r.releases self.old.state self.new.state) }
        ensures transaction { IfOk result
            (λ r. r.transaction
            ≡ transition self.old.state self.new.state session (ask_of step) r.told) }
        ensures answer { IfOk result (λ r. Answers self.old self.new session (ask_of step) r) }
        ensures running { IsRunning self.new }
    {
        // Known of the book before the step, and after it, is what its parts have to do with each other.
        let _ = self.journal();
        let answered = self.answered(session, step);
        let _ = &self.core;
        answered
    }

    /// Makes a step, and shows the log up to there to a thread that saw a beginning of it.
    pub fn step_shown(
        &mut self,
        session: u32,
        step: Step,
        seen: &mut Seen<H>,
    ) -> Result<Answered, AllocError>
        ensures never { IsTrue (is_never_refused step) → IsOk result }
        ensures answer { IfOk result (λ r.
            IsAnswer seen.old seen.new session (ask_of step) r) }
        ensures grows { IsPrefix seen.old seen.new }
    {
        self.show(seen);
        let answered = self.step(session, step);
        self.show(seen);
        answered
    }

    fn answered(&mut self, session: u32, step: Step) -> Result<Answered, AllocError>
        ensures done { IfOk result (λ r. StepsTo self.old session (ask_of step) r.told self.new) }
        ensures free { IsTrue (takes_no_memory self.old.state session (ask_of step))
            → IsFalse (is_full self.old.journal && may_enter_of self.old.state session
            (ask_of step)) → IsOk result }
        ensures err { OnErr result (MayFold self.old session (ask_of step) self.new) }
        ensures posts { KeepsPosts self.old.state self.new.state }
        ensures releases { IfOk result
            (λ r. SaysReleases r.releases self.old.state self.new.state) }
        ensures transaction { IfOk result
            (λ r. r.transaction
            ≡ transition self.old.state self.new.state session (ask_of step) r.told) }
    {
        let stood = self.standing(session);
        let before = self.holdup(session);
        let retries = retries(&step);
        let leaves = ends_session(&step);
        if self.journal.full() && self.may_enter(session, &step) {
            self.make_room()?;
        }
        let told = self.make(session, step)?;
        let releases = self.lets_go(session, before, retries, told.reply());
        let transaction = self.transition(session, stood, leaves, told.reply());
        Ok(Answered {
            told,
            releases,
            transaction,
        })
    }

    fn standing(&self, session: u32) -> Standing
        ensures { result
            ≡ record {
              levels = counted_levels self.now.state session;
              commits = self.now.state.commits;
            } }
    {
        Standing {
            levels: self.core.levels(session),
            commits: self.core.commits(),
        }
    }

    /// The transition of the session's transaction in a step, from its state before.
    fn transition(&self, session: u32, before: Standing, leaves: bool, reply: &Reply) -> Transition
        ensures { result
            ≡ record {
              before = before.levels;
              after = counted_levels self.now.state session;
              ended = ended_by before.levels (counted_levels self.now.state session)
                  (nat_lt before.commits self.now.state.commits) leaves (is_restart reply.now);
            } }
    {
        let after = self.core.levels(session);
        let ended = if before.levels == 0 {
            None
        } else if before.commits < self.core.commits() {
            Some(TransactionEnd::Commit)
        } else if leaves {
            Some(TransactionEnd::Leave)
        } else if after == 0 {
            Some(TransactionEnd::Abort)
        } else if matches!(reply, Reply::Restart) {
            Some(TransactionEnd::Restart)
        } else {
            None
        };
        Transition {
            before: before.levels,
            after,
            ended,
        }
    }

    /// The oldest entries are folded into the base, until there is room for one more.
    fn make_room(&mut self) -> Result<(), AllocError>
        ensures room { OnOk result (IsFalse (is_full self.new.journal)) }
        ensures state { self.new.state ≡ self.old.state }
        ensures log { self.new.log ≡ self.old.log }
        ensures folds { FoldsWhileFull self.old.state self.old.journal self.new.journal }
    {
        while self.journal.full() {
            self.fold()?;
        }
        Ok(())
    }

    /// None if no session waits or backs off, so that a release matters to no other.
    fn holdup(&self, session: u32) -> Option<Holdup>
        ensures { MatchOption result (self.now.state.queue ≡ [])
            (λ s. (s.open ≡ is_some (transaction_at self.now.state session))
            × (s.waits ≡ is_waiting self.now.state session)) }
    {
        if !self.core.has_waiters() {
            return None;
        }
        Some(Holdup {
            open: self.is_open(session),
            waits: self.core.waits(session),
        })
    }

    fn is_open(&self, session: u32) -> bool
        ensures { result ≡ is_some (transaction_at self.now.state session) }
    {
        self.core.levels(session) > 0
    }

    /// Returns whether a step with this reply may let others go on: its transaction ended or was restarted, or its
    /// queued request was dropped. A retry that is answered holds the lock from then on, so it makes way for no one.
    fn lets_go(&self, session: u32, before: Option<Holdup>, retries: bool, reply: &Reply) -> bool
        ensures ended { IfSome before
            (λ b. IsTrue b.open → IsFalse (is_some (transaction_at self.now.state session))
            → IsTrue result) }
        ensures dropped { IfSome before
            (λ b. IsFalse retries → IsTrue b.waits → IsFalse (is_waiting self.now.state session)
            → IsTrue result) }
        ensures restarted { IfSome before (λ b. reply.now ≡ Restart → IsTrue result) }
    {
        let Some(before) = before else {
            return false;
        };
        let ended = before.open && !self.is_open(session);
        let dropped = before.waits && !retries && !self.core.waits(session);
        ended || dropped || matches!(reply, Reply::Restart)
    }

    fn make(&mut self, session: u32, step: Step) -> Result<SharedReply, AllocError>
        requires room { IsTrue (may_enter_of self.old.state session (ask_of step))
            → IsFalse (is_full self.old.journal) }
        ensures done { IfOk result
            (λ r. StepsFrom self.old session (ask_of step) r self.new) }
        ensures free { IsTrue (takes_no_memory self.old.state session (ask_of step)) → IsOk result }
        ensures err { OnErr result (self.new ≡ self.old) }
        ensures posts { KeepsPosts self.old.state self.new.state }
    {
        let leaves = self.leaves(session, &step);
        let request = Request::of(&step);
        let stepped = self.core.step(&self.host, session, asked(step))?;
        let reply = entered(&mut self.journal, stepped);
        self.log.add(session, request, &reply);
        if leaves {
            self.journal.forget(session);
        }
        Ok(reply)
    }

    /// The oldest entry is folded into the base.
    fn fold(&mut self) -> Result<(), AllocError>
        requires full { IsTrue (is_full self.old.journal) }
        ensures ok { OnOk result (self.new
            ≡ record self.old { journal = folded self.old.state self.old.journal }) }
        ensures shorter { OnOk result
            (length self.new.journal.entries < length self.old.journal.entries) }
        ensures err { OnErr result (self.new ≡ self.old) }
    {
        let joined = self.oldest_joined();
        let tables = self.core.tables();
        let folded = self
            .journal
            .fold_oldest(&self.host, self.alloc, joined, tables)?;
        keep(&mut self.folded, folded);
        Ok(())
    }

    /// Returns whether the oldest entry is a subscription whose session is still joined.
    fn oldest_joined(&self) -> bool
        ensures { result ≡ oldest_joined_of self.now.state self.now.journal.entries }
    {
        match self.journal.entry(0) {
            Some(Entry::Subscribed { session, .. }) => self.core.joined(*session),
            _ => false,
        }
    }

    /// Returns whether a joined session leaves.
    fn leaves(&self, session: u32, step: &Step) -> bool
        ensures { result ≡ leaves_of self.now.state session (ask_of step.now) }
    {
        match step {
            Step::Leave => self.core.joined(session),
            _ => false,
        }
    }

    /// Returns whether the step may give an entry: a commit of level 1, a schema command, a begin or an end of a
    /// subscription.
    fn may_enter(&self, session: u32, step: &Step) -> bool
        ensures { result ≡ may_enter_of self.now.state session (ask_of step.now) }
    {
        match step {
            Step::Do(Command::Commit) => self.core.levels(session) == 1,
            Step::Do(Command::Schema(_) | Command::Subscribe(..) | Command::Unsubscribe(..)) => {
                self.core.joined(session)
            }
            _ => false,
        }
    }
}

fn retries(step: &Step) -> bool
    ensures { result ≡ is_retry (ask_of step.now) }
{
    matches!(step, Step::Retry)
}

fn ends_session(step: &Step) -> bool
    ensures { result ≡ is_leave (ask_of step.now) }
{
    matches!(step, Step::Leave)
}

/// The step as the core is asked it. No step of a book joins a session.
fn asked<P>(step: Step) -> tab_core::Step<P>
    ensures { (f : P → Outbox) → asked_of f result ≡ ask_of step }
{
    match step {
        Step::Join(none) => match none {},
        Step::Leave => tab_core::Step::Leave,
        Step::Retry => tab_core::Step::Retry,
        Step::Take => tab_core::Step::Take,
        Step::Do(command) => tab_core::Step::Do(command),
    }
}

/// The reply, with the entry put into the journal.
fn entered(journal: &mut Journal, stepped: Stepped) -> SharedReply
    requires { entries stepped.entry ≢ [] → IsFalse (is_full journal.old) }
    ensures reply { result ≡ stepped.reply }
    ensures journal { journal.new ≡ with_entries journal.old (entries stepped.entry) }
{
    let Stepped { reply, entry } = stepped;
    let Some(entry) = entry else {
        return reply;
    };
    match journal.try_push(entry) {
        Ok(()) => reply,
        Err(_) => unreachable!(),
    }
}

/// Keeps what was folded last. What was folded before is dropped.
fn keep(kept: &mut Option<Folded>, folded: Folded) {
    *kept = Some(folded);
}
