//! The core: a machine of steps over tables and one list of sessions, each with its transaction, its subscriptions and
//! its post.
//!
//! Contracts see a core as one plain state (`State` of tab_model), and a step is a function of it (`outcome`) and of
//! the posts that refuse. A one-shot's step only opens level 1: its driver does the other steps.

#![tactic(auto)]

ghost use Rattle.std.specs.Prelude.{◌≡◌, ◌≤◌, ◌++◌, ℕ, List, IfOk, IsOk, OnErr, IsTrue};
ghost use Rattle.tab_model.specs.declared.data.Entry.{Entry as EntryOf};
ghost use Rattle.tab_model.specs.declared.data.Item.{Item as ItemOf};
ghost use Rattle.tab_model.specs.State.{new, IsSound};
ghost use Rattle.tab_model.specs.Reached.{IsRising};
ghost use Rattle.tab_model.specs.declared.ask.Ask.TheVariants.{Do as DoCommand};
ghost use Rattle.tab_model.specs.Run.{IsTied, JoinsEmpty, delivered_by, entries};
ghost use Rattle.tab_core.specs.Runs.{ask_of, asks_of, AllJoinEmpty, StepsTo, StepsOrNoMemory, RunsTo, taken_in};
ghost use Rattle.tab_core.specs.Steps.{takes_no_memory};

mod committing;
mod contended;
mod dump;
mod ending;
mod joining;
mod levels;
mod machine;
mod operating;
mod queue;
mod redefining;
mod seen;
mod sessions;
mod step;
mod subscribing;
mod transaction;

use crate::machine::Machine;
pub use machine::SESSIONS;
use std::alloc::{AllocError, Global};
use std::marker::Model;
use std::sync::Wait;
pub use step::Stepped;
pub use tab_model::Ask as Step;
use tab_model::{Command, Limits, Reply, SharedReply};
use tab_outbox::Post;
use tab_subs::Subs;
use tab_tables::Catalog;
pub use tab_waitdie::Rest;

/// A core: tables, sessions, and the items of each session.
///
/// Contracts see it as one plain state. In every state of a core, the replies of each open transaction are those of
/// running it by itself on the tables as they are. No two transactions hold locks that conflict (`IsSound`). Ages rise
/// along every wait, and each queued request is of its session's open transaction (`IsRising`).
#[derive(Drop)]
pub struct Core<P: Post> {
    machine: Machine<P>,
}

impl<P: Post> Model for Core<P> {
    ghost use Rattle.std.specs.Coded.{codes};
    ghost use Rattle.tab_term.specs.Code.{term_code, terms_code, pairs_code};
    ghost use Rattle.tab_model.specs.State.{State};
    ghost use Rattle.tab_core.specs.Parts.{parts_of, state_with};
    ghost use Rattle.tab_core.specs.Kept.{IsKept};

    ghost Value = { State };

    ghost coded = { Prim.hlevel (codes, term_code, terms_code, pairs_code) };

    ghost view = { λ a. state_with a.machine };

    ghost invariant = { λ a. IsKept (parts_of a.machine) };
}

impl<P: Post + Drop> Core<P> {
    /// A core without tables and sessions. It has 64 sessions at most.
    pub fn new(alloc: Global, limits: Limits) -> Core<P>
        requires { limits.sessions ≤ 64 }
        ensures { result ≡ new limits }
    {
        Core {
            machine: Machine::new(alloc, limits),
        }
    }

    /// One step of a session, whole or, if memory that it takes is refused, not at all. A session joins with an empty post.
    ///
    /// The entries of all steps so far, and what each session took, give the tables again (`IsTied`), from before the step to after it.
    ///
    /// A commit that is refused midway waits for the memory that undoes it, by `rt`.
    pub fn step<R: Wait>(
        &mut self,
        rt: &R,
        session: u32,
        step: Step<P>,
    ) -> Result<Stepped, AllocError>
        ensures done { IfOk result
            (λ s. StepsTo self.old session (ask_of P.outbox step) s self.new) }
        ensures tied { IfOk result
            (λ s. JoinsEmpty (ask_of P.outbox step)
            → (earlier : List EntryOf) (taken : ℕ → List ItemOf) → IsTied self.old earlier taken
            → IsTied self.new (earlier ++ entries s.entry)
            (λ m. taken m ++ delivered_by m session s.reply)) }
        ensures free { IsTrue (takes_no_memory self.old session (ask_of P.outbox step))
            → IsOk result }
        ensures err { OnErr result (self.new ≡ self.old) }
        ensures sound { IsSound self.new }
        ensures rising { IsRising self.new }
    {
        // Known of the core is that it is sound, before the step and after it.
        let _ = &self.machine;
        self.drop_replaced();
        let stepped = self.make(rt, session, step);
        let _ = &self.machine;
        stepped
    }

    // What the last step replaced is seldom there.
    fn drop_replaced(&mut self)
        ensures { self.new ≡ self.old }
    {
        if self.machine.replaced.is_some() {
            self.machine.replaced = None;
        }
    }

    fn make<R: Wait>(&mut self, rt: &R, session: u32, step: Step<P>) -> Result<Stepped, AllocError>
        ensures done { IfOk result
            (λ s. StepsTo self.old session (ask_of P.outbox step) s self.new) }
        ensures free { IsTrue (takes_no_memory self.old session (ask_of P.outbox step))
            → IsOk result }
        ensures err { OnErr result (self.new ≡ self.old) }
    {
        match step {
            Step::Join(post) => self.join(session, post),
            Step::Leave => Ok(self.leave(session)),
            Step::Retry => self.retry(session),
            Step::Take => Ok(self.take(session)),
            Step::Do(command) => self.command(rt, session, command),
        }
    }

    fn command<R: Wait>(
        &mut self,
        rt: &R,
        session: u32,
        command: Command,
    ) -> Result<Stepped, AllocError>
        ensures done { IfOk result (λ s. StepsTo self.old session (DoCommand command) s self.new) }
        ensures free { IsTrue (takes_no_memory self.old session (DoCommand command)) → IsOk result }
        ensures err { OnErr result (self.new ≡ self.old) }
    {
        match command {
            Command::Commit => self.commit(rt, session),
            Command::Schema(schema) => self.schema(session, schema),
            Command::Subscribe(table, level, dump) => self.subscribe(session, table, level, dump),
            Command::Unsubscribe(table, level) => self.unsubscribe(session, table, level),
            command => self.machine.command(session, command),
        }
    }

    /// Steps in order, with their replies; a step refused for memory has the reply NoMemory. The answer is
    /// reserved first: its error means that no step was made.
    pub fn run_steps<R: Wait>(
        &mut self,
        rt: &R,
        alloc: Global,
        steps: Vec<(u32, Step<P>)>,
    ) -> Result<Vec<SharedReply>, AllocError>
        requires { AllJoinEmpty (asks_of P.outbox steps.items) }
        ensures run { IfOk result
            (λ rs. (log : List EntryOf)
            × RunsTo self.old (asks_of P.outbox steps.items) rs.items log self.new
            × ((earlier : List EntryOf) (taken : ℕ → List ItemOf) → IsTied self.old earlier taken
            → IsTied self.new (earlier ++ log)
            (λ m. taken m ++ taken_in m (asks_of P.outbox steps.items) rs.items))) }
        ensures err { OnErr result (self.new ≡ self.old) }
        ensures sound { IsSound self.new }
        ensures rising { IsRising self.new }
    {
        // Known of the core from here on is that it is sound.
        let _ = &self.machine;
        let mut replies = Vec::with_capacity(alloc, steps.len())?;
        for (session, step) in steps {
            let reply = self.step_reply(rt, session, step);
            replies.push_reserved(reply);
        }
        Ok(replies)
    }

    /// Makes one step of a session. Its reply is NoMemory if memory was refused.
    fn step_reply<R: Wait>(&mut self, rt: &R, session: u32, step: Step<P>) -> SharedReply
        ensures { (log : List EntryOf)
            × StepsOrNoMemory self.old (session, ask_of P.outbox step) result log self.new }
    {
        match self.step(rt, session, step) {
            Ok(stepped) => stepped.into_reply(),
            Err(_) => SharedReply::new(Reply::NoMemory),
        }
    }

    /// The tables before the last step, if it was a schema command. A caller that holds a lock can drop them after it; the next
    /// step drops them otherwise.
    pub fn take_replaced(&mut self) -> Option<Catalog>
        ensures { self.new ≡ self.old }
    {
        self.machine.replaced.take()
    }

    /// How many index entries the changes are of that the tables' indexes lack. `settle` makes them.
    pub fn lacks(&self) -> usize {
        self.machine.catalog.lacks()
    }

    /// Makes changes of one table in its indexes that lack them, of at most so many entries. No state and no reply changes.
    pub fn settle(&mut self, most: usize) -> Result<(), AllocError>
        ensures { self.new ≡ self.old }
    {
        let alloc = self.machine.alloc;
        self.machine.catalog.settle(alloc, most)
    }

    /// The tables as they are committed.
    pub fn tables(&self) -> &Catalog
        ensures { result.now ≡ self.now.tables }
    {
        &self.machine.catalog
    }
}
