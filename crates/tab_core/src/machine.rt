//! The parts of a machine, and its commands.

ghost use Rattle.std.specs.Prelude.{◌≡◌, ◌≤◌, [], None, IfOk, IsOk, OnErr, IsFalse, IsTrue};
ghost use Rattle.tab_model.specs.State.{new, is_waiting};
ghost use Rattle.tab_model.specs.declared.ask.Ask.TheVariants.{Do as DoCommand};
ghost use Rattle.tab_model.specs.Outcome.{step_without_entry, outcome};
ghost use Rattle.tab_subs.specs.Subscribers.{IsHeldAt};
ghost use Rattle.tab_core.specs.Steps.{StepsTo, asks_for_none, is_told_for_none};
ghost use Rattle.tab_core.specs.Quiet.{is_quiet};
ghost use Rattle.tab_core.specs.Parts.{parts_of, state_with};
ghost use Rattle.tab_core.specs.Kept.{IsKept};

use crate::queue::{Request, find};
use crate::step::Stepped;
use crate::transaction::Transaction;
use std::alloc::{AllocError, Global};
use tab_model::{Command, Limits, Reply};
use tab_outbox::Post;
use tab_subs::Subs;
use tab_tables::{Catalog, table_info};
use tab_txstore::Whole;
use tab_waitdie::Ages;

/// The most sessions that are joined. They are searched one after another.
pub const SESSIONS: usize = 64;

/// The tables, the sessions, and their locks and waits.
pub(crate) struct Machine<P: Post> {
    pub(crate) alloc: Global,
    /// The tables as they are committed.
    pub catalog: Catalog,
    /// The joined sessions, in the order of their numbers.
    pub sessions: Subs<P, Transaction>,
    pub(crate) ages: Ages,
    pub(crate) queue: Vec<Request>,
    // The number of outermost transactions that have begun.
    pub(crate) begun: u64,
    /// The number of commits.
    pub commits: u64,
    /// The greatest number that has joined.
    pub greatest: u32,
    pub limits: Limits,
    /// The tables before the last schema command, whose drop may take long.
    pub replaced: Option<Catalog>,
}

// A derived Drop would be expanded, field by field, at each exit of each caller.
impl<P: Post + Drop> Drop for Machine<P> {
    fn drop(self) {
        let Machine {
            alloc: _,
            catalog,
            sessions,
            ages,
            queue,
            begun: _,
            commits: _,
            greatest: _,
            limits: _,
            replaced,
        } = self;
        drop(replaced);
        drop(catalog);
        drop(sessions);
        drop(ages);
        drop(queue);
    }
}

impl<P: Post + Drop> Machine<P> {
    /// No table, no session, and these limits. It takes no memory.
    pub(crate) fn new(alloc: Global, limits: Limits) -> Machine<P>
        requires { limits.sessions ≤ 64 }
        ensures state { state_with result ≡ new limits }
        ensures kept { IsKept (parts_of result) }
    {
        Machine {
            alloc,
            catalog: Catalog::empty(),
            sessions: Subs::new(alloc),
            ages: Ages::new(alloc),
            queue: Vec::new(alloc),
            begun: 0,
            commits: 0,
            greatest: 0,
            limits,
            replaced: None,
        }
    }

    /// A command that puts nothing into a post: no commit, no schema command, no subscription. If memory is refused
    /// nothing changes.
    pub(crate) fn command(&mut self, session: u32, command: Command) -> Result<Stepped, AllocError>
        requires quiet { IsTrue (is_quiet command) }
        requires kept { IsKept (parts_of self.old) }
        ensures done { IfOk result
            (λ s. StepsTo (state_with self.old) session (DoCommand command) s
            (state_with self.new)) }
        ensures free { IsTrue
            (asks_for_none (state_with self.old) session (DoCommand command))
            → IsOk result }
        ensures told { IsTrue
            (is_told_for_none (state_with self.old) session (DoCommand command))
            → IsOk result }
        ensures err { OnErr result
            (state_with self.new ≡ state_with self.old) }
        ensures kept { IsKept (parts_of self.new) }
    {
        let asked = Whole { value: command };
        let Some(place) = self.sessions.place(session) else {
            return Ok(Stepped::without_entry(Reply::BadSession));
        };
        if find(&self.queue, session).is_some() {
            let reply = self.waiting_command(session, place, asked);
            return Ok(Stepped::without_entry(reply));
        }
        self.idle_command(session, place, asked)
    }

    /// A command of a session that waits: it can do nothing but abort.
    fn waiting_command(&mut self, session: u32, place: usize, asked: Whole<Command>) -> Reply
        requires kept { IsKept (parts_of self.old) }
        requires there { IsHeldAt self.old.sessions session place }
        requires waits { IsTrue (is_waiting (state_with self.old) session) }
        ensures done { outcome (state_with self.old) [] session (DoCommand asked.value)
            ≡ step_without_entry (state_with self.new) result }
        ensures kept { IsKept (parts_of self.new) }
    {
        match asked.into_value() {
            Command::Abort(reason) => self.abort(session, place, reason),
            _ => Reply::WaitingNow,
        }
    }

    /// A command of a session that waits for nothing.
    fn idle_command(
        &mut self,
        session: u32,
        place: usize,
        asked: Whole<Command>,
    ) -> Result<Stepped, AllocError>
        requires quiet { IsTrue (is_quiet asked.value) }
        requires kept { IsKept (parts_of self.old) }
        requires there { IsHeldAt self.old.sessions session place }
        requires idle { IsFalse (is_waiting (state_with self.old) session) }
        ensures done { IfOk result
            (λ s. outcome (state_with self.old) [] session (DoCommand asked.value)
            ≡ record { state = state_with self.new; reply = s.reply; entry = s.entry }) }
        ensures free { IsTrue
            (asks_for_none (state_with self.old) session (DoCommand asked.value))
            → IsOk result }
        ensures told { IsTrue
            (is_told_for_none (state_with self.old) session (DoCommand asked.value))
            → IsOk result }
        ensures err { OnErr result
            (state_with self.new ≡ state_with self.old) }
        ensures kept { IsKept (parts_of self.new) }
    {
        match asked.into_value() {
            Command::Begin => {
                let reply = self.begin(session, place)?;
                Ok(Stepped::without_entry(reply))
            }
            Command::Abort(reason) => {
                let reply = self.abort(session, place, reason);
                Ok(Stepped::without_entry(reply))
            }
            Command::Do(operation) => {
                let asked = Whole { value: operation };
                let reply = self.operate(session, place, asked)?;
                Ok(Stepped::told(reply))
            }
            Command::TableInfo(name, item) => {
                let reply = table_info(self.alloc, &self.catalog, &name, item)?;
                Ok(Stepped::without_entry(reply))
            }
            Command::OneShot(parts, _) => {
                drop(parts);
                let reply = self.one_shot(session, place)?;
                Ok(Stepped::without_entry(reply))
            }
            _ => unreachable!(),
        }
    }
}
