//! Outermost commits and schema commands, with their items for the subscribers.

ghost use Rattle.std.specs.Prelude.{◌≡◌, ◌+◌, ◌∷◌, ◌++◌, [], None, IfOk, IsOk, OnOk, OnErr, IsTrue};
ghost use Rattle.std.specs.List.{filter};
ghost use Rattle.tab_model.specs.declared.data.Command.TheVariants as command;
ghost use Rattle.tab_model.specs.declared.ask.Ask.TheVariants.{Do as DoCommand};
ghost use Rattle.tab_model.specs.Events.{event_of};
ghost use Rattle.tab_model.specs.State.{session_at};
ghost use Rattle.tab_core.specs.Owing.{are_watched as are_watched_by, is_watched, Commits, Owes, Updates};
ghost use Rattle.tab_core.specs.Runs.{StepsTo};
ghost use Rattle.tab_core.specs.Steps.{takes_no_memory};
ghost use Rattle.tab_core.specs.Parts.{parts_of, state_with};
ghost use Rattle.tab_core.specs.Kept.{Agree, IsKept};
ghost use Rattle.tab_core.specs.Outermost.{outermost, Commits as CommitsOutermost, Ends};
ghost use Rattle.tab_model.specs.State.{Transaction as Opened};
ghost use Rattle.tab_core.specs.Subscribing.{inside_refusal, refused_by};

use crate::Core;
use crate::ending::Ending;
use crate::machine::Machine;
use crate::step::{Stepped, with_overflowed};
use crate::transaction::Transaction;
use std::alloc::{AllocError, Global};
use std::sync::Wait;
use tab_model::{Event, Reply, Schema};
use tab_outbox::Post;
use tab_rows::Update;
use tab_subs::Subs;
use tab_tables::{Catalog, Changing, table_of_update};

/// The tables after a commit, unless the commit makes its only change itself; and those of its events that someone watches.
pub(crate) struct Updated {
    pub tables: Option<Catalog>,
    pub events: Vec<Event>,
}

impl Drop for Updated {
    fn drop(self) {
        let Updated { tables, events } = self;
        drop(tables);
        drop(events);
    }
}

impl Updated {
    fn into_tables(self) -> Option<Catalog>
        ensures { result ≡ self.tables }
    {
        let Updated { tables, events } = self;
        drop(events);
        tables
    }
}

impl<P: Post + Drop> Core<P> {
    /// All growths come first, then the tables move in, the locks go and the batches are put: from there nothing fails.
    pub(crate) fn commit<R: Wait>(&mut self, rt: &R, session: u32) -> Result<Stepped, AllocError>
        ensures done { IfOk result
            (λ s. StepsTo self.old session (DoCommand command.Commit) s self.new) }
        ensures free { IsTrue (takes_no_memory self.old session (DoCommand command.Commit))
            → IsOk result }
        ensures err { OnErr result (self.new ≡ self.old) }
    {
        let Some(ending) = self.machine.outermost(session) else {
            return self.machine.commit(rt, session);
        };
        let Some(updated) = expected(self.machine.alloc, &self.machine, &ending)? else {
            return self.machine.commit(rt, session);
        };
        deliver_commit(rt, &mut self.machine, session, updated)
    }

    /// Makes a schema command. It looks for a refusal of the session itself before it takes any memory.
    pub(crate) fn schema(&mut self, session: u32, schema: Schema) -> Result<Stepped, AllocError>
        ensures done { IfOk result
            (λ s. StepsTo self.old session (DoCommand (command.Schema schema)) s self.new) }
        ensures free { IsTrue (takes_no_memory self.old session (DoCommand (command.Schema schema)))
            → IsOk result }
        ensures err { OnErr result (self.new ≡ self.old) }
    {
        if let Some(refusal) = self.schema_refusal(session) {
            return Ok(Stepped::without_entry(refusal));
        }
        self.redefine(session, schema)
    }

    /// The refusal of a schema command that does not depend on its table, if there is one.
    fn schema_refusal(&self, session: u32) -> Option<Reply>
        ensures { result
            ≡ refused_by self.now session inside_refusal (session_at self.now.sessions session) }
    {
        if let Some(refusal) = self.session_refusal(session) {
            return Some(refusal);
        }
        if self.levels(session) > 0 {
            return Some(Reply::InTransaction);
        }
        None
    }

    /// A table's deletion owes end markers; no other schema command owes anything.
    fn redefine(&mut self, session: u32, schema: Schema) -> Result<Stepped, AllocError>
        requires free { None
            ≡ refused_by self.old session inside_refusal (session_at self.old.sessions session) }
        ensures done { IfOk result
            (λ s. StepsTo self.old session (DoCommand (command.Schema schema)) s self.new) }
        ensures err { OnErr result (self.new ≡ self.old) }
    {
        let Schema::Remove(table) = &schema else {
            return self.machine.schema(schema);
        };
        let number = next_commit(&self.machine)?;
        let prepared = self
            .machine
            .sessions
            .prepare_end(self.machine.alloc, table, number)?;
        let stepped = self.machine.schema(schema)?;
        if stepped.entry.is_none() {
            return Ok(stepped);
        }
        let over = self.machine.sessions.deliver(prepared);
        Ok(with_overflowed(stepped, over))
    }
}

/// A commit whose tables and events are made. A refusal leaves all as it was.
fn deliver_commit<P: Post + Drop, R: Wait>(
    rt: &R,
    machine: &mut Machine<P>,
    session: u32,
    updated: Updated,
) -> Result<Stepped, AllocError>
    requires kept { IsKept (parts_of machine.old) }
    requires ends { Commits (state_with machine.old) machine.old.sessions session updated }
    ensures done { IfOk result
        (λ s. StepsTo (state_with machine.old) session (DoCommand command.Commit) s
        (state_with machine.new)) }
    ensures kept { IsKept (parts_of machine.new) }
    ensures err { OnErr result (state_with machine.new ≡ state_with machine.old) }
{
    let number = next_commit(machine)?;
    let prepared = machine
        .sessions
        .prepare(machine.alloc, number, &updated.events)?;
    let stepped = commit_to(rt, machine, session, updated.into_tables())?;
    let over = machine.sessions.deliver(prepared);
    Ok(with_overflowed(stepped, over))
}

/// Commits the session's outermost transaction: with these tables, or else it makes its only change itself, in place if
/// nothing is shared. If memory is refused nothing changes.
fn commit_to<P: Post + Drop, R: Wait>(
    rt: &R,
    machine: &mut Machine<P>,
    session: u32,
    tables: Option<Catalog>,
) -> Result<Stepped, AllocError>
    requires kept { IsKept (parts_of machine.old) }
    requires ends { (t : Opened) × Ends (state_with machine.old) session t tables }
    ensures done { (t : Opened) → outermost (state_with machine.old) session ≡ Some t
        → IfOk result
        (λ s. CommitsOutermost (state_with machine.old) session t s (state_with machine.new)) }
    ensures agree { Agree (parts_of machine.new) }
    ensures err { OnErr result (state_with machine.new ≡ state_with machine.old) }
{
    match tables {
        Some(tables) => Ok(machine.commit_as(session, tables)),
        None => machine.commit(rt, session),
    }
}

// A number past a machine word is memory that is not there.
fn next_commit<P: Post + Drop>(machine: &Machine<P>) -> Result<u64, AllocError>
    ensures { IfOk result (λ number. number ≡ machine.now.commits + 1) }
{
    match machine.commits.checked_add(1) {
        Some(number) => Ok(number),
        None => Err(AllocError),
    }
}

/// The events of a commit for the subscribers, if there are any.
fn expected<P: Post + Drop>(
    alloc: Global,
    machine: &Machine<P>,
    ending: &Ending<'_>,
) -> Result<Option<Updated>, AllocError>
    ensures owes { IfOk result
        (Owes machine.now.catalog machine.now.sessions ending.now.age ending.now.updates.now) }
    ensures free { ending.now.updates.now ≡ [] → IsOk result }
{
    if ending.updates.is_empty() {
        return Ok(None);
    }
    let watched = are_watched(alloc, &machine.sessions, ending.updates)?;
    if !watched {
        return Ok(None);
    }
    let updated = updated_by(alloc, machine, ending)?;
    Ok(Some(updated))
}

/// The events of a commit that someone watches, with the tables after it if it has several changes.
fn updated_by<P: Post + Drop>(
    alloc: Global,
    machine: &Machine<P>,
    ending: &Ending<'_>,
) -> Result<Updated, AllocError>
    ensures { IfOk result
        (Updates machine.now.catalog machine.now.sessions ending.now.age ending.now.updates.now) }
{
    let tables = &machine.catalog;
    let subs = &machine.sessions;
    match ending.updates {
        [update] => only_event(alloc, tables, subs, ending.age, update),
        _ => changed_tables(alloc, tables, subs, ending),
    }
}

/// Returns whether someone watches a table of the changes.
fn are_watched<P: Post + Drop>(
    alloc: Global,
    subs: &Subs<P, Transaction>,
    updates: &[Update],
) -> Result<bool, AllocError>
    ensures { IfOk result (λ are. are ≡ are_watched_by subs.now updates.now) }
{
    for update in updates {
        if subs.has_watcher(&table_of_update(alloc, update)?) {
            return Ok(true);
        }
    }
    Ok(false)
}

/// One pass over the changes: the tables after them, and the events that someone watches.
fn changed_tables<P: Post + Drop>(
    alloc: Global,
    tables: &Catalog,
    subs: &Subs<P, Transaction>,
    ending: &Ending<'_>,
) -> Result<Updated, AllocError>
    ensures { IfOk result (Updates tables.now subs.now ending.now.age ending.now.updates.now) }
{
    let mut changing = Changing::new(tables.share()?);
    let mut events = Vec::new(alloc);
    for update in ending.updates {
        push_watched(alloc, &mut events, &changing, subs, ending.age, update)?;
        changing = changing.changed(alloc, update, &ending.lender)?;
    }
    let tables = changing.into_catalog(alloc)?;
    Ok(Updated {
        tables: Some(tables),
        events,
    })
}

/// The event of a commit's only change, if someone watches its table. The tables stay unshared, so that the commit can make
/// the change in place.
fn only_event<P: Post + Drop>(
    alloc: Global,
    tables: &Catalog,
    subs: &Subs<P, Transaction>,
    age: u64,
    update: &Update,
) -> Result<Updated, AllocError>
    ensures { IfOk result (Updates tables.now subs.now age (update.now ∷ [])) }
{
    let changing = Changing::new(tables.share()?);
    let mut events = Vec::new(alloc);
    push_watched(alloc, &mut events, &changing, subs, age, update)?;
    Ok(Updated {
        tables: None,
        events,
    })
}

/// Adds the event of a change that is about to be made, if a session watches its table.
fn push_watched<P: Post + Drop>(
    alloc: Global,
    events: &mut Vec<Event>,
    changing: &Changing,
    subs: &Subs<P, Transaction>,
    age: u64,
    update: &Update,
) -> Result<(), AllocError>
    ensures { OnOk result
        (events.new.items
        ≡ events.old.items
        ++ filter (is_watched subs.now) (event_of changing.now age update.now ∷ [])) }
{
    if !subs.has_watcher(&table_of_update(alloc, update)?) {
        return Ok(());
    }
    let event = changing.event(alloc, age, update)?;
    events.push(event)?;
    Ok(())
}
