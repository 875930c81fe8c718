//! Subscriptions begin and end.

ghost use Rattle.std.specs.Prelude.{◌≡◌, Bool, None, IfOk, IsOk, OnErr, IsTrue};
ghost use Rattle.tab_model.specs.declared.data.Command.TheVariants as command;
ghost use Rattle.tab_model.specs.declared.data.Level.{Level as LevelOf};
ghost use Rattle.tab_model.specs.declared.ask.Ask.TheVariants.{Do as DoCommand};
ghost use Rattle.tab_model.specs.Outcome.{is_at as is_at_of, subscribe_refusal as subscribe_refusal_of, unsubscribe_refusal as unsubscribe_refusal_of};
ghost use Rattle.tab_model.specs.State.{session_at};
ghost use Rattle.tab_core.specs.Steps.{is_told_for_none, takes_no_memory};
ghost use Rattle.tab_core.specs.Subscribing.{marked_reply as marked_reply_of, refused_by};
ghost use Rattle.tab_core.specs.Runs.{StepsTo};

use crate::Core;
use crate::dump::dump_of;
use crate::step::Stepped;
use std::alloc::AllocError;
use tab_events::Level;
use tab_model::{Entry, Reply, SharedReply};
use tab_outbox::Post;
use tab_subs::Marked;
use tab_term::Atom;

impl<P: Post + Drop> Core<P> {
    /// Subscribes the session to the table from here on. Its begin marker has the table's committed records, if a dump
    /// is asked for.
    pub(crate) fn subscribe(
        &mut self,
        session: u32,
        table: Atom,
        level: Level,
        dump: bool,
    ) -> Result<Stepped, AllocError>
        ensures done { IfOk result
            (λ s. StepsTo self.old session
            (DoCommand (command.Subscribe table level dump)) s self.new) }
        ensures free { IsTrue
            (takes_no_memory self.old session (DoCommand (command.Subscribe table level dump)))
            → IsOk result }
        ensures err { OnErr result (self.new ≡ self.old) }
    {
        if let Some(refusal) = self.subscribe_refusal(session, &table)? {
            return Ok(Stepped::without_entry(refusal));
        }
        let records = dump_of(self.machine.alloc, &self.machine.catalog, &table, dump)?;
        let named = table.try_clone(self.machine.alloc)?;
        let marked = self
            .machine
            .sessions
            .subscribe(self.machine.alloc, session, named, level, records)?;
        Ok(marked_reply(
            marked,
            Entry::Subscribed {
                session,
                table,
                level,
                dump,
            },
        ))
    }

    /// The refusal of a subscription, except by its post.
    fn subscribe_refusal(&self, session: u32, table: &Atom) -> Result<Option<Reply>, AllocError>
        ensures ok { IfOk result
            (λ refusal. refusal
            ≡ refused_by self.now session (λ s. subscribe_refusal_of self.now s table.now)
            (session_at self.now.sessions session)) }
        ensures free { (l : LevelOf) (dump : Bool)
            → IsTrue (is_told_for_none self.now session
            (DoCommand (command.Subscribe table.now l dump))) → IsOk result }
    {
        if let Some(refusal) = self.session_refusal(session) {
            return Ok(Some(refusal));
        }
        if self.machine.sessions.overflow(session).is_some() {
            return Ok(Some(Reply::OverflowUntold));
        }
        if self.machine.catalog.table(table).is_none() {
            return Ok(Some(Reply::UnknownTable(table.try_clone(self.machine.alloc)?)));
        }
        if self.machine.sessions.level(session, table).is_some() {
            return Ok(Some(Reply::AlreadySubscribed(table.try_clone(self.machine.alloc)?)));
        }
        Ok(None)
    }

    /// A command of a session that has not joined, or that waits.
    pub(crate) fn session_refusal(&self, session: u32) -> Option<Reply>
        ensures { result
            ≡ refused_by self.now session (λ s. None) (session_at self.now.sessions session) }
    {
        if self.machine.sessions.place(session).is_none() {
            return Some(Reply::BadSession);
        }
        if self.machine.waits(session) {
            return Some(Reply::WaitingNow);
        }
        None
    }

    /// The session watches the table no more.
    pub(crate) fn unsubscribe(
        &mut self,
        session: u32,
        table: Atom,
        level: Level,
    ) -> Result<Stepped, AllocError>
        ensures done { IfOk result
            (λ s. StepsTo self.old session
            (DoCommand (command.Unsubscribe table level)) s self.new) }
        ensures free { IsTrue
            (takes_no_memory self.old session (DoCommand (command.Unsubscribe table level)))
            → IsOk result }
        ensures err { OnErr result (self.new ≡ self.old) }
    {
        if let Some(refusal) = self.unsubscribe_refusal(session, &table, level)? {
            return Ok(Stepped::without_entry(refusal));
        }
        let marked = self
            .machine
            .sessions
            .unsubscribe(self.machine.alloc, session, &table)?;
        Ok(marked_reply(marked, Entry::Unsubscribed(session, table)))
    }

    /// The refusal of the end of a subscription, except by its post.
    fn unsubscribe_refusal(
        &self,
        session: u32,
        table: &Atom,
        level: Level,
    ) -> Result<Option<Reply>, AllocError>
        ensures ok { IfOk result
            (λ refusal. refusal
            ≡ refused_by self.now session (unsubscribe_refusal_of table.now level)
            (session_at self.now.sessions session)) }
        ensures free { IsTrue
            (is_told_for_none self.now session (DoCommand (command.Unsubscribe table.now level)))
            → IsOk result }
    {
        if let Some(refusal) = self.session_refusal(session) {
            return Ok(Some(refusal));
        }
        if is_at(self.machine.sessions.level(session, table), level) {
            return Ok(None);
        }
        Ok(Some(Reply::NotSubscribed(table.try_clone(self.machine.alloc)?)))
    }
}

/// Returns whether a table is watched at this level.
fn is_at(watched: Option<Level>, level: Level) -> bool
    ensures { result ≡ is_at_of watched level }
{
    matches!(
        (watched, level),
        (Some(Level::Simple), Level::Simple) | (Some(Level::Detailed), Level::Detailed)
    )
}

/// The reply to a marker that was put into a post, or refused by it.
fn marked_reply(marked: Option<Marked>, entry: Entry) -> Stepped
    ensures { result ≡ marked_reply_of marked entry }
{
    match marked {
        None => Stepped::without_entry(Reply::BadSession),
        Some(Marked::Full) => Stepped::without_entry(Reply::OutboxFull),
        Some(Marked::Put) => Stepped {
            reply: SharedReply::new(Reply::SubscribedHere),
            entry: Some(entry),
        },
    }
}
