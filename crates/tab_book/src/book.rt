//! A core over mailboxes, and its journal.

ghost use Rattle.std.specs.Prelude.{◌≡◌, ◌≤◌, ◌+◌, [], ◌∷◌, ◌++◌, IsTrue, IfOk, IfErr, OnOk, OnErr, count_by, is_some};
ghost use mathlib.Core.List.{IsPrefix};
ghost use Rattle.tab_model.specs.History.{empty as empty_base};
ghost use Rattle.tab_model.specs.State.{new as new_state, level_in, IsSound};
ghost use Rattle.tab_core.specs.Ready.{AreReady};
ghost use Rattle.tab_post.specs.Ends.{as_outbox, mailbox_of, received, room_in, room_of};
ghost use Rattle.tab_book.specs.Logs.{joined};
ghost use Rattle.tab_book.specs.Replies.{HasJoined};
ghost use Rattle.tab_book.specs.Running.{IsRunning};
ghost use Rattle.tab_book.specs.Transitions.{counted_levels};
ghost use Rattle.tab_book.specs.Steps.{Joins, Refuses, has_free_seat as has_free_seat_of, with_new_session, KeepsPosts};

use crate::log::{Log, Request, Seen};
use crate::opened::Opened;
use crate::step::JoinFault;
use arrayvec::ArrayVec;
use std::alloc::{AllocError, Global};
use std::marker::Model;
use tab_core::{Core, Rest, SESSIONS, Step};
use tab_journal::{Folded, Journal};
use tab_model::Limits;
use tab_post::{Channel, ChannelPost, Host, Inbox, NewMailbox, Prefix, Register};
use tab_tables::Catalog;
use tab_term::Atom;

/// A core whose sessions have mailboxes, its journal, and the log of its steps.
#[derive(Drop)]
pub struct Book<H: Host> {
    pub(crate) host: H,
    pub(crate) alloc: Global,
    register: Register<Channel, H>,
    prefix: Prefix<Channel, H>,
    pub(crate) log: Log<H>,
    pub(crate) core: Core<ChannelPost<H>>,
    pub(crate) journal: Journal,
    /// What was folded last.
    pub(crate) folded: Option<Folded>,
    /// The number of changes that the tables' indexes lacked when the book was last unlocked.
    lacked: usize,
}

/// What the steps replaced, whose drop may take long.
pub struct Replaced {
    tables: Option<Catalog>,
    folded: Option<Folded>,
}

// A derived Drop would be expanded, field by field, at each exit of each caller.
impl Drop for Replaced {
    fn drop(self) {
        let Replaced { tables, folded } = self;
        drop(tables);
        drop(folded);
    }
}

impl<H: Host> Model for Book<H> {
    ghost use Rattle.std.specs.Coded.{codes};
    ghost use Rattle.tab_term.specs.Code.{term_code, terms_code, pairs_code};
    ghost use Rattle.std.specs.Prelude.{length};
    ghost use Rattle.tab_book.specs.Logs.{IsWholeRun};
    ghost use Rattle.tab_book.specs.Running.{Running, Holds};

    ghost Value = { Running };

    ghost coded = { Prim.hlevel (codes, term_code, terms_code, pairs_code) };

    ghost view = { λ a. record { state = a.core; journal = a.journal; log = a.log } };

    ghost invariant = { λ a.
        Holds (length a.prefix) a.core a.journal × IsWholeRun a.log a.core };
}

impl<H: Host> Book<H> {
    /// No tables and no sessions. The journal has at most as many entries as the limits say, 1 at least, and is full at as
    /// many bytes as they say. It has 64 sessions at most.
    pub fn new(
        host: H,
        alloc: Global,
        opened: Opened,
        limits: Limits,
    ) -> Result<Book<H>, AllocError>
        requires sessions { limits.sessions ≤ 64 }
        requires journal { 1 ≤ limits.journal }
        requires journal_bytes { 1 ≤ limits.journal_bytes }
        requires name { opened ≡ H.books }
        ensures { IfOk result
            (λ b. b ≡ record {
              state = new_state limits;
              journal =
                  record {
                    base = empty_base;
                    entries = [];
                    limit = limits.journal;
                    most_bytes = limits.journal_bytes;
                  };
              log = [];
            }) }
    {
        let Opened { mailboxes, steps } = opened;
        let (register, prefix) = mailboxes.named::<H>();
        let journal = Journal::with_limit(alloc, limits.journal as usize, limits.journal_bytes)?;
        Ok(Book {
            host,
            alloc,
            register,
            prefix,
            log: Log::new(host, steps),
            core: Core::new(alloc, limits),
            journal,
            folded: None,
            lacked: 0,
        })
    }

    /// What the last steps replaced, so that a caller that holds a lock can drop it after it.
    pub fn take_replaced(&mut self) -> Replaced
        ensures { self.new ≡ self.old }
    {
        Replaced {
            tables: self.core.take_replaced(),
            folded: self.folded.take(),
        }
    }

    /// How many index entries more the tables' indexes lack than at the last call. `settle` makes them.
    pub fn take_owed(&mut self) -> usize
        ensures { self.new ≡ self.old }
    {
        let lacks = self.core.lacks();
        let owed = lacks.saturating_sub(self.lacked);
        self.lacked = lacks;
        owed
    }

    /// Makes changes of one table in its indexes that lack them, of at most so many entries. Returns how many entries were made: none
    /// if no indexes lack changes, or if memory is refused.
    pub fn settle(&mut self, most: usize) -> usize
        ensures { self.new ≡ self.old }
    {
        let before = self.core.lacks();
        let _ = self.core.settle(most);
        self.lacked = self.core.lacks();
        before.saturating_sub(self.lacked)
    }

    /// The tables as they are committed.
    pub fn tables(&self) -> &Catalog
        ensures tables { result.now ≡ self.now.state.tables }
        ensures running { IsRunning self.now }
    {
        self.core.tables()
    }

    /// The entries that are not folded yet, and the base that they start from.
    pub fn journal(&self) -> &Journal
        ensures journal { result.now ≡ self.now.journal }
        ensures running { IsRunning self.now }
    {
        &self.journal
    }

    /// The steps that were made, for a thread that saw a beginning of them.
    pub fn show(&self, seen: &mut Seen<H>)
        ensures before { IsPrefix seen.old self.now.log }
        ensures all { seen.new ≡ self.now.log }
        ensures running { IsRunning self.now }
    {
        self.log.show(seen);
    }

    /// The number of sessions that watch the table.
    pub fn watchers(&self, table: &Atom) -> usize
        ensures { result
            ≡ count_by (λ s. is_some (level_in s.watching table.now)) self.now.state.sessions }
    {
        self.core.watchers(table)
    }

    /// How many levels the session has open, up to the greatest 64 bit number.
    pub fn levels(&self, session: u32) -> u64
        ensures { result ≡ counted_levels self.now.state session }
    {
        self.core.levels(session)
    }

    /// True: the entries are run again from the base, which takes as long as the transactions did.
    pub fn audit(&self) -> Result<bool, AllocError>
        ensures { IfOk result (λ is. IsTrue is) }
    {
        self.journal
            .audit(self.alloc, self.journal.base(), self.core.tables())
    }

    /// A session joins with this mailbox, whose receiving end is given out. It is no mailbox of a session that sits.
    pub fn join(&mut self, mailbox: NewMailbox) -> Result<(u32, Inbox<H>), JoinFault>
        ensures ok { IfOk result
            (λ r. Joins self.old r.0 (mailbox_of r.1) (received r.1) self.new) }
        ensures room { IfOk result (λ r. room_in r.1 ≡ room_of mailbox) }
        ensures err { IfErr result (λ e. Refuses self.old e self.new) }
        ensures posts { KeepsPosts self.old.state self.new.state }
        ensures running { IsRunning self.new }
    {
        let joined = self.seated(mailbox);
        // Known of the book from here on is what its parts have to do with each other.
        let _ = &self.core;
        joined
    }

    /// Joins a session, and shows the log up to there to a thread that saw a beginning of it.
    pub fn join_shown(
        &mut self,
        mailbox: NewMailbox,
        seen: &mut Seen<H>,
    ) -> Result<(u32, Inbox<H>), JoinFault>
        ensures joined { IfOk result (λ r.
            HasJoined seen.old seen.new r.0 (mailbox_of r.1)) }
        ensures inbox { IfOk result (λ r. received r.1 ≡ []) }
        ensures room { IfOk result (λ r. room_in r.1 ≡ room_of mailbox) }
        ensures grows { IsPrefix seen.old seen.new }
    {
        self.show(seen);
        let joined = self.join(mailbox)?;
        self.show(seen);
        Ok(joined)
    }

    fn seated(&mut self, mailbox: NewMailbox) -> Result<(u32, Inbox<H>), JoinFault>
        ensures ok { IfOk result
            (λ r. Joins self.old r.0 (mailbox_of r.1) (received r.1) self.new) }
        ensures room { IfOk result (λ r. room_in r.1 ≡ room_of mailbox) }
        ensures err { IfErr result (λ e. Refuses self.old e self.new) }
        ensures posts { KeepsPosts self.old.state self.new.state }
    {
        if !self.has_free_seat() {
            return Err(JoinFault::Limit);
        }
        let session = self.core.greatest() + 1;
        let (post, inbox) = mailbox.enter(&self.register, &mut self.prefix, self.host);
        let mailbox = inbox.place();
        match seat(&mut self.core, &mut self.log, session, post, mailbox) {
            Ok(()) => Ok((session, inbox)),
            Err(_) => Err(JoinFault::NoMemory),
        }
    }

    /// The back-off state of the session.
    pub(crate) fn rest(&self, session: u32) -> Rest {
        self.core.rest(session)
    }

    /// The sessions that wait and would be granted their lock now, and those whose back-off may end.
    pub(crate) fn ready(&self) -> ArrayVec<u32, SESSIONS>
        ensures { AreReady self.now.state result.items }
    {
        self.core.ready()
    }

    fn has_free_seat(&self) -> bool
        ensures { result ≡ has_free_seat_of self.now.state }
    {
        self.core.greatest() < u32::MAX && self.core.admits(self.core.greatest() + 1)
    }
}

/// The session joins with the post of this mailbox, which is logged.
fn seat<H: Host>(
    core: &mut Core<ChannelPost<H>>,
    log: &mut Log<H>,
    session: u32,
    post: ChannelPost<H>,
    mailbox: u64,
) -> Result<(), AllocError>
    requires sound { IsSound core.old }
    requires room { IsTrue (has_free_seat_of core.old) }
    requires number { session ≡ core.old.greatest + 1 }
    ensures ok { OnOk result (core.new ≡ with_new_session core.old session (as_outbox post)) }
    ensures logged { OnOk result (log.new ≡ log.old ++ joined session mailbox ∷ []) }
    ensures err { OnErr result (core.new ≡ core.old) }
    ensures unlogged { OnErr result (log.new ≡ log.old) }
    ensures sound { IsSound core.new }
{
    let stepped = core.step(log.host(), session, Step::Join(post))?;
    let told = stepped.into_reply();
    log.add(session, Request::Join(mailbox), &told);
    Ok(())
}
