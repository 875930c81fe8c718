//! What a journal starts from.

ghost use Rattle.std.specs.Prelude.{◌≡◌, OnOk, OnErr};
ghost use Rattle.tab_model.specs.History.{empty as empty_base, after_fold, without_subscriber, number_after as number_after_entry};
ghost use Rattle.tab_model.specs.Catalogs.{IsOrderedCatalog};

use crate::subscriptions::{Subscription, forget, keep, removed, subscribe, unsubscribe};
use crate::survivors::surviving;
use std::alloc::{AllocError, Global};
use std::marker::Model;
use std::mem;
use std::sync::Wait;
use tab_model::Entry;
use tab_tables::{BareCatalog, Catalog, Lender};

/// The tables, the last commit's number, and the joined sessions' subscriptions, as they were before the first entry. The
/// tables have no indexes, since a fold would build them in another session's step, and only an audit reads them.
#[derive(Drop)]
pub struct Base {
    tables: BareCatalog,
    commits: u64,
    subscriptions: Vec<Subscription>,
}

impl Model for Base {
    ghost use Rattle.std.specs.Coded.{codes};
    ghost use Rattle.tab_term.specs.Code.{term_code};
    ghost use Rattle.tab_model.specs.History.{Base as BaseOf};

    ghost Value = { BaseOf };

    ghost coded = { Prim.hlevel (codes, term_code) };

    ghost view = { λ a.
        record { tables = a.tables; commits = a.commits; subscriptions = a.subscriptions.items } };

    ghost use Rattle.tab_model.specs.Catalogs.{IsOrderedCatalog};

    ghost invariant = { λ a. IsOrderedCatalog a.tables };
}

impl Base {
    /// Before all.
    pub fn empty(alloc: Global) -> Base
        ensures { result ≡ empty_base }
    {
        Base {
            tables: BareCatalog::empty(),
            commits: 0,
            subscriptions: Vec::new(alloc),
        }
    }

    /// The tables that the first entry starts from.
    pub fn tables(&self) -> &BareCatalog
        ensures tables { result.now ≡ self.now.tables }
        ensures ordered { IsOrderedCatalog self.now.tables }
    {
        &self.tables
    }

    /// The last commit's number; 0 before the first.
    pub fn commits(&self) -> u64
        ensures { result ≡ self.now.commits }
    {
        self.commits
    }

    /// The subscriptions that are in force there.
    pub fn subscriptions(&self) -> &[Subscription]
        ensures { result.now ≡ self.now.subscriptions }
    {
        self.subscriptions.as_slice()
    }

    /// Folds an entry. For one that subscribes, `joined` states whether its session is still joined. A set's record is
    /// shared with the entry's move. A bag's is shared with these tables, if it is there as the entry wrote it. Returns the tables
    /// before a schema command, whose drop may take long.
    pub(crate) fn fold<R: Wait>(
        &mut self,
        rt: &R,
        alloc: Global,
        joined: bool,
        entry: &Entry,
        tables: &Catalog,
    ) -> Result<Option<BareCatalog>, AllocError>
        ensures ok { OnOk result (self.new ≡ after_fold joined self.old entry.now) }
        ensures err { OnErr result (self.new ≡ self.old) }
    {
        match entry {
            Entry::Committed {
                number,
                moves,
                told,
                overflowed,
                ..
            } => {
                let moves = moves.items.as_slice();
                let updates = surviving(alloc, moves, told.items.as_slice())?;
                let lender = Lender::Tables(tables);
                self.tables.update(rt, alloc, updates.as_slice(), &lender)?;
                keep(&mut self.subscriptions, overflowed.items.as_slice(), None);
                self.commits = *number;
            }
            Entry::Changed(command, overflowed) => {
                let tables = self.tables.redefined(alloc, command)?;
                let before = mem::replace(&mut self.tables, tables);
                let gone = removed(command);
                keep(&mut self.subscriptions, overflowed.items.as_slice(), gone);
                return Ok(Some(before));
            }
            Entry::Subscribed {
                session,
                table,
                level,
                ..
            } => {
                if joined {
                    subscribe(&mut self.subscriptions, alloc, *session, table, *level)?;
                }
            }
            Entry::Unsubscribed(session, table) => {
                unsubscribe(&mut self.subscriptions, *session, table);
            }
        }
        Ok(None)
    }

    /// Drops the subscriptions of a session that has left. Takes no memory.
    pub(crate) fn forget(&mut self, session: u32)
        ensures { self.new ≡ without_subscriber self.old session }
    {
        forget(&mut self.subscriptions, session);
    }
}

/// The number of commits after this entry.
pub fn number_after(commits: u64, entry: &Entry) -> u64
    ensures { result ≡ number_after_entry commits entry.now }
{
    match entry {
        Entry::Committed { number, .. } => *number,
        Entry::Changed(_, _) => commits,
        Entry::Subscribed { .. } => commits,
        Entry::Unsubscribed(_, _) => commits,
    }
}
