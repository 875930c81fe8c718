//! Outermost commits.

ghost use Rattle.std.specs.Prelude.{◌≡◌, Some, IsFalse, option_map};
ghost use Rattle.tab_model.specs.Events.{change_all, surviving_changes};
ghost use Rattle.tab_model.specs.State.{Transaction as Opened, is_waiting};
ghost use Rattle.tab_subs.specs.Subscribers.{IsHeldAt};
ghost use Rattle.tab_core.specs.Parts.{parts_of, state_with};
ghost use Rattle.tab_core.specs.Kept.{Agree, IsKept};
ghost use Rattle.tab_core.specs.Outermost.{outermost, ending_of, age_and_updates, Commits};

use crate::levels::finish;
use crate::machine::Machine;
use crate::step::Stepped;
use tab_outbox::Post;
use tab_rows::Update;
use tab_tables::{Catalog, Lender};

/// A transaction that its commit would end: its age, its updates in order, and the records that it lends to bags.
#[derive(Clone, Copy)]
pub(crate) struct Ending<'a> {
    pub age: u64,
    pub updates: &'a [Update],
    pub lender: Lender<'a>,
}

impl<P: Post + Drop> Machine<P> {
    /// The transaction that a commit of the session would end, and its changes. None if the session waits for a lock or
    /// is in a child.
    pub(crate) fn outermost<'a>(&'a self, session: u32) -> Option<Ending<'a>>
        requires kept { IsKept (parts_of self.now) }
        ensures { option_map age_and_updates result
            ≡ option_map ending_of (outermost (state_with self.now) session) }
    {
        if self.waits(session) {
            return None;
        }
        match self.sessions.place(session) {
            Some(place) => self.ending(session, place),
            None => None,
        }
    }

    /// The same at the session's index, if it waits for nothing.
    fn ending<'a>(&'a self, session: u32, place: usize) -> Option<Ending<'a>>
        requires kept { IsKept (parts_of self.now) }
        requires there { IsHeldAt self.now.sessions session place }
        requires idle { IsFalse (is_waiting (state_with self.now) session) }
        ensures { option_map age_and_updates result
            ≡ option_map ending_of (outermost (state_with self.now) session) }
    {
        let Some(transaction) = self.sessions.transaction(place) else {
            return None;
        };
        if transaction.store.depth() > 0 {
            return None;
        }
        Some(Ending {
            age: transaction.age,
            updates: transaction.store.updates(),
            lender: Lender::Overlay(transaction.store.overlay()),
        })
    }

    /// The outermost commit of the session, whose changes the caller has made to the tables. From here nothing fails.
    pub(crate) fn commit_as(&mut self, session: u32, catalog: Catalog) -> Stepped
        requires kept { IsKept (parts_of self.old) }
        requires there { (t : Opened)
            × (outermost (state_with self.old) session ≡ Some t)
            × (catalog ≡ change_all self.old.catalog (surviving_changes t.moves t.told)) }
        ensures done { (t : Opened) → outermost (state_with self.old) session ≡ Some t
            → Commits (state_with self.old) session t result
            (state_with self.new) }
        ensures agree { Agree (parts_of self.new) }
    {
        let Some(place) = self.sessions.place(session) else {
            unreachable!();
        };
        self.catalog = catalog;
        self.commits += 1;
        finish(
            self.alloc,
            self.commits,
            session,
            self.sessions.transaction_mut(place),
            &mut self.ages,
        )
    }
}
