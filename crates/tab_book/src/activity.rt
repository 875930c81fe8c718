//! The activity of a book's sessions at one time.

use crate::book::Book;
use arrayvec::ArrayVec;
use std::alloc::AllocError;
use tab_core::SESSIONS;
use tab_model::Lock;
use tab_post::Host;
use tab_term::Atom;

/// The most tables that an activity names, so that the book is not locked for long.
const TABLES: usize = 16;

/// The state of a session.
#[derive(Clone, Copy, Debug, PartialEq, Eq)]
pub enum Doing {
    /// It has no transaction.
    Idle,
    /// Its transaction is open.
    Open,
    /// Its request waits for a lock.
    Waits,
    /// Its transaction was restarted for a lock, and has not asked for it again.
    BacksOff,
}

/// The activity of a session at one time.
#[derive(Drop)]
pub struct Activity {
    pub session: u32,
    pub doing: Doing,
    /// The number of its open levels.
    pub levels: u64,
    /// The tables of its locks, each with the number of requests that were granted one there.
    pub locks: Vec<(Atom, u64)>,
    /// The number of those requests in further tables.
    pub others: u64,
    /// The table of the lock that it waits for or was restarted for.
    pub awaited: Option<Atom>,
    /// The sessions that keep it from that lock.
    pub blockers: ArrayVec<u32, SESSIONS>,
    /// The number of items that were ever put into its outbox.
    pub items: u64,
}

impl<H: Host> Book<H> {
    /// The activity of each session, in one pass over them.
    pub fn activities(&self) -> Result<Vec<Activity>, AllocError> {
        let mut activities = Vec::new(self.alloc);
        for session in &self.core.members() {
            activities.push(self.activity(*session)?)?;
        }
        Ok(activities)
    }

    fn activity(&self, session: u32) -> Result<Activity, AllocError> {
        let doing = self.doing(session);
        let awaited = match doing {
            Doing::Waits => self.core.awaited(session),
            Doing::BacksOff => self.core.restarted_for(session),
            Doing::Idle | Doing::Open => None,
        };
        let awaited = match awaited {
            Some(lock) => Some(lock.table.try_clone(self.alloc)?),
            None => None,
        };
        let mut locks = Vec::new(self.alloc);
        let mut others: u64 = 0;
        for lock in self.core.locks(session) {
            if !self.count(&mut locks, lock)? {
                others = others.saturating_add(1);
            }
        }
        Ok(Activity {
            session,
            doing,
            levels: self.core.levels(session),
            locks,
            others,
            awaited,
            blockers: self.blockers(session, doing),
            items: self.items(session),
        })
    }

    fn doing(&self, session: u32) -> Doing {
        if self.core.waits(session) {
            Doing::Waits
        } else if self.core.restarted_for(session).is_some() {
            Doing::BacksOff
        } else if self.core.levels(session) > 0 {
            Doing::Open
        } else {
            Doing::Idle
        }
    }

    /// Counts one more lock on its table. Returns false if that is one table too many.
    fn count(&self, locks: &mut Vec<(Atom, u64)>, lock: &Lock) -> Result<bool, AllocError> {
        for counted in locks.iter_mut() {
            if counted.0 == lock.table {
                counted.1 = counted.1.saturating_add(1);
                return Ok(true);
            }
        }
        if locks.len() >= TABLES {
            return Ok(false);
        }
        locks.push((lock.table.try_clone(self.alloc)?, 1))?;
        Ok(true)
    }

    fn blockers(&self, session: u32, doing: Doing) -> ArrayVec<u32, SESSIONS> {
        let mut blockers = ArrayVec::new();
        for other in &self.core.members() {
            let blocks = match doing {
                Doing::Waits => self.core.waits_for(session, *other),
                Doing::BacksOff => self.core.backs_off_from(session, *other),
                Doing::Idle | Doing::Open => false,
            };
            if blocks {
                let _kept = blockers.try_push(*other);
            }
        }
        blockers
    }

    /// The number of items that were put into the session's outbox.
    fn items(&self, session: u32) -> u64 {
        match self.core.post(session) {
            Some(post) => post.puts(),
            None => 0,
        }
    }
}
