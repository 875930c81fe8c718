//! The conditions that sessions sleep on until they are woken.

use std::array;
use std::sync::Condvar;
use tab_core::SESSIONS;

/// A condition for each session, by its number. Two sessions may share one: a session that is woken looks again.
#[derive(Drop)]
pub(crate) struct Bells {
    bells: [Condvar; SESSIONS],
}

impl Bells {
    /// A bell for each session that a book may have.
    pub fn new() -> Bells {
        Bells {
            bells: array::from_fn(|_| Condvar::new()),
        }
    }

    /// The condition that this session sleeps on.
    pub fn of(&self, session: u32) -> &Condvar {
        &self.bells[session as usize % SESSIONS]
    }

    /// Wakes these sessions.
    pub fn ring(&self, ready: &[u32]) {
        for session in ready {
            self.of(*session).notify_all();
        }
    }
}
