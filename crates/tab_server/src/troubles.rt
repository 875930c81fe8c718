//! What keeps a server from accepting.

ghost use Rattle.std.specs.Prelude.{◌≡◌, false, true};

use crate::gate::{Note, Notes};
use std::sync::{Condvar, Wait};
use std::time::Duration;

/// The milliseconds after a failure before the next try.
const PAUSE: u64 = 100;

/// A pause, in which what failed may get better.
pub fn pause<R: Wait>(rt: &R) {
    let never = Condvar::new();
    never.sleep(rt, never.notifications(), Duration::from_millis(PAUSE));
}

/// Failures to accept. Of several in a row only the first is reported: a server that has no descriptor left would fill
/// a log.
#[derive(Drop)]
pub struct Troubles<'n, N: Notes> {
    notes: &'n N,
    told: bool,
}

impl<'n, N: Notes> Troubles<'n, N> {
    /// None yet.
    pub fn new(notes: &'n N) -> Troubles<'n, N>
        ensures { result ≡ record { notes = notes.entry; told = false } }
    {
        Troubles { notes, told: false }
    }

    /// Reports a failure, and pauses.
    pub fn tell<R: Wait>(&mut self, rt: &R, note: Note)
        ensures { self.new ≡ record self.old { told = true } }
    {
        if !self.told {
            self.told = true;
            self.notes.note(note);
        }
        pause(rt);
    }

    /// A connection was accepted.
    pub fn are_over(&mut self)
        ensures { self.new ≡ record self.old { told = false } }
    {
        self.told = false;
    }
}
