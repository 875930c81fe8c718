//! The end of a thread that looks for connections.

use std::sync::atomic::{AtomicBool, Ordering};
use std::sync::{Condvar, Wait};
use std::time::Duration;

/// The milliseconds between two looks for a connection.
const LOOK: u64 = 100;

/// Says whether connections are looked for still.
#[derive(Drop)]
pub struct Closing {
    is_over: AtomicBool,
    changed: Condvar,
}

impl Closing {
    /// They are looked for.
    pub fn new() -> Closing {
        Closing {
            is_over: AtomicBool::new(false),
            changed: Condvar::new(),
        }
    }

    /// They are looked for no more.
    pub fn close(&self) {
        self.is_over.store(true, Ordering::SeqCst);
        self.changed.notify_all();
    }

    /// Returns whether they are looked for no more.
    pub fn is_over(&self) -> bool {
        self.is_over.load(Ordering::SeqCst)
    }

    /// Waits until the next look, or until they are looked for no more.
    pub fn pause<R: Wait>(&self, rt: &R) {
        let seen = self.changed.notifications();
        if !self.is_over() {
            self.changed.sleep(rt, seen, Duration::from_millis(LOOK));
        }
    }
}
