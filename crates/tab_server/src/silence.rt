//! The time since a session sent its last bytes.

ghost use Rattle.std.specs.Prelude.{◌≡◌, ◌+◌, ◌-◌, ◌^◌, ◌↔◌, IsTrue, min, unwrap_or};
ghost use Rattle.tab_server.specs.Idle.{tick_of, IsReached};

use crate::settings::Settings;

/// The time since a session sent its last bytes, and its limits.
#[derive(Clone, Copy)]
pub struct Silence {
    /// The seconds of each read that ends without bytes.
    tick: u64,
    seconds: u64,
    idle: Option<u32>,
    idle_sessions: Option<u32>,
}

impl Silence {
    /// The session has just started.
    pub fn new(settings: Settings) -> Silence
        ensures start { result.seconds ≡ 0 }
        ensures tick { result.tick ≡ unwrap_or (tick_of settings.idle settings.idle_sessions) 0 }
        ensures idle { result.idle ≡ settings.idle }
        ensures idle_sessions { result.idle_sessions ≡ settings.idle_sessions }
    {
        Silence {
            tick: u64::from(settings.tick().unwrap_or(0)),
            seconds: 0,
            idle: settings.idle,
            idle_sessions: settings.idle_sessions,
        }
    }

    /// Bytes came.
    pub fn end(&mut self)
        ensures { self.new ≡ record self.old { seconds = 0 } }
    {
        self.seconds = 0;
    }

    /// A read has ended without bytes.
    pub fn pass(&mut self)
        ensures { self.new ≡ record self.old {
          seconds = min (self.old.seconds + self.old.tick) (2 ^ 64 - 1);
        } }
    {
        self.seconds = self.seconds.saturating_add(self.tick);
    }

    /// Returns whether a session with an open transaction leaves now.
    pub fn ends_transactions(&self) -> bool
        ensures { IsTrue result ↔ IsReached self.now.seconds self.now.idle }
    {
        self.reaches(self.idle)
    }

    /// Returns whether a session that has never subscribed leaves now.
    pub fn ends_sessions(&self) -> bool
        ensures { IsTrue result ↔ IsReached self.now.seconds self.now.idle_sessions }
    {
        self.reaches(self.idle_sessions)
    }

    /// Returns whether the limit is reached, or a multiple of it.
    fn reaches(&self, limit: Option<u32>) -> bool
        ensures { IsTrue result ↔ IsReached self.now.seconds limit }
    {
        match limit {
            Some(limit) => limit > 0 && self.seconds % u64::from(limit) == 0,
            None => false,
        }
    }
}
