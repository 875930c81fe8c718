//! How connections are served.

ghost use Rattle.std.specs.Prelude.{◌≡◌, ◌*◌, IfSome, option_map};
ghost use Rattle.std.specs.Duration.{as_nanos};
ghost use Rattle.tab_server.specs.Idle.{tick_of, IsTicked};

use std::time::Duration;
use tab_proto::Delivery;

/// The settings of all connections of a server.
#[derive(Clone, Copy)]
pub struct Settings {
    pub delivery: Delivery,
    /// A session from which nothing comes for so many seconds leaves if its transaction is open, or if it reads nothing.
    pub idle: Option<u32>,
    /// A session that has never subscribed leaves if nothing comes from it for so many seconds.
    pub idle_sessions: Option<u32>,
    /// An abort ends the wait of the operation before it, which has no reply then.
    pub aborts: bool,
    /// Each connection has one descriptor more, by which another thread can end it.
    pub handles: bool,
}

impl Settings {
    /// Each event has a frame, a session may be idle for good, and what waits is answered first.
    pub const PLAIN: Settings = Settings {
        delivery: Delivery::Events,
        idle: None,
        idle_sessions: None,
        aborts: false,
        handles: false,
    };

    /// The seconds after which a read without bytes ends: those of the only limit, or one if there are two.
    pub(crate) fn tick(&self) -> Option<u32>
        ensures exact { result ≡ tick_of self.now.idle self.now.idle_sessions }
        ensures idle { IfSome result (λ tick. IsTicked tick self.now.idle) }
        ensures idle_sessions { IfSome result (λ tick. IsTicked tick self.now.idle_sessions) }
    {
        match (self.idle, self.idle_sessions) {
            (Some(_), Some(_)) => Some(1),
            (Some(seconds), None) | (None, Some(seconds)) => Some(seconds),
            (None, None) => None,
        }
    }
}

/// The duration of so many seconds.
pub(crate) fn duration(seconds: Option<u32>) -> Option<Duration>
    ensures { option_map as_nanos result ≡ option_map (λ s. s * 1000000000) seconds }
{
    match seconds {
        Some(seconds) => Some(Duration::from_secs(u64::from(seconds))),
        None => None,
    }
}
