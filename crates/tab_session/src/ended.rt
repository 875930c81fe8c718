//! The reasons of a replay's end.

use tab_etf::Broken;
use thiserror::Error;

/// The reason that a replay ended before its stream did, or inside a frame.
#[derive(Clone, Copy, Debug, PartialEq, Eq, Error)]
pub enum Ended {
    /// The stream ends inside a frame, or has a length over 1,048,576.
    #[error("damaged input")]
    Damaged,
    /// A read, a write or a flush failed.
    #[error("device")]
    Device,
    /// A reply has over 4,294,967,295 bytes.
    #[error("too long")]
    TooLong,
    #[error("no memory")]
    NoMemory,
}

impl From<Broken> for Ended {
    ghost use Rattle.std.specs.Prelude.{◌≡◌};
    ghost use Rattle.tab_session.specs.declared.ended.Ended.TheVariants.{Device};

    ghost from_gives = { λ _ ended. ended ≡ Device };

    fn from(_: Broken) -> Ended {
        Ended::Device
    }
}
