//! Faults of a term that is read.

use std::alloc::{AllocError, AllocFailed};
use thiserror::Error;

/// The reason that a term is no command.
#[derive(Clone, Copy, Debug, PartialEq, Eq, Error)]
pub enum ProtoFault {
    /// The term is none of the commands.
    #[error("no command")]
    BadCommand,
    #[error("no memory")]
    NoMemory,
}

/// The term is none of the commands. Reading that takes no memory has no other fault.
#[derive(Clone, Copy)]
pub struct NoCommand;

impl From<NoCommand> for ProtoFault {
    ghost use Rattle.std.specs.Prelude.{◌≡◌};
    ghost use Rattle.tab_proto.specs.declared.fault.ProtoFault.TheVariants.{BadCommand};

    ghost from_gives = { λ _ fault. fault ≡ BadCommand };

    fn from(_: NoCommand) -> ProtoFault {
        ProtoFault::BadCommand
    }
}

impl<T: Drop> From<AllocFailed<T>> for ProtoFault {
    ghost use Rattle.std.specs.Prelude.{◌≡◌};
    ghost use Rattle.tab_proto.specs.declared.fault.ProtoFault.TheVariants.{NoMemory};

    ghost from_gives = { λ _ fault. fault ≡ NoMemory };

    fn from(_: AllocFailed<T>) -> ProtoFault {
        ProtoFault::NoMemory
    }
}

impl From<AllocError> for ProtoFault {
    ghost use Rattle.std.specs.Prelude.{◌≡◌};
    ghost use Rattle.tab_proto.specs.declared.fault.ProtoFault.TheVariants.{NoMemory};

    ghost from_gives = { λ _ fault. fault ≡ NoMemory };

    fn from(_: AllocError) -> ProtoFault {
        ProtoFault::NoMemory
    }
}
