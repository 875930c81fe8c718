//! Why options give no definition.

use std::alloc::{AllocError, AllocFailed};
use tab_term::Term;

/// Why options give no definition of a table.
#[derive(Drop)]
pub enum DefFault {
    /// What is wrong: the first option that is none or stands a second time; else `attributes`; else `{index, X}`, where X
    /// is the first entry that names no attribute behind the key, or no list.
    Bad(Term),
    NoMemory,
}

impl<T: Drop> From<AllocFailed<T>> for DefFault {
    ghost use Rattle.std.specs.Prelude.{◌≡◌};
    ghost use Rattle.tab_schema.specs.declared.fault.DefFault.TheVariants.{NoMemory};

    ghost from_gives = { λ _ fault. fault ≡ NoMemory };

    fn from(_: AllocFailed<T>) -> DefFault {
        DefFault::NoMemory
    }
}

impl From<AllocError> for DefFault {
    ghost use Rattle.std.specs.Prelude.{◌≡◌};
    ghost use Rattle.tab_schema.specs.declared.fault.DefFault.TheVariants.{NoMemory};

    ghost from_gives = { λ _ fault. fault ≡ NoMemory };

    fn from(_: AllocError) -> DefFault {
        DefFault::NoMemory
    }
}
