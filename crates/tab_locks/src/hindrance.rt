use std::alloc::{AllocError, AllocFailed};

/// A lock is not granted at once, since another lock is on the same part, or memory is refused. A question that takes
/// no memory finds out which.
#[derive(Clone, Copy)]
pub(crate) struct Hindrance;

impl From<AllocError> for Hindrance {
    ghost use Rattle.std.specs.Prelude.{⊤};

    ghost from_gives = { λ _ _. ⊤ };

    fn from(_: AllocError) -> Hindrance {
        Hindrance
    }
}

impl<T: Drop> From<AllocFailed<T>> for Hindrance {
    ghost use Rattle.std.specs.Prelude.{⊤};

    ghost from_gives = { λ _ _. ⊤ };

    fn from(_: AllocFailed<T>) -> Hindrance {
        Hindrance
    }
}
