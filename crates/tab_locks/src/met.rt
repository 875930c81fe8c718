ghost use Rattle.std.specs.Prelude.{◌≡◌};
ghost use Rattle.tab_locks.specs.Numbered.{holds};

/// The lock that has the number of a new lock already. The new one is put there if there is none.
#[derive(Clone, Copy)]
pub(crate) enum Met {
    /// No lock under its number.
    Nothing,
    /// Its owner's lock on its key, in its mode.
    Itself,
    /// Another owner's lock on its key, or one in another mode.
    ItsKey,
    /// A lock on another key of its number.
    AnotherKey,
}

impl Met {
    /// Returns whether the lock is there now.
    pub fn is_held(self) -> bool
        ensures { result ≡ holds self }
    {
        match self {
            Met::Nothing | Met::Itself => true,
            Met::ItsKey | Met::AnotherKey => false,
        }
    }
}
