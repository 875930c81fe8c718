//! Which tables a session watches.

ghost use Rattle.std.specs.Prelude.{◌≡◌};
ghost use Rattle.tab_model.specs.State.{level_in, without_watch};

use std::marker::Model;
use tab_events::Level;
use tab_term::Atom;

/// A table that is watched, and at which level.
#[derive(Drop)]
pub struct Watched {
    pub table: Atom,
    pub level: Level,
}

impl Model for Watched {
    ghost use Rattle.tab_model.specs.State.{Watch};

    ghost Value = { Watch };

    ghost view = { λ a. record { table = a.table; level = a.level } };
}

/// The level at which the table is watched.
pub fn level_of(watching: &[Watched], table: &Atom) -> Option<Level>
    ensures { result ≡ level_in watching.now table.now }
{
    for watched in watching {
        if watched.table == *table {
            return Some(watched.level);
        }
    }
    None
}

/// The table is watched no more.
pub fn forget(watching: &mut Vec<Watched>, table: &Atom)
    ensures { watching.new.items ≡ without_watch watching.old.items table.now }
{
    watching.retain(|watched| watched.table != *table);
}
