//! A query over a table, whose answer is found while it is read.

ghost use Rattle.std.specs.Prelude.{◌≡◌};

use crate::condition::Condition;
use crate::snapshot::Snapshot;
use tab_map::{Entry, Set};
use tab_records::Records;
use tab_term::Term;

/// Which records are looked at.
pub enum Scope {
    /// Those of one key.
    Key(Entry<Term, Records>),
    /// All of a table.
    All(Snapshot),
    /// Those of some keys.
    Keys(AtKeys),
}

/// These keys of a table, and those that the transaction touched.
pub struct AtKeys {
    pub keys: Set<Term>,
    pub snapshot: Snapshot,
}

/// The records that meet the condition.
pub struct Query {
    pub scope: Scope,
    pub condition: Condition,
}

// A derived drop would be expanded, variant by variant, at each exit of each function that holds one of these.
impl Drop for Scope {
    fn drop(self) {
        match self {
            Scope::Key(entry) => drop(entry),
            Scope::All(snapshot) => drop(snapshot),
            Scope::Keys(at) => drop(at),
        }
    }
}

impl Drop for AtKeys {
    fn drop(self) {
        let AtKeys { keys, snapshot } = self;
        drop((keys, snapshot));
    }
}

impl Drop for Query {
    fn drop(self) {
        let Query { scope, condition } = self;
        drop((scope, condition));
    }
}
