//! A table as a transaction sees it, as it was when the transaction looked.

ghost use Rattle.std.specs.Prelude.{◌≡◌, IfOk};
ghost use Rattle.tab_term.specs.Order.{term_cmp};
ghost use Rattle.tab_lists.specs.Snapshots.{entries_of, entries_at};

use crate::merged::Merged;
use std::alloc::AllocError;
use tab_map::{Map, Set};
use tab_records::Records;
use tab_term::Term;

/// The records that a transaction left at the keys that it touched, and those that the table has. Both share their memory
/// with it, and stay as they were when it goes on.
pub struct Snapshot {
    own: Map<Term, Records>,
    committed: Map<Term, Records>,
}

// A derived drop would be expanded, field by field, at each exit of each function that holds a snapshot.
impl Drop for Snapshot {
    fn drop(self) {
        let Snapshot { own, committed } = self;
        drop((own, committed));
    }
}

impl Snapshot {
    /// A key whose records the transaction took out is among its own, with none. It takes no memory.
    pub fn new(own: Map<Term, Records>, committed: Map<Term, Records>) -> Snapshot
        ensures { result ≡ record { own = own; committed = committed } }
    {
        Snapshot { own, committed }
    }

    /// The same snapshot, in constant time. It allocates nothing.
    pub(crate) fn share(&self) -> Result<Snapshot, AllocError>
        ensures { IfOk result (λ same. same ≡ self.now) }
    {
        Ok(Snapshot {
            own: self.own.share()?,
            committed: self.committed.share()?,
        })
    }

    /// All keys, each with its records.
    pub(crate) fn walk(&self) -> Merged<'_>
        ensures { result ≡ entries_of self.now }
    {
        Merged::over_all(self.own.iter(), self.committed.iter())
    }

    /// Those of the keys that the table has, and those that the transaction touched, each with its records.
    pub(crate) fn walk_at<'a>(&'a self, keys: &'a Set<Term>) -> Merged<'a>
        ensures { result ≡ entries_at keys.now self.now }
    {
        Merged::over_keys(self.own.iter(), keys.iter(), &self.committed)
    }
}
