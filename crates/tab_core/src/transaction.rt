//! An open transaction.

ghost use Rattle.std.specs.Prelude.{◌≡◌};

use tab_txstore::TxStore;

/// An open transaction: its age, and what it did since its begin or its last restart.
pub struct Transaction {
    pub age: u64,
    pub store: TxStore,
}

// A derived Drop would be expanded, field by field, at each exit of each caller.
impl Drop for Transaction {
    fn drop(self) {
        let Transaction { age: _, store } = self;
        drop(store);
    }
}

impl Transaction {
    /// The transaction's age, and what it has not committed.
    pub fn into_parts(self) -> (u64, TxStore)
        ensures { result ≡ (self.age, self.store) }
    {
        let Transaction { age, store } = self;
        (age, store)
    }
}
