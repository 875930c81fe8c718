//! The number of items that an inbox took, which its post reads.

ghost use Rattle.std.specs.Prelude.{◌≡◌, IfOk};

use std::alloc::{AllocError, Global};
use std::marker::Model;
use std::sync::Arc;
use std::sync::atomic::{AtomicU64, Ordering};

/// How many items were taken from a mailbox with a limit of bytes. Both ends have it. Contracts see the limit.
#[derive(Drop)]
pub struct Tally {
    limit: u32,
    taken: Arc<AtomicU64, Global>,
}

impl Model for Tally {
    ghost use Rattle.std.specs.Prelude.{ℕ};
    ghost use Rattle.std.specs.Coded.{coded_ℕ};

    ghost Value = { ℕ };

    ghost coded = { coded_ℕ };

    ghost view = { λ a. a.limit };
}

impl Tally {
    /// Nothing is taken yet from a mailbox that is full at `limit` bytes.
    pub fn new(alloc: Global, limit: u32) -> Result<Tally, AllocError>
        ensures { IfOk result (λ t. t ≡ limit) }
    {
        let taken = Arc::new(alloc, AtomicU64::new(0))?;
        Ok(Tally { limit, taken })
    }

    /// The same tally, for the other end.
    pub fn again(&self) -> Result<Tally, AllocError>
        ensures { IfOk result (λ t. t ≡ self.now) }
    {
        let taken = Arc::try_clone(&self.taken)?;
        Ok(Tally {
            limit: self.limit,
            taken,
        })
    }

    /// The bytes at which the mailbox is full.
    pub fn limit(&self) -> u32
        ensures { result ≡ self.now }
    {
        self.limit
    }

    /// One item more was taken.
    pub fn add(&self) {
        self.taken.fetch_add(1, Ordering::Relaxed);
    }

    /// How many items were taken.
    pub fn taken(&self) -> u64 {
        self.taken.load(Ordering::Relaxed)
    }
}
