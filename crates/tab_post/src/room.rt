//! What a mailbox holds.

ghost use Rattle.std.specs.Prelude.{◌≡◌, ◌+◌, ◌↔◌, None, IsFalse, min};
ghost use Rattle.tab_model.specs.Bytes.{item_memory};
ghost use Rattle.tab_post.specs.Rooms.{IsBelow};

use tab_outbox::SharedItem;

/// A mailbox holds at most `items` items, and takes no more while those weigh `bytes` or more.
#[derive(Clone, Copy, Debug, PartialEq, Eq)]
pub struct Room {
    pub items: usize,
    pub bytes: Option<u32>,
}

/// So many items with so many bytes, each number up to its greatest.
#[derive(Clone, Copy, Debug, PartialEq, Eq)]
pub struct Load {
    pub items: usize,
    pub bytes: u64,
}

impl Load {
    /// No items.
    pub fn none() -> Load
        ensures { result ≡ record { items = 0; bytes = 0 } }
    {
        Load { items: 0, bytes: 0 }
    }

    /// With one item more.
    pub fn with(self, item: &SharedItem) -> Load
        ensures items { result.items ≡ min (self.items + 1) usize.MAX }
        ensures bytes { result.bytes ≡ min (self.bytes + item_memory item.now) u64.MAX }
    {
        Load {
            items: self.items.saturating_add(1),
            bytes: self.bytes.saturating_add(item.memory()),
        }
    }
}

impl Room {
    /// For so many items, of any weight.
    pub fn of(items: usize) -> Room
        ensures { result ≡ record { items = items; bytes = None } }
    {
        Room { items, bytes: None }
    }

    /// Whether a mailbox may have been full of these items.
    pub fn is_full_of(self, load: Load) -> bool
        ensures { IsFalse result ↔ IsBelow self load }
    {
        let is_heavy = match self.bytes {
            Some(most) => load.bytes >= u64::from(most),
            None => false,
        };
        load.items >= self.items || is_heavy
    }
}
