//! An item of an outbox that stands once for all who are given it.

ghost use Rattle.std.specs.Prelude.{◌≡◌, IfOk, min};
ghost use Rattle.tab_model.specs.Bytes.{item_memory};

use crate::data::Item;
use std::alloc::{AllocError, Global};
use std::marker::Model;
use std::sync::Arc;

/// An item behind a count of those who are given it.
pub struct SharedItem {
    held: Arc<Weighed, Global>,
}

/// An item and its bytes, which are summed once, however many are given it.
struct Weighed {
    item: Item,
    memory: u64,
}

impl Drop for Weighed {
    fn drop(self) {
        let Weighed { item, memory: _ } = self;
        drop(item);
    }
}

// A derived drop would be expanded, field by field, at each exit of each function that holds one of these.
impl Drop for SharedItem {
    fn drop(self) {
        let SharedItem { held } = self;
        drop(held);
    }
}

impl Model for SharedItem {
    ghost use Rattle.std.specs.Prelude.{◌≡◌, ◌-◌, ◌^◌, min};
    ghost use Rattle.std.specs.Coded.{codes};
    ghost use Rattle.tab_term.specs.Code.{term_code, terms_code, pairs_code};
    ghost use Rattle.tab_model.specs.declared.data.Item.{Item};
    ghost use Rattle.tab_model.specs.Bytes.{item_memory};

    ghost Value = { Item };

    ghost coded = { Prim.hlevel (codes, term_code, terms_code, pairs_code) };

    ghost view = { λ a. a.held.value.item };

    ghost invariant = { λ a. a.held.value.memory ≡ min (item_memory a.held.value.item) (2 ^ 64 - 1) };
}

impl SharedItem {
    /// An item that no one else is given yet.
    pub fn new(alloc: Global, item: Item) -> Result<SharedItem, AllocError>
        ensures { IfOk result (λ x. x ≡ item) }
    {
        let memory = item.memory();
        Ok(SharedItem {
            held: Arc::new(alloc, Weighed { item, memory })?,
        })
    }

    /// The same item. It allocates nothing: the error is a count of owners that is full, at 2^63.
    pub fn try_clone(&self) -> Result<SharedItem, AllocError>
        ensures { IfOk result (λ x. x ≡ self.now) }
    {
        Ok(SharedItem {
            held: Arc::try_clone(&self.held)?,
        })
    }

    /// The item, which is shared.
    pub fn item(&self) -> &Item
        ensures { result.now ≡ self.now }
    {
        &self.held.item
    }

    /// How many bytes of memory the item takes that no table has; at most `u64::MAX`.
    pub fn memory(&self) -> u64
        ensures { result ≡ min (item_memory self.now) u64.MAX }
    {
        self.held.memory
    }
}

impl Item {
    /// The bytes of a commit's events. A marker weighs nothing: it shares a dump's records with the table.
    fn memory(&self) -> u64
        ensures { result ≡ min (item_memory self.now) u64.MAX }
    {
        match self {
            Item::Batch(_, events) => events.memory(),
            Item::Began(..) | Item::Ended(..) => 0,
        }
    }
}
