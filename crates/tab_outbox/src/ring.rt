//! A ring of items.

ghost use Rattle.std.specs.Prelude.{◌≡◌, [], IfOk};

use crate::post::Post;
use crate::refused::Refused;
use circular_buffer::HeapCircularBuffer;
use std::alloc::{AllocError, Global};
use std::marker::Model;
use tab_model::SharedItem;

/// A ring of items, for one thread.
#[derive(Drop)]
pub struct RingPost {
    items: HeapCircularBuffer<SharedItem>,
    refusals: u64,
}

impl Model for RingPost {
    ghost use Rattle.std.specs.Prelude.{◌≤◌, length};
    ghost use Rattle.std.specs.Coded.{codes};
    ghost use Rattle.tab_term.specs.Code.{terms_code, pairs_code};
    ghost use Rattle.tab_outbox.specs.Posts.{Ring};

    ghost Value = { Ring };

    ghost coded = { Prim.hlevel (codes, terms_code, pairs_code) };

    ghost view = { λ a.
        record { items = a.items.items; refusals = a.refusals; capacity = a.items.capacity } };

    ghost invariant = { λ a. length a.items.items ≤ a.items.capacity };
}

impl RingPost {
    /// An empty ring that holds at most `capacity` items.
    pub fn with_capacity(alloc: Global, capacity: usize) -> Result<RingPost, AllocError>
        ensures { IfOk result (λ p. p ≡ record { items = []; refusals = 0; capacity = capacity }) }
    {
        Ok(RingPost {
            items: HeapCircularBuffer::with_capacity(alloc, capacity)?,
            refusals: 0,
        })
    }
}

impl Post for RingPost {
    ghost use Rattle.std.specs.Prelude.{◌≡◌, [], ◌∷◌, length, nat_le, refl, OnOk, IfErr, is_err};
    ghost use Rattle.std.proofs.Common.{◌∙◌};
    ghost use Rattle.tab_model.specs.Outcome.{with_items, with_refusal};
    ghost use Rattle.tab_outbox.specs.Posts.{as_outbox, refused_item, IsFull};

    ghost outbox = { λ s. as_outbox s };

    ghost stays = { λ a b. b.capacity ≡ a.capacity };

    ghost stays_self = { λ x. refl };

    ghost stays_on = { λ x y z p q. q ∙ p };

    fn put(&mut self, item: SharedItem) -> Result<(), Refused>
        ensures stays { self.new.capacity ≡ self.old.capacity }
        ensures decided { is_err result ≡ nat_le self.old.capacity (length self.old.items) }
        ensures ok { OnOk result
            (as_outbox self.new ≡ with_items (as_outbox self.old) (item ∷ [])) }
        ensures err { IfErr result
            (λ r. (refused_item r ≡ item)
            × (as_outbox self.new ≡ with_refusal (as_outbox self.old))) }
        ensures full { IfErr result IsFull }
    {
        match self.items.try_push_back(item) {
            Ok(()) => Ok(()),
            Err(item) => {
                self.refusals = self.refusals.saturating_add(1);
                Err(Refused::Full(item))
            }
        }
    }

    fn pull(&mut self) -> Option<SharedItem> {
        self.items.pop_front()
    }

    fn refusals(&self) -> u64 {
        self.refusals
    }
}
