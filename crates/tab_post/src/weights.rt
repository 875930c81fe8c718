//! The weights of the items that a post sent and that wait in its channel, as far as it knows.

ghost use Rattle.std.specs.Prelude.{◌≡◌, ℕ, ◌<◌, ◌++◌, ◌∷◌, [], IfOk, IfSome, IsFalse, min, sum, drop, nat_le};
ghost use Rattle.circular_buffer.specs.Buffer.{keep_last};
ghost use Rattle.tab_post.specs.Weights.{AreWithin, Drops, is_heavy, with_bytes};

use crate::tally::Tally;
use circular_buffer::HeapCircularBuffer;
use std::alloc::{AllocError, Global};
use std::marker::Model;

/// Whether the items that wait make the channel full, if there is a limit. Drops the weights of those that were taken
/// since.
pub fn are_heavy(weights: &mut Option<Weights>) -> bool
    ensures drops { Drops weights.old weights.new }
    ensures heavy { result ≡ is_heavy weights.new }
    ensures within { IfSome weights.new AreWithin }
{
    match weights {
        Some(weights) => {
            weights.drop_taken();
            weights.are_heavy()
        }
        None => false,
    }
}

/// Keeps the weight of an item of so many bytes that was sent, if there is a limit.
pub fn keep(weights: &mut Option<Weights>, bytes: u64)
    requires { IsFalse (is_heavy weights.old) }
    ensures { weights.new ≡ with_bytes weights.old bytes }
{
    if let Some(weights) = weights {
        weights.keep(bytes);
    }
}

/// The weights, oldest first, with their sum. Each is at most the limit, so the sum is below twice the limit.
#[derive(Drop)]
pub struct Weights {
    tally: Tally,
    /// How many weights were dropped so far.
    dropped: u64,
    kept: HeapCircularBuffer<u64>,
    sum: u64,
}

impl Model for Weights {
    ghost use Rattle.std.specs.Prelude.{◌≡◌, ◌≤◌, ◌+◌, length, sum as sum_of};
    ghost use Rattle.std.specs.Coded.{codes};
    ghost use Rattle.tab_post.specs.Weights.{Weighing};

    ghost Value = { Weighing };

    ghost coded = { Prim.hlevel (codes) };

    ghost view = { λ a.
        record { limit = a.tally; room = a.kept.capacity; weights = a.kept.items } };

    ghost invariant = { λ a. (length a.kept.items ≤ a.kept.capacity) × (a.sum ≡ sum_of a.kept.items)
        × (a.sum ≤ a.tally + a.tally) };
}

impl Weights {
    /// No weights yet, of at most `room` items, in a channel that is full at the tally's limit.
    pub fn new(alloc: Global, tally: Tally, room: usize) -> Result<Weights, AllocError>
        ensures { IfOk result (λ w. w ≡ record { limit = tally; room = room; weights = [] }) }
    {
        Ok(Weights {
            tally,
            dropped: 0,
            kept: HeapCircularBuffer::with_capacity(alloc, room)?,
            sum: 0,
        })
    }

    /// Whether the weights make the channel full.
    fn are_heavy(&self) -> bool
        ensures heavy { result ≡ nat_le self.now.limit (sum self.now.weights) }
        ensures within { AreWithin self.now }
    {
        self.sum >= u64::from(self.tally.limit())
    }

    /// Drops the weights of the items that were taken since.
    fn drop_taken(&mut self)
        ensures { (n : ℕ)
            × (self.new ≡ record self.old { weights = drop n self.old.weights }) }
    {
        let taken = self.tally.taken();
        for _ in self.dropped..taken {
            if !self.drop_oldest() {
                return;
            }
        }
    }

    fn drop_oldest(&mut self) -> bool
        ensures { self.new ≡ record self.old { weights = drop 1 self.old.weights } }
    {
        let Some(weight) = self.kept.pop_front() else {
            return false;
        };
        self.sum -= weight;
        self.dropped = self.dropped.saturating_add(1);
        true
    }

    /// Keeps the weight of an item that was sent. If all have a place, the oldest item was taken, and its weight goes.
    fn keep(&mut self, bytes: u64)
        requires { sum self.old.weights < self.old.limit }
        ensures { self.new
            ≡ record self.old {
              weights = keep_last self.old.room (self.old.weights ++ min bytes self.old.limit ∷ []);
            } }
    {
        let weight = bytes.min(u64::from(self.tally.limit()));
        self.sum += weight;
        if let Some(oldest) = self.kept.push_back(weight) {
            self.sum -= oldest;
            self.dropped = self.dropped.saturating_add(1);
        }
    }
}
