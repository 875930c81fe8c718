//! Beginnings of a register.

ghost use Rattle.std.specs.Prelude.{◌≡◌, ◌-◌, ◌<◌, ◌^◌, [], ◌∷◌, ◌++◌, length, slice_get, MatchBool};
ghost use mathlib.Core.List.{IsPrefix};
ghost use Rattle.tab_post.specs.Register.{IsLonger};

use crate::growth::{Adding, Counted, NoGain};
use crate::naming::{Entry, Naming};
use crate::register::Register;
use logbook::{Offer, Seen};
use std::marker::{Model, PhantomData};

/// A beginning of the register of these entries that `J` names, which was seen. Contracts see its entries.
#[derive(Drop)]
pub struct Prefix<E: Entry, J: Naming> {
    pub(crate) len: u64,
    pub(crate) seen: Seen<E, u64, Counted>,
    pub(crate) of: PhantomData<J>,
}

impl<E: Entry, J: Naming> Model for Prefix<E, J> {
    ghost use Rattle.std.specs.Prelude.{◌≡◌, List, length};
    ghost use Rattle.std.specs.Coded.{coded_list};

    ghost Value = { List E };

    ghost coded = { coded_list E.code };

    ghost view = { λ f. f.seen.log };

    ghost invariant = { λ f. (f.len ≡ length f.seen.log) × (f.seen.book ≡ E.book_in J.books) };
}

impl<E: Entry, J: Naming> Prefix<E, J> {
    /// The number of entries that were seen.
    pub fn len(&self) -> u64
        ensures { result ≡ length self.now }
    {
        self.len
    }

    /// A copy.
    pub fn again(&self) -> Prefix<E, J>
        ensures { result ≡ self.now }
    {
        Prefix {
            len: self.len,
            seen: self.seen.again(),
            of: PhantomData,
        }
    }

    /// Both have the same entry at a place that both have seen. Nothing runs: only proofs learn it.
    pub fn agrees(&self, other: &Prefix<E, J>, place: u64)
        requires seen { (place < length self.now) × (place < length other.now) }
        ensures agrees { slice_get self.now place ≡ slice_get other.now place }
    {
        let mut both = self.seen.again();
        both.learn(&other.seen);
    }

    /// Becomes the other, if that has seen as much of the register. Returns whether it has.
    pub fn follow(&mut self, other: &Prefix<E, J>) -> bool
        ensures follows { MatchBool result
            (IsPrefix self.old other.now × (self.new ≡ other.now)) (self.new ≡ self.old) }
    {
        let mut both = self.seen.again();
        both.learn(&other.seen);
        if other.len < self.len {
            return false;
        }
        *self = other.again();
        true
    }

    /// Adds an entry after those that were seen, if the register has no others. Else it has seen more of the register.
    pub fn add(&mut self, register: &Register<E, J>, entry: &E) -> bool
        requires room { length self.old < 2 ^ 64 - 1 }
        ensures added { MatchBool result (self.new ≡ self.old ++ entry.now ∷ [])
            (IsLonger self.old self.new) }
    {
        let mut offer: Offer<E, u64, Counted, NoGain> = self.seen.plain::<NoGain, E, Adding>(entry);
        let mut pen = self.seen.no_pen();
        let len = self.len;
        let found = register
            .head
            .compare_exchange::<Adding, NoGain>(len, len + 1, &mut self.seen, &mut offer, &mut pen);
        self.len = if found == len { len + 1 } else { found };
        found == len
    }
}
