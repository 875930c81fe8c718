//! Iterators over a map's entries, which take no memory.
//!
//! A step takes the next entry of a row. At the end of the row it takes the entry of the row's branch, and goes on to what
//! is below the next branch of the same node, or to the node's last child. Behind the last child it searches the map for
//! the first entry above the last one, in O(log n): no comparison of keys comes but there, once in some hundreds of
//! entries.
ghost use Rattle.std.specs.Prelude.{◌≡◌, List, [], ◌∷◌, ◌++◌, MatchOption, drop, slice_get};
ghost use Rattle.std.specs.Iterator.{YieldsFirstRef, item_count};
ghost use Rattle.std.specs.Option.{option_copied};
ghost use Rattle.tab_map.specs.Entries.{Ascends};

use crate::Map;
use crate::ahead::Ahead;
use crate::entry::Entry;
use std::iter::FusedIterator;
use std::marker::Model;
use tab_key::Abbreviate;

/// The entries of a map in the order of their keys, seen as the list of those that are left.
#[derive(Drop)]
pub struct Iter<'a, K: Abbreviate, V> {
    map: &'a Map<K, V>,
    ahead: Ahead<'a, K, V>,
}

impl<'a, K: Abbreviate, V> Model for Iter<'a, K, V> {
    ghost use Rattle.std.specs.Prelude.{List};

    ghost Value = { List (K × V) };

    ghost use Rattle.tab_map.specs.Ahead.{AreAhead, first_known};
    ghost use Rattle.tab_map.specs.InOrder.{entries_left};

    ghost view = { λ it. entries_left K.cmp it.map.now (first_known it.ahead) };

    ghost use Rattle.tab_map.specs.Entries.{Ascends};

    ghost invariant = { λ it. Ascends K.cmp it.map.now
        × AreAhead it.ahead (entries_left K.cmp it.map.now (first_known it.ahead)) };
}

impl<K: Abbreviate + Drop, V: Drop> Map<K, V> {
    /// The entries in the order of their keys.
    pub fn iter<'a>(&'a self) -> Iter<'a, K, V>
        ensures entries { result ≡ self.now }
        ensures ascends { Ascends K.cmp self.now }
    {
        Iter {
            map: self,
            ahead: self.start(),
        }
    }
}

impl<'a, K: Abbreviate + Drop, V: Drop> Iter<'a, K, V> {
    /// The entry that comes next. It stays the next one.
    pub fn peek(&self) -> Option<&'a Entry<K, V>>
        ensures { option_copied result ≡ slice_get self.now 0 }
    {
        self.ahead.first()
    }

    /// The entries that come next and stand in one slice. None may stand there where entries are left.
    pub fn row(&self) -> &'a [Entry<K, V>]
        ensures { (rest : List (K × V)) × (self.now ≡ result.now ++ rest) }
    {
        self.ahead.row
    }

    /// Passes over `n` entries, and gives the next: in O(1) where it stands in `row`, else row by row.
    pub fn nth(&mut self, n: usize) -> Option<&'a Entry<K, V>>
        ensures { MatchOption result ((drop n self.old ≡ []) × (self.new ≡ []))
            (λ entry. drop n self.old ≡ entry.now ∷ self.new) }
    {
        let passed = n.min(self.ahead.row.len().saturating_sub(1));
        self.ahead.pass(passed);
        let entry = self.next()?;
        if passed == n {
            return Some(entry);
        }
        self.nth(n - passed - 1)
    }
}

impl<'a, K: Abbreviate + Drop, V: Drop> Iterator for Iter<'a, K, V> {
    type Item = &'a Entry<K, V>;

    ghost next_gives = { YieldsFirstRef (λ left. left) };

    ghost remaining = { item_count (λ left. left) };

    // A step inside a row stands in the caller's loop, where a call would take longer than it.
    #[inline(always)]
    fn next(&mut self) -> Option<&'a Entry<K, V>> {
        let entry = self.ahead.step()?;
        if !self.ahead.is_known() {
            self.ahead.seek(self.map, entry);
        }
        Some(entry)
    }
}

impl<'a, K: Abbreviate + Drop, V: Drop> FusedIterator for Iter<'a, K, V> {}
