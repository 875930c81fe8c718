//! Where a walk over a map stands.
ghost use Rattle.std.specs.Prelude.{◌≡◌, ◌≤◌, ◌-◌, List, [], ◌++◌, IsTrue, length, drop};
ghost use Rattle.std.specs.Option.{option_copied};
ghost use Rattle.tab_map.specs.Ahead.{AreAhead, MayBeAhead, Steps, behind, first_known};
ghost use Rattle.tab_map.specs.Entries.{entries_above};

use crate::entry::Entry;
use crate::{Branch, Map, Node};
use tab_key::Abbreviate;

/// What is ahead in a map: the entries of a row, and behind them what is known of the node above the row.
#[derive(Drop)]
pub struct Ahead<'a, K: Abbreviate, V> {
    pub row: &'a [Entry<K, V>],
    /// Nothing comes behind the row, where no node is given.
    pub node: Option<Siblings<'a, K, V>>,
}

/// The branches of a node from the one above a row on, and the node's last child. Where no branch is left, more
/// entries may come, of which nothing is known.
#[derive(Drop)]
pub struct Siblings<'a, K: Abbreviate, V> {
    branches: &'a [Branch<K, V>],
    last: &'a Map<K, V>,
}

impl<'a, K: Abbreviate + Drop, V: Drop> Siblings<'a, K, V> {
    /// The branches of a node from this place on.
    pub fn new(node: &'a Node<K, V>, n: usize) -> Siblings<'a, K, V>
        requires { n ≤ length node.now.branches.items }
        ensures branches { result.branches.now ≡ drop n node.now.branches.items }
        ensures last { result.last.now ≡ node.now.last }
    {
        Siblings {
            branches: &node.branches[n..],
            last: &node.last,
        }
    }
}

impl<'a, K: Abbreviate + Drop, V: Drop> Ahead<'a, K, V> {
    /// The entries of a row, or those from one of them on, and nothing behind them.
    pub fn in_row(row: &'a [Entry<K, V>]) -> Ahead<'a, K, V>
        ensures { AreAhead result row.now }
    {
        Ahead { row, node: None }
    }

    /// What is ahead below the first branch of these, then the branch's entry and what comes behind it.
    pub fn then(mut self, siblings: Siblings<'a, K, V>) -> Ahead<'a, K, V>
        ensures ahead { (below : List (K × V)) → AreAhead self.entry below
            → 1 ≤ length siblings.entry.branches.now
            → AreAhead result
            (below ++ behind siblings.entry.branches.now siblings.entry.last.now) }
        ensures more { (below after : List (K × V)) → AreAhead self.entry below
            → MayBeAhead result
            (below ++ behind siblings.entry.branches.now siblings.entry.last.now ++ after) }
    {
        if self.node.is_none() {
            self.node = Some(siblings);
        }
        self
    }

    /// The entry that comes next.
    pub fn first(&self) -> Option<&'a Entry<K, V>>
        ensures { option_copied result ≡ first_known self.now }
    {
        if let [entry, ..] = self.row {
            return Some(entry);
        }
        match &self.node {
            None => None,
            Some(node) => match node.branches {
                [] => None,
                [branch, ..] => Some(&branch.entry),
            },
        }
    }

    /// Steps over the entry that comes next, and gives it.
    pub fn step(&mut self) -> Option<&'a Entry<K, V>>
        ensures { (es : List (K × V)) → AreAhead self.old es
            → Steps (option_copied result) self.new es }
    {
        match self.row {
            [entry, row @ ..] => {
                self.row = row;
                Some(entry)
            }
            [] => self.step_to_child(),
        }
    }

    /// Passes over so many entries of the row, but not over its last.
    pub fn pass(&mut self, n: usize)
        requires { n ≤ length self.old.row.now - 1 }
        ensures { (es : List (K × V)) → AreAhead self.old es → AreAhead self.new (drop n es) }
    {
        self.row = &self.row[n..];
    }

    // At the end of a row the entry of its branch comes next, and behind that what is below the next branch, or the last
    // child. Inlined, it would make a step inside a row a call.
    #[inline(never)]
    fn step_to_child(&mut self) -> Option<&'a Entry<K, V>>
        requires { length self.old.row.now ≡ 0 }
        ensures { (es : List (K × V)) → AreAhead self.old es
            → Steps (option_copied result) self.new es }
    {
        let Some(node) = &self.node else {
            return None;
        };
        let [branch, branches @ ..] = node.branches else {
            return None;
        };
        let last = node.last;
        let child = match branches {
            [] => last,
            [next, ..] => &next.below,
        };
        *self = child.start().then(Siblings { branches, last });
        Some(&branch.entry)
    }

    /// Goes on above this entry, of which nothing was known. Inlined, each step would set the place of its result to zero.
    #[inline(never)]
    pub fn seek(&mut self, map: &'a Map<K, V>, entry: &Entry<K, V>)
        ensures { AreAhead self.new (entries_above K.cmp entry.now.0 map.now) }
    {
        *self = map.next_above(&entry.sought());
    }

    /// Whether the entry that comes next is known, or none comes.
    pub fn is_known(&self) -> bool
        ensures { (es : List (K × V)) → IsTrue result → MayBeAhead self.now es
            → AreAhead self.now es }
    {
        if !self.row.is_empty() {
            return true;
        }
        match &self.node {
            None => true,
            Some(node) => !node.branches.is_empty(),
        }
    }
}
