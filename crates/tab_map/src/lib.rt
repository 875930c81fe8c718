//! An ordered map that shares its nodes with its copies, so that a copy takes constant time.
//!
//! A map is a B-tree (Bayer and McCreight, 1972) whose nodes stand behind `Arc`. Contracts see it as the list of its
//! entries in the order of their keys. A change takes O(log n) time and memory. `inserted` and `removed` leave the old
//! map as it was; `insert` and `remove` write the nodes that no other map shares, and copy the others. Where an
//! allocation is refused, nothing has changed. Nodes that are too long are split, and neighbours that fit one node are
//! merged; no contract speaks of lengths or heights.
//!
//! A map does not count its entries: the type that holds one keeps the number beside it, where it needs one.
#![tactic(auto)]

ghost use Rattle.std.specs.Prelude.{◌≡◌, ◌↔◌, ◌≤◌, [], ◌∷◌, ◌++◌, IfOk, MatchOption, IsTrue, length, slice_get, is_some};
ghost use Rattle.std.specs.Option.{option_copied, option_map};
ghost use Rattle.tab_map.specs.Entries.{Ascends, lookup, insert_entry, remove_entry, entries_above};
ghost use Rattle.tab_map.specs.Ahead.{AreAhead};

mod ahead;
mod branches;
mod entry;
mod in_place;
mod iter;
mod merge;
mod nodes;
mod removal;
mod revision;
mod row;
mod set;
mod split;

use ahead::{Ahead, Siblings};
pub use entry::Entry;
use entry::Sought;
pub use iter::Iter;
pub use revision::Revise;
pub use set::{Keys, Set};
use std::alloc::{AllocError, Global};
use std::marker::Model;
use std::sync::Arc;
use tab_key::Abbreviate;

/// A map from keys to values, in the order of the keys.
#[cycle(tree)]
pub struct Map<K: Abbreviate, V> {
    root: Tree<K, V>,
}

#[cycle(tree)]
#[derive(Drop)]
enum Tree<K: Abbreviate, V> {
    Empty,
    Leaf(Arc<Vec<Entry<K, V>>, Global>),
    Node(Arc<Node<K, V>, Global>),
}

#[cycle(tree)]
#[derive(Drop)]
struct Node<K: Abbreviate, V> {
    branches: Vec<Branch<K, V>>,
    last: Map<K, V>,
}

/// An entry of a node, and the map of the entries between it and the branch before.
#[cycle(tree)]
#[derive(Drop)]
struct Branch<K: Abbreviate, V> {
    below: Map<K, V>,
    entry: Entry<K, V>,
}

impl<K: Abbreviate, V> Model for Map<K, V> {
    ghost use Rattle.std.specs.Prelude.{List, length};

    ghost Value = { List (K × V) };

    ghost use Rattle.tab_map.specs.Entries.{Ascends};
    ghost use Rattle.tab_map.specs.InOrder.{entries, HasBranch};

    ghost view = { λ a. entries a.root };

    ghost invariant = { λ a. Ascends K.cmp (entries a.root) × HasBranch a.root };

    ghost size = { length };

    ghost use Rattle.tab_map.specs.TreeFalls.{falls};

    ghost size_decreases = { λ a h. falls K.Abbreviate K.Ord K.PartialEq K.PartialOrd a.root h.1 };
}

// A derived Drop would be expanded, field by field, at each exit of each caller.
impl<K: Abbreviate + Drop, V: Drop> Drop for Map<K, V> {
    #[cycle(tree)]
    fn drop(self) {
        let Map { root } = self;
        drop(root);
    }
}

impl<K: Abbreviate + Drop, V: Drop> Map<K, V> {
    /// The empty map.
    pub fn new() -> Map<K, V>
        ensures { result ≡ [] }
    {
        Map { root: Tree::Empty }
    }

    /// The map of entries that stand in the order of their keys, in O(n).
    pub fn from_sorted(alloc: Global, mut entries: Vec<(K, V)>) -> Result<Map<K, V>, AllocError>
        requires { Ascends K.cmp entries.items }
        ensures { IfOk result (λ m. m ≡ entries.items) }
    {
        let count = entries.len();
        Map::from_last(alloc, &mut entries, count)
    }

    // Takes the last `count` entries. Half of them are on each side of the root, so the tree is balanced.
    fn from_last(
        alloc: Global,
        entries: &mut Vec<(K, V)>,
        count: usize,
    ) -> Result<Map<K, V>, AllocError>
        requires enough { count ≤ length entries.old.items }
        requires sorted { Ascends K.cmp entries.old.items }
        ensures taken { IfOk result (λ m. entries.old.items ≡ entries.new.items ++ m) }
        ensures count { IfOk result (λ m. length m ≡ count) }
    {
        if count <= row::FULL {
            return Map::last_row(alloc, entries, count);
        }
        let right = Map::from_last(alloc, entries, count / 2)?;
        let entry = entries.take_last();
        let below = Map::from_last(alloc, entries, (count - 1) / 2)?;
        let entry = Entry::new(alloc, entry)?;
        Map::node(alloc, Branch { below, entry }, right)
    }

    // One node, where the two fit it, or a node over them.
    fn node(alloc: Global, branch: Branch<K, V>, last: Map<K, V>) -> Result<Map<K, V>, AllocError>
        requires { Ascends K.cmp (branch.below ++ branch.entry ∷ last) }
        ensures { IfOk result (λ m. m ≡ branch.below ++ branch.entry ∷ last) }
    {
        if let Some(joined) = branch.below.joined(alloc, &branch.entry, &last)? {
            return Ok(joined);
        }
        let mut branches = Vec::new(alloc);
        branches.push(branch)?;
        Ok(Map {
            root: Tree::Node(Arc::new(alloc, Node { branches, last })?),
        })
    }

    // Takes the last `count` entries, without nodes.
    fn last_row(
        alloc: Global,
        entries: &mut Vec<(K, V)>,
        count: usize,
    ) -> Result<Map<K, V>, AllocError>
        requires enough { count ≤ length entries.old.items }
        requires sorted { Ascends K.cmp entries.old.items }
        ensures taken { IfOk result (λ m. entries.old.items ≡ entries.new.items ++ m) }
        ensures count { IfOk result (λ m. length m ≡ count) }
    {
        let last = entries.split_off(entries.len() - count)?;
        let items = row::of_pairs(alloc, last)?;
        Ok(Map {
            root: Tree::Leaf(Arc::new(alloc, items)?),
        })
    }

    /// The same map, in constant time. It allocates nothing: the error is a count of owners that is full, at 2^63.
    pub fn share(&self) -> Result<Map<K, V>, AllocError>
        ensures { IfOk result (λ m. m ≡ self.now) }
    {
        match &self.root {
            Tree::Empty => Ok(Map::new()),
            Tree::Leaf(items) => Ok(Map {
                root: Tree::Leaf(Arc::try_clone(items)?),
            }),
            Tree::Node(node) => Ok(Map {
                root: Tree::Node(Arc::try_clone(node)?),
            }),
        }
    }

    /// Whether the map has no entry, in constant time.
    pub fn is_empty(&self) -> bool
        ensures empty { IsTrue result ↔ (self.now ≡ []) }
        ensures ascends { Ascends K.cmp self.now }
    {
        match &self.root {
            Tree::Empty => true,
            Tree::Leaf(items) => items.is_empty(),
            Tree::Node(_) => false,
        }
    }

    /// The value at the key.
    pub fn get(&self, key: &K) -> Option<&V>
        ensures value { option_copied result ≡ lookup K.cmp key.now self.now }
        ensures ascends { Ascends K.cmp self.now }
    {
        match self.get_entry(key) {
            Some(entry) => Some(&entry.pair().1),
            None => None,
        }
    }

    /// The entry at the key.
    pub fn get_entry(&self, key: &K) -> Option<&Entry<K, V>>
        ensures value { option_map (λ e. e.1) (option_copied result)
            ≡ lookup K.cmp key.now self.now }
        ensures ascends { Ascends K.cmp self.now }
    {
        self.find(&Sought::new(key))
    }

    fn find(&self, sought: &Sought<K>) -> Option<&Entry<K, V>>
        ensures value { option_map (λ e. e.1) (option_copied result)
            ≡ lookup K.cmp sought.now self.now }
        ensures ascends { Ascends K.cmp self.now }
    {
        match &self.root {
            Tree::Empty => None,
            Tree::Leaf(items) => row::get(items.as_slice(), sought),
            Tree::Node(node) => match branches::place(&node.branches, sought) {
                Ok(n) => Some(&node.branches[n].entry),
                Err(n) => match node.branches.get(n) {
                    Some(branch) => branch.below.find(sought),
                    None => node.last.find(sought),
                },
            },
        }
    }

    /// Whether the map has an entry with the key.
    pub fn contains_key(&self, key: &K) -> bool
        ensures found { result ≡ is_some (lookup K.cmp key.now self.now) }
        ensures ascends { Ascends K.cmp self.now }
    {
        self.get(key).is_some()
    }

    /// The entry with the least key.
    pub fn first(&self) -> Option<&Entry<K, V>>
        ensures entry { option_copied result ≡ slice_get self.now 0 }
        ensures ascends { Ascends K.cmp self.now }
    {
        self.start().first()
    }

    // The whole map is ahead.
    fn start(&self) -> Ahead<'_, K, V>
        ensures ahead { AreAhead result self.now }
        ensures ascends { Ascends K.cmp self.now }
    {
        match &self.root {
            Tree::Empty => Ahead::in_row(&[]),
            Tree::Leaf(items) => Ahead::in_row(items.as_slice()),
            Tree::Node(node) => match node.branches.as_slice() {
                [] => Ahead::in_row(&[]),
                [branch, ..] => branch.below.start().then(Siblings::new(node, 0)),
            },
        }
    }

    /// What is ahead above the key.
    pub(crate) fn next_above(&self, sought: &Sought<K>) -> Ahead<'_, K, V>
        ensures ahead { AreAhead result (entries_above K.cmp sought.now self.now) }
        ensures ascends { Ascends K.cmp self.now }
    {
        match &self.root {
            Tree::Empty => Ahead::in_row(&[]),
            Tree::Leaf(items) => row::next_above(items.as_slice(), sought),
            Tree::Node(node) => match branches::place(&node.branches, sought) {
                Ok(n) => match node.branches.get(n + 1) {
                    Some(branch) => branch.below.start().then(Siblings::new(node, n + 1)),
                    None => node.last.start(),
                },
                Err(n) => match node.branches.get(n) {
                    Some(branch) => branch.below.next_above(sought).then(Siblings::new(node, n)),
                    None => node.last.next_above(sought),
                },
            },
        }
    }

    /// The map with this value at the key: in place of the value there, or as a new entry.
    pub fn inserted(&self, alloc: Global, key: K, value: V) -> Result<Map<K, V>, AllocError>
        ensures { IfOk result (λ m. m ≡ insert_entry K.cmp (key, value) self.now) }
    {
        let mut map = self.share()?;
        map.insert(alloc, key, value)?;
        Ok(map)
    }

    /// The map without the entry at the key. A removal allocates too, since it copies the path to the entry.
    pub fn removed(&self, alloc: Global, key: &K) -> Result<Map<K, V>, AllocError>
        ensures { IfOk result (λ m. m ≡ remove_entry K.cmp key.now self.now) }
    {
        let mut map = self.share()?;
        map.remove(alloc, key)?;
        Ok(map)
    }
}
