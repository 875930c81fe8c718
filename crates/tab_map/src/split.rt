//! Rows and nodes that are too long are split at their middle, but for a row that is its node's last: keys that come in order
//! all go there, and leave rows that are nearly full behind them. All memory is taken before an entry moves, and what is refused memory stays
//! long. There the lower row gives back the room that it has no entries for, and so does each lower node.
ghost use Rattle.std.specs.Prelude.{◌≡◌, ◌≤◌, ◌<◌, ◌+◌, ◌*◌, ◌∷◌, [], ◌++◌, IfOk, OnErr, length, vec_len};
ghost use Rattle.tab_map.specs.Entries.{Ascends};
ghost use Rattle.tab_map.specs.InOrder.{node_entries};

use crate::entry::Entry;
use crate::{Branch, Map, Node, Tree, branches, row};
use std::alloc::{AllocError, Global};
use std::mem;
use std::sync::Arc;
use tab_key::Abbreviate;

/// Where a row stands in its node.
#[derive(Clone, Copy)]
enum Side {
    /// Others may follow it.
    Within,
    Last,
}

impl Side {
    // How many entries of a long row go to its lower part, with the one that stands between the two.
    fn cut(self, len: usize) -> usize
        requires { 1 ≤ len }
        ensures some { 1 ≤ result }
        ensures within { result ≤ len }
        ensures half { len ≤ 2 * result }
        ensures rest { 8 ≤ len → result < len }
    {
        match self {
            Side::Within => len / 2 + 1,
            Side::Last => len - len / 8,
        }
    }

    // Takes the last entry of a lower row out. Keys that come in order go to none but the last row, so one that they leave
    // behind gives back its room.
    fn take_last<T>(self, items: &mut Vec<T>) -> T
        requires { 0 < vec_len items.old }
        ensures items { items.old.items ≡ items.new.items ++ result ∷ [] }
        ensures len { vec_len items.new + 1 ≡ vec_len items.old }
    {
        match self {
            Side::Within => items.take_last(),
            Side::Last => take_last_fitting(items),
        }
    }
}

// Takes the last one out, and gives back the room beside the others.
fn take_last_fitting<T>(items: &mut Vec<T>) -> T
    requires { 0 < vec_len items.old }
    ensures items { items.old.items ≡ items.new.items ++ result ∷ [] }
    ensures len { vec_len items.new + 1 ≡ vec_len items.old }
{
    let last = items.take_last();
    items.shrink_to_fit();
    last
}

impl<K: Abbreviate + Drop, V: Drop> Map<K, V> {
    fn is_long(&self) -> bool {
        match &self.root {
            Tree::Empty => false,
            Tree::Leaf(items) => items.len() > row::FULL,
            Tree::Node(node) => node.branches.len() > branches::FULL,
        }
    }

    /// The same entries, under one more node where the root is too long.
    pub(crate) fn grow(&mut self, alloc: Global)
        ensures { self.new ≡ self.old }
    {
        if self.is_long() {
            let _ = self.try_grow(alloc);
        }
    }

    fn try_grow(&mut self, alloc: Global) -> Result<(), AllocError>
        ensures { self.new ≡ self.old }
    {
        let mut root = Map::bare(alloc, Vec::with_capacity(alloc, 1)?)?;
        let Some(node) = Arc::get_mut(&mut root) else {
            return Err(AllocError);
        };
        let half = self.lower_part(alloc, Side::Within)?;
        node.branches.push_reserved(half);
        node.last = mem::replace(self, Map::new());
        self.root = Tree::Node(root);
        Ok(())
    }

    // A node that waits for its last child.
    fn bare(
        alloc: Global,
        branches: Vec<Branch<K, V>>,
    ) -> Result<Arc<Node<K, V>, Global>, AllocError>
        ensures { IfOk result (λ node. node.value.branches ≡ branches) }
    {
        let last = Map::new();
        Ok(Arc::new(alloc, Node { branches, last })?)
    }

    // Takes the entries up to the middle one out, or up to the first of the last few.
    fn lower_part(&mut self, alloc: Global, side: Side) -> Result<Branch<K, V>, AllocError>
        ensures ok { IfOk result (λ half. self.old ≡ half.below ++ half.entry ∷ self.new) }
        ensures err { OnErr result (self.new ≡ self.old) }
        ensures ascends { Ascends K.cmp self.old }
    {
        match &mut self.root {
            Tree::Empty => Err(AllocError),
            Tree::Leaf(items) => Map::lower_row(alloc, items, side),
            Tree::Node(node) => Map::lower_node(alloc, node),
        }
    }

    fn lower_row(
        alloc: Global,
        items: &mut Arc<Vec<Entry<K, V>>, Global>,
        side: Side,
    ) -> Result<Branch<K, V>, AllocError>
        requires { Ascends K.cmp items.old.value.items }
        ensures ok { IfOk result
            (λ half. items.old.value.items ≡ half.below ++ half.entry ∷ items.new.value.items) }
        ensures err { OnErr result (items.new.value.items ≡ items.old.value.items) }
        ensures sorted { Ascends K.cmp items.new.value.items }
    {
        let mut row = Arc::new(alloc, Vec::new(alloc))?;
        let Some(lower) = Arc::get_mut(&mut row) else {
            return Err(AllocError);
        };
        let Some(items) = Arc::get_mut(items) else {
            return Err(AllocError);
        };
        if items.is_empty() {
            return Err(AllocError);
        }
        let upper = items.split_off(side.cut(items.len()))?;
        let entry = side.take_last(items);
        *lower = mem::replace(items, upper);
        let below = Map {
            root: Tree::Leaf(row),
        };
        Ok(Branch { below, entry })
    }

    fn lower_node(
        alloc: Global,
        node: &mut Arc<Node<K, V>, Global>,
    ) -> Result<Branch<K, V>, AllocError>
        requires sorted { Ascends K.cmp (node_entries node.old.value) }
        requires some { 1 ≤ length node.old.value.branches.items }
        ensures ok { IfOk result
            (λ half. node_entries node.old.value
            ≡ half.below ++ half.entry ∷ (node_entries node.new.value)) }
        ensures err { OnErr result (node_entries node.new.value ≡ node_entries node.old.value) }
        ensures sorted { Ascends K.cmp (node_entries node.new.value) }
        ensures some { 1 ≤ length node.new.value.branches.items }
    {
        let mut low = Map::bare(alloc, Vec::new(alloc))?;
        let Some(lower) = Arc::get_mut(&mut low) else {
            return Err(AllocError);
        };
        let Some(node) = Arc::get_mut(node) else {
            return Err(AllocError);
        };
        if node.branches.len() < 3 {
            return Err(AllocError);
        }
        let upper = node.branches.split_off(node.branches.len() / 2 + 1)?;
        let middle = take_last_fitting(&mut node.branches);
        lower.branches = mem::replace(&mut node.branches, upper);
        lower.last = middle.below;
        let below = Map {
            root: Tree::Node(low),
        };
        Ok(Branch {
            below,
            entry: middle.entry,
        })
    }
}

impl<K: Abbreviate + Drop, V: Drop> Node<K, V> {
    /// The same entries, where the child at this place is split if it is too long.
    pub(crate) fn split(&mut self, alloc: Global, n: usize)
        requires { n ≤ length self.old.branches.items }
        ensures same { node_entries self.new ≡ node_entries self.old }
        ensures kept { length self.old.branches.items ≤ length self.new.branches.items }
    {
        let is_long = match self.branches.get(n) {
            Some(branch) => branch.below.is_long(),
            None => self.last.is_long(),
        };
        if is_long {
            let _ = self.try_split(alloc, n);
        }
    }

    fn try_split(&mut self, alloc: Global, n: usize) -> Result<(), AllocError>
        requires { n ≤ length self.old.branches.items }
        ensures same { node_entries self.new ≡ node_entries self.old }
        ensures kept { length self.old.branches.items ≤ length self.new.branches.items }
    {
        self.branches.reserve(1)?;
        let half = match self.branches.get_mut(n) {
            Some(branch) => branch.below.lower_part(alloc, Side::Within)?,
            None => self.last.lower_part(alloc, Side::Last)?,
        };
        let Ok(()) = self.branches.insert(n, half) else {
            unreachable!()
        };
        Ok(())
    }
}
