//! Children that a removal has made short are merged with a neighbour, where the two fit one. A row that they become has room
//! left, so that an insert and a removal in turn don't split and merge each time.
ghost use Rattle.std.specs.Prelude.{◌≡◌, ◌∷◌, ◌++◌, IfOk, IfSome};
ghost use Rattle.tab_map.specs.Entries.{Ascends};
ghost use Rattle.tab_map.specs.InOrder.{node_entries};

use crate::entry::Entry;
use crate::{Branch, Map, Node, Tree, branches, row};
use std::alloc::{AllocError, Global};
use std::sync::Arc;
use tab_key::Abbreviate;

impl<K: Abbreviate + Drop, V: Drop> Map<K, V> {
    fn is_short(&self) -> bool {
        match &self.root {
            Tree::Empty => true,
            Tree::Leaf(items) => items.len() < row::FULL / 4,
            Tree::Node(node) => node.branches.len() < branches::FULL / 4,
        }
    }

    // The two maps with the entry between them as one row or node, where they are short enough for that.
    pub(crate) fn joined(
        &self,
        alloc: Global,
        entry: &Entry<K, V>,
        right: &Map<K, V>,
    ) -> Result<Option<Map<K, V>>, AllocError>
        requires { Ascends K.cmp (self.now ++ entry.now ∷ right.now) }
        ensures { IfOk result (λ o. IfSome o (λ m. m ≡ self.now ++ entry.now ∷ right.now)) }
    {
        match (&self.root, &right.root) {
            (Tree::Leaf(left), Tree::Leaf(right))
                if left.len().saturating_add(right.len()) < row::FULL - row::FULL / 8 => {
                let mut items = row::copied(alloc, left.as_slice())?;
                items.push(entry.try_clone()?)?;
                let mut more = row::copied(alloc, right.as_slice())?;
                items.append(&mut more)?;
                Ok(Some(Map {
                    root: Tree::Leaf(Arc::new(alloc, items)?),
                }))
            }
            (Tree::Node(left), Tree::Node(right))
                if left.branches.len().saturating_add(right.branches.len()) < branches::FULL => {
                let mut branches = branches::copied(alloc, &left.branches)?;
                branches.push(Branch {
                    below: left.last.share()?,
                    entry: entry.try_clone()?,
                })?;
                let mut more = branches::copied(alloc, &right.branches)?;
                branches.append(&mut more)?;
                let last = right.last.share()?;
                Ok(Some(Map {
                    root: Tree::Node(Arc::new(alloc, Node { branches, last })?),
                }))
            }
            _ => Ok(None),
        }
    }
}

impl<K: Abbreviate + Drop, V: Drop> Node<K, V> {
    /// The same entries, where the child at this place is merged with a neighbour if it is short.
    pub(crate) fn merge(&mut self, alloc: Global, n: usize)
        requires { Ascends K.cmp (node_entries self.old) }
        ensures same { node_entries self.new ≡ node_entries self.old }
    {
        let is_short = match self.branches.get(n) {
            Some(branch) => branch.below.is_short(),
            None => self.last.is_short(),
        };
        if is_short {
            let left = n.min(self.branches.len().saturating_sub(1));
            let _ = self.try_merge(alloc, left);
        }
    }

    fn try_merge(&mut self, alloc: Global, n: usize) -> Result<(), AllocError>
        requires { Ascends K.cmp (node_entries self.old) }
        ensures same { node_entries self.new ≡ node_entries self.old }
    {
        let Some(left) = self.branches.get(n) else {
            return Ok(());
        };
        match self.branches.get(n + 1) {
            Some(next) => {
                let Some(merged) = left.below.joined(alloc, &left.entry, &next.below)? else {
                    return Ok(());
                };
                drop(self.branches.remove(n));
                self.branches[n].below = merged;
                Ok(())
            }
            None => {
                let Some(merged) = left.below.joined(alloc, &left.entry, &self.last)? else {
                    return Ok(());
                };
                drop(self.branches.remove(n));
                self.last = merged;
                Ok(())
            }
        }
    }
}
