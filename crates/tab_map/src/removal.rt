//! Removal: the entry at a key, and the last entry, are taken out below a node that is made the map's own first.
ghost use Rattle.std.specs.Prelude.{◌≡◌, ◌≤◌, ◌<◌, ◌∷◌, ◌++◌, [], IfOk, OnOk, OnErr, MatchOption, length};
ghost use Rattle.tab_map.specs.Entries.{Ascends, remove_entry};
ghost use Rattle.tab_map.specs.InOrder.{node_entries, separators};
ghost use Rattle.tab_map.specs.Places.{HasAt};

use crate::entry::{Entry, Sought};
use crate::{Map, Node, Tree, branches, row};
use std::alloc::{AllocError, Global};
use std::mem;
use std::sync::Arc;
use tab_key::Abbreviate;

impl<K: Abbreviate + Drop, V: Drop> Map<K, V> {
    #[cycle(take)]
    pub(crate) fn take(&mut self, alloc: Global, sought: &Sought<K>) -> Result<(), AllocError>
        ensures ok { OnOk result (self.new ≡ remove_entry K.cmp sought.now self.old) }
        ensures err { OnErr result (self.new ≡ self.old) }
    {
        match &mut self.root {
            Tree::Empty => (),
            Tree::Leaf(items) => Map::take_in_row(alloc, items, sought)?,
            Tree::Node(node) => {
                Map::own(alloc, node)?;
                let Some(node) = Arc::get_mut(node) else {
                    return Err(AllocError);
                };
                Map::take_under(alloc, node, sought)?;
                if node.branches.is_empty() {
                    self.root = mem::replace(&mut node.last.root, Tree::Empty);
                }
            }
        }
        Ok(())
    }

    #[cycle(take)]
    fn take_under(
        alloc: Global,
        node: &mut Node<K, V>,
        sought: &Sought<K>,
    ) -> Result<(), AllocError>
        requires { Ascends K.cmp (node_entries node.old) }
        ensures ok { OnOk result
            (node_entries node.new ≡ remove_entry K.cmp sought.now (node_entries node.old)) }
        ensures err { OnErr result (node_entries node.new ≡ node_entries node.old) }
        ensures kept { OnErr result
            (length node.old.branches.items ≤ length node.new.branches.items) }
    {
        match branches::place(&node.branches, sought) {
            Ok(n) => node.take_at(alloc, n),
            Err(n) => match node.branches.get_mut(n) {
                Some(branch) => {
                    branch.below.take(alloc, sought)?;
                    node.merge(alloc, n);
                    Ok(())
                }
                None => {
                    node.last.take(alloc, sought)?;
                    node.merge(alloc, n);
                    Ok(())
                }
            },
        }
    }

    fn take_in_row(
        alloc: Global,
        items: &mut Arc<Vec<Entry<K, V>>, Global>,
        sought: &Sought<K>,
    ) -> Result<(), AllocError>
        requires { Ascends K.cmp items.old.value.items }
        ensures ok { OnOk result
            (items.new.value.items ≡ remove_entry K.cmp sought.now items.old.value.items) }
        ensures err { OnErr result (items.new.value.items ≡ items.old.value.items) }
    {
        Map::own_items(alloc, items)?;
        let Some(items) = Arc::get_mut(items) else {
            return Err(AllocError);
        };
        row::take(items, sought);
        Ok(())
    }

    /// Takes the entry with the greatest key out.
    #[cycle(take_last)]
    fn take_last(&mut self, alloc: Global) -> Result<Option<Entry<K, V>>, AllocError>
        ensures ok { IfOk result
            (λ o. MatchOption o ((self.old ≡ []) × (self.new ≡ []))
            (λ e. self.old ≡ self.new ++ e ∷ [])) }
        ensures err { OnErr result (self.new ≡ self.old) }
        ensures ascends { Ascends K.cmp self.new }
    {
        match &mut self.root {
            Tree::Empty => Ok(None),
            Tree::Leaf(items) => {
                Map::own_items(alloc, items)?;
                let Some(items) = Arc::get_mut(items) else {
                    return Err(AllocError);
                };
                Ok(items.pop())
            }
            Tree::Node(node) => {
                Map::own(alloc, node)?;
                let Some(node) = Arc::get_mut(node) else {
                    return Err(AllocError);
                };
                let taken = Map::take_last_under(alloc, node)?;
                if !node.branches.is_empty() {
                    return Ok(taken);
                }
                self.root = mem::replace(&mut node.last.root, Tree::Empty);
                Ok(taken)
            }
        }
    }

    #[cycle(take_last)]
    fn take_last_under(
        alloc: Global,
        node: &mut Node<K, V>,
    ) -> Result<Option<Entry<K, V>>, AllocError>
        requires { Ascends K.cmp (node_entries node.old) }
        ensures ok { IfOk result
            (λ o. MatchOption o ((node_entries node.old ≡ []) × (node_entries node.new ≡ []))
            (λ e. node_entries node.old ≡ (node_entries node.new) ++ e ∷ [])) }
        ensures err { OnErr result (node_entries node.new ≡ node_entries node.old) }
        ensures kept { OnErr result
            (length node.old.branches.items ≤ length node.new.branches.items) }
    {
        match node.last.take_last(alloc)? {
            Some(entry) => {
                let last = node.branches.len();
                node.merge(alloc, last);
                Ok(Some(entry))
            }
            None => Ok(node.take_last_branch()),
        }
    }
}

impl<K: Abbreviate + Drop, V: Drop> Node<K, V> {
    // Takes the entry of this branch out.
    fn take_at(&mut self, alloc: Global, n: usize) -> Result<(), AllocError>
        requires in_node { n < length self.old.branches.items }
        requires sorted { Ascends K.cmp (node_entries self.old) }
        ensures ok { OnOk result
            ((k : K) → HasAt K.cmp k (separators self.old.branches.items) n
            → node_entries self.new ≡ remove_entry K.cmp k (node_entries self.old)) }
        ensures err { OnErr result (node_entries self.new ≡ node_entries self.old) }
        ensures kept { OnErr result
            (length self.old.branches.items ≤ length self.new.branches.items) }
    {
        match self.branches[n].below.take_last(alloc)? {
            Some(entry) => {
                self.branches[n].entry = entry;
                self.merge(alloc, n);
                Ok(())
            }
            None => {
                drop(self.branches.remove(n));
                Ok(())
            }
        }
    }

    // The last branch becomes the last child, where that is empty.
    fn take_last_branch(&mut self) -> Option<Entry<K, V>>
        requires { self.old.last ≡ [] }
        ensures { MatchOption result ((node_entries self.old ≡ []) × (node_entries self.new ≡ []))
            (λ e. node_entries self.old ≡ node_entries self.new ++ e ∷ []) }
    {
        let branch = self.branches.pop()?;
        self.last = branch.below;
        Some(branch.entry)
    }
}
