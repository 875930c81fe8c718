//! Changes in place: a node that no other map shares is written, and one that is shared is copied first. Entries are
//! put in here; `removal` takes them out.
ghost use Rattle.std.specs.Prelude.{◌≤◌, length, ◌≡◌, IfOk, OnOk, OnErr};
ghost use Rattle.std.specs.Option.{option_map};
ghost use Rattle.tab_map.specs.Entries.{Ascends, insert_entry, lookup, remove_entry};
ghost use Rattle.tab_map.specs.InOrder.{node_entries};

use crate::entry::{Entry, Sought};
use crate::{Map, Node, Tree, branches, row};
use std::alloc::{AllocError, Global};
use std::mem;
use std::sync::Arc;
use tab_key::Abbreviate;

impl<K: Abbreviate + Drop, V: Drop> Map<K, V> {
    /// Puts this value at the key: in place of the value there, or as a new entry. Maps that share nodes with this
    /// one keep their entries.
    pub fn insert(&mut self, alloc: Global, key: K, value: V) -> Result<(), AllocError>
        ensures ok { OnOk result (self.new ≡ insert_entry K.cmp (key, value) self.old) }
        ensures err { OnErr result (self.new ≡ self.old) }
    {
        self.insert_entry(alloc, Entry::new(alloc, (key, value))?)
    }

    /// Puts this entry, which another map may hold too, in place of the entry at its key, or as a new one.
    pub fn insert_entry(&mut self, alloc: Global, entry: Entry<K, V>) -> Result<(), AllocError>
        ensures ok { OnOk result (self.new ≡ insert_entry K.cmp entry self.old) }
        ensures err { OnErr result (self.new ≡ self.old) }
    {
        self.replace_entry(alloc, entry)?;
        Ok(())
    }

    /// Puts this entry as `insert_entry` does, and hands back the one that stood at its key.
    pub fn replace_entry(
        &mut self,
        alloc: Global,
        entry: Entry<K, V>,
    ) -> Result<Option<Entry<K, V>>, AllocError>
        ensures ok { OnOk result (self.new ≡ insert_entry K.cmp entry self.old) }
        ensures replaced { IfOk result
            (λ o. option_map (λ e. e.1) o ≡ lookup K.cmp entry.0 self.old) }
        ensures err { OnErr result (self.new ≡ self.old) }
    {
        let replaced = self.put(alloc, entry)?;
        // The root may be too long then.
        self.grow(alloc);
        Ok(replaced)
    }

    /// Takes the entry at the key out. It allocates where it copies a shared node.
    pub fn remove(&mut self, alloc: Global, key: &K) -> Result<(), AllocError>
        ensures ok { OnOk result (self.new ≡ remove_entry K.cmp key.now self.old) }
        ensures err { OnErr result (self.new ≡ self.old) }
    {
        self.take(alloc, &Sought::new(key))
    }

    #[cycle(put)]
    fn put(&mut self, alloc: Global, entry: Entry<K, V>) -> Result<Option<Entry<K, V>>, AllocError>
        ensures ok { OnOk result (self.new ≡ insert_entry K.cmp entry self.old) }
        ensures replaced { IfOk result
            (λ o. option_map (λ e. e.1) o ≡ lookup K.cmp entry.0 self.old) }
        ensures err { OnErr result (self.new ≡ self.old) }
    {
        match &mut self.root {
            Tree::Empty => {
                let mut items = Vec::new(alloc);
                items.push(entry)?;
                self.root = Tree::Leaf(Arc::new(alloc, items)?);
                Ok(None)
            }
            Tree::Leaf(items) => {
                let replaced = Map::put_in_row(alloc, items, entry)?;
                Ok(replaced)
            }
            Tree::Node(node) => {
                Map::own(alloc, node)?;
                let Some(node) = Arc::get_mut(node) else {
                    return Err(AllocError);
                };
                let replaced = Map::put_under(alloc, node, entry)?;
                Ok(replaced)
            }
        }
    }

    #[cycle(put)]
    fn put_under(
        alloc: Global,
        node: &mut Node<K, V>,
        entry: Entry<K, V>,
    ) -> Result<Option<Entry<K, V>>, AllocError>
        requires { Ascends K.cmp (node_entries node.old) }
        ensures ok { OnOk result
            (node_entries node.new ≡ insert_entry K.cmp entry (node_entries node.old)) }
        ensures replaced { IfOk result
            (λ o. option_map (λ e. e.1) o ≡ lookup K.cmp entry.0 (node_entries node.old)) }
        ensures err { OnErr result (node_entries node.new ≡ node_entries node.old) }
        ensures kept { length node.old.branches.items ≤ length node.new.branches.items }
    {
        let found = branches::place(&node.branches, &entry.sought());
        match found {
            Ok(n) => Ok(Some(mem::replace(&mut node.branches[n].entry, entry))),
            Err(n) => match node.branches.get_mut(n) {
                Some(branch) => {
                    let replaced = branch.below.put(alloc, entry)?;
                    node.split(alloc, n);
                    Ok(replaced)
                }
                None => {
                    let replaced = node.last.put(alloc, entry)?;
                    node.split(alloc, n);
                    Ok(replaced)
                }
            },
        }
    }

    fn put_in_row(
        alloc: Global,
        items: &mut Arc<Vec<Entry<K, V>>, Global>,
        entry: Entry<K, V>,
    ) -> Result<Option<Entry<K, V>>, AllocError>
        requires { Ascends K.cmp items.old.value.items }
        ensures ok { OnOk result
            (items.new.value.items ≡ insert_entry K.cmp entry items.old.value.items) }
        ensures replaced { IfOk result
            (λ o. option_map (λ e. e.1) o ≡ lookup K.cmp entry.0 items.old.value.items) }
        ensures err { OnErr result (items.new.value.items ≡ items.old.value.items) }
    {
        Map::own_items(alloc, items)?;
        match Arc::get_mut(items) {
            Some(items) => row::put(items, entry),
            None => Err(AllocError),
        }
    }

    pub(crate) fn own_items(
        alloc: Global,
        items: &mut Arc<Vec<Entry<K, V>>, Global>,
    ) -> Result<(), AllocError>
        ensures { items.new.value.items ≡ items.old.value.items }
    {
        if Arc::strong_count(items) == 1 {
            return Ok(());
        }
        let copies = row::copied(alloc, items.as_slice())?;
        *items = Arc::new(alloc, copies)?;
        Ok(())
    }

    // The same node, copied where it is shared.
    pub(crate) fn own(alloc: Global, node: &mut Arc<Node<K, V>, Global>) -> Result<(), AllocError>
        ensures branches { node.new.value.branches.items ≡ node.old.value.branches.items }
        ensures last { node.new.value.last ≡ node.old.value.last }
    {
        if Arc::strong_count(node) == 1 {
            return Ok(());
        }
        let copy = Node {
            branches: branches::copied(alloc, &node.branches)?,
            last: node.last.share()?,
        };
        *node = Arc::new(alloc, copy)?;
        Ok(())
    }
}
