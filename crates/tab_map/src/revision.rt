//! A value that is changed where it stands.
ghost use Rattle.std.specs.Prelude.{◌≡◌, ◌≤◌, IfOk, OnOk, OnErr, length};
ghost use Rattle.tab_map.specs.Entries.{Ascends, lookup};
ghost use Rattle.tab_map.specs.InOrder.{node_entries};
ghost use Rattle.tab_map.specs.Revised.{revised_at};

use crate::entry::{Entry, Sought};
use crate::{Map, Node, Tree, branches, row};
use std::alloc::{AllocError, Global};
use std::sync::Arc;
use tab_key::Abbreviate;

/// What becomes of a value of a map.
pub trait Revise<V> {
    ghost becomes: { Self → V → V };

    /// Makes it so in place, where no other map holds the value.
    fn revise(self, alloc: Global, value: &mut V) -> Result<(), AllocError>
        ensures ok { OnOk result (value.new ≡ becomes self value.old) }
        ensures err { OnErr result (value.new ≡ value.old) };

    /// What the value becomes, as a new one, where another map holds the old one too.
    fn revised(self, alloc: Global, value: &V) -> Result<V, AllocError>
        ensures { IfOk result (λ new. new ≡ becomes self value.now) };
}

impl<K: Abbreviate + Drop, V: Drop> Map<K, V> {
    /// Revises the value at the key, in place where no other map holds it. Where none stands there, nothing changes.
    #[cycle(revise)]
    pub fn revise<R: Revise<V> + Drop>(
        &mut self,
        alloc: Global,
        key: K,
        revision: R,
    ) -> Result<(), AllocError>
        ensures ok { OnOk result (self.new ≡ revised_at K.cmp (R.becomes revision) key self.old) }
        ensures err { OnErr result (self.new ≡ self.old) }
    {
        match &mut self.root {
            Tree::Empty => return Ok(()),
            Tree::Leaf(items) => Map::revise_in_row(alloc, items, key, revision)?,
            Tree::Node(node) => {
                Map::own(alloc, node)?;
                let Some(node) = Arc::get_mut(node) else {
                    return Err(AllocError);
                };
                Map::revise_under(alloc, node, key, revision)?;
            }
        }
        Ok(())
    }

    #[cycle(revise)]
    fn revise_under<R: Revise<V> + Drop>(
        alloc: Global,
        node: &mut Node<K, V>,
        key: K,
        revision: R,
    ) -> Result<(), AllocError>
        requires { Ascends K.cmp (node_entries node.old) }
        ensures ok { OnOk result
            (node_entries node.new
            ≡ revised_at K.cmp (R.becomes revision) key (node_entries node.old)) }
        ensures err { OnErr result (node_entries node.new ≡ node_entries node.old) }
        ensures kept { length node.old.branches.items ≤ length node.new.branches.items }
    {
        let found = branches::place(&node.branches, &Sought::new(&key));
        match found {
            Ok(n) => node.branches[n].entry.revise(alloc, key, revision)?,
            Err(n) => match node.branches.get_mut(n) {
                Some(branch) => branch.below.revise(alloc, key, revision)?,
                None => node.last.revise(alloc, key, revision)?,
            },
        }
        Ok(())
    }

    fn revise_in_row<R: Revise<V> + Drop>(
        alloc: Global,
        items: &mut Arc<Vec<Entry<K, V>>, Global>,
        key: K,
        revision: R,
    ) -> Result<(), AllocError>
        requires { Ascends K.cmp items.old.value.items }
        ensures ok { OnOk result
            (items.new.value.items
            ≡ revised_at K.cmp (R.becomes revision) key items.old.value.items) }
        ensures err { OnErr result (items.new.value.items ≡ items.old.value.items) }
    {
        Map::own_items(alloc, items)?;
        match Arc::get_mut(items) {
            Some(items) => row::revise(alloc, items, key, revision),
            None => Err(AllocError),
        }
    }
}
