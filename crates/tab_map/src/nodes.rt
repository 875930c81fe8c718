//! How many nodes a map has: what it takes in memory beside its entries.
use crate::{Map, Tree};
use tab_key::Abbreviate;

impl<K: Abbreviate + Drop, V: Drop> Map<K, V> {
    /// The number of the map's nodes, rows among them, counted in O(n / 8): a row that a removal leaves with fewer than 8
    /// of its 32 entries, or a node with fewer than 4 of its 16 branches, is merged with a neighbour that has room for it, and a
    /// split leaves no row but a node's last with fewer.
    pub fn nodes(&self) -> usize {
        match &self.root {
            Tree::Empty => 0,
            Tree::Leaf(_) => 1,
            Tree::Node(node) => {
                let mut nodes = node.last.nodes().saturating_add(1);
                for branch in &node.branches {
                    nodes = nodes.saturating_add(branch.below.nodes());
                }
                nodes
            }
        }
    }
}
