//! The branches of a node: where a key belongs among them, and copies of them.
ghost use Rattle.std.specs.Prelude.{◌≡◌, ◌<◌, ◌≤◌, IfOk, IfErr, length};
ghost use Rattle.std.specs.Ordering.{ordering_reverse};
ghost use Rattle.tab_map.specs.Entries.{Ascends};
ghost use Rattle.tab_map.specs.InOrder.{separators};
ghost use Rattle.tab_map.specs.Places.{HasAt, IsGap};

use crate::Branch;
use crate::entry::{Entry, Sought};
use std::alloc::{AllocError, Global};
use std::cmp::Ordering;
use tab_key::Abbreviate;

/// The most branches in a node. More make a search shorter, and a copy longer.
pub const FULL: usize = 16;

/// The place of the branch whose entry has the key, or of the child to which the key belongs: the one below the branch
/// at that place, or the last where there is none.
pub fn place<K: Abbreviate + Drop, V: Drop>(
    branches: &[Branch<K, V>],
    sought: &Sought<K>,
) -> Result<usize, usize>
    ensures found { IfOk result (λ n. HasAt K.cmp sought.now (separators branches.now) n) }
    ensures found_in_node { IfOk result (λ n. n < length branches.now) }
    ensures child { IfErr result
        (λ n. Ascends K.cmp (separators branches.now)
        → IsGap K.cmp sought.now (separators branches.now) n) }
    ensures child_in_node { IfErr result (λ n. n ≤ length branches.now) }
{
    branches.binary_search_by(
        |branch: &Branch<K, V>| -> Ordering
            ensures { result ≡ ordering_reverse (K.cmp sought.entry.now branch.now.entry.0) }
        { sought.order(&branch.entry).reverse() },
    )
}

impl<K: Abbreviate + Drop, V: Drop> Branch<K, V> {
    /// The same branch, whose child two maps have then. It copies the abbreviation and raises a count.
    pub fn share(&self) -> Result<Branch<K, V>, AllocError>
        ensures { IfOk result (λ b. b ≡ self.now) }
    {
        Ok(Branch {
            below: self.below.share()?,
            entry: self.entry.try_clone()?,
        })
    }
}

/// The branches again, with room for one more.
pub fn copied<K: Abbreviate + Drop, V: Drop>(
    alloc: Global,
    branches: &[Branch<K, V>],
) -> Result<Vec<Branch<K, V>>, AllocError>
    ensures { IfOk result (λ copies. copies.items ≡ branches.now) }
{
    let mut copies = Vec::with_capacity(alloc, branches.len().saturating_add(1))?;
    for branch in branches {
        copies.push(branch.share()?)?;
    }
    Ok(copies)
}
