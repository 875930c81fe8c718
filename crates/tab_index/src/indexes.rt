//! Lists of indexes, one for each position.

ghost use Rattle.std.specs.Prelude.{◌≡◌, [], IfOk, IfSome, is_some, MatchOption};
ghost use Rattle.std.specs.Option.{option_copied};
ghost use Rattle.tab_model.specs.Definitions.{add_number, has_number, less_number};
ghost use Rattle.tab_model.specs.Tables.{Rows as RowsOf};
ghost use Rattle.tab_index.specs.IndexOf.{IsIndexOf};
ghost use Rattle.tab_index.specs.Indexed.{positions, AreIndexesOf, IsPlace};

use crate::index::Index;
use std::alloc::{AllocError, Global};
use tab_model::Numbers;
use tab_rows::Rows;

/// An index without a record for each of these positions.
pub fn empty_indexes(alloc: Global, numbers: &Numbers) -> Result<Vec<Index>, AllocError>
    ensures positions { IfOk result (λ indexes. positions indexes.items ≡ numbers.now) }
    ensures indexes { IfOk result (λ indexes. AreIndexesOf [] indexes.items) }
{
    let mut indexes = Vec::with_capacity(alloc, numbers.items.len())?;
    for position in &numbers.items {
        indexes.push(Index::new(*position))?;
    }
    Ok(indexes)
}

/// An index of these records for each of these positions, each in one sort.
pub fn indexes_of(alloc: Global, numbers: &Numbers, rows: &Rows) -> Result<Vec<Index>, AllocError>
    ensures positions { IfOk result (λ indexes. positions indexes.items ≡ numbers.now) }
    ensures indexes { IfOk result (λ indexes. AreIndexesOf rows.now.1 indexes.items) }
{
    let mut indexes = Vec::with_capacity(alloc, numbers.items.len())?;
    for position in &numbers.items {
        indexes.push(Index::of(alloc, *position, rows)?)?;
    }
    Ok(indexes)
}

/// The same indexes, each in constant time.
pub fn shared_indexes(alloc: Global, indexes: &[Index]) -> Result<Vec<Index>, AllocError>
    ensures { IfOk result (λ same. same.items ≡ indexes.now) }
{
    let mut same = Vec::with_capacity(alloc, indexes.len())?;
    for index in indexes {
        same.push(index.share()?)?;
    }
    Ok(same)
}

/// Returns the index at which a new position belongs. None if the position is there.
pub fn new_place(indexes: &[Index], position: u64) -> Option<usize>
    ensures { MatchOption result
        (add_number position (positions indexes.now) ≡ positions indexes.now)
        (λ n. IsPlace indexes.now position n) }
{
    for (n, index) in indexes.iter().enumerate() {
        if index.position == position {
            return None;
        }
        if position < index.position {
            return Some(n);
        }
    }
    Some(indexes.len())
}

/// The index at the position.
pub fn index_at(indexes: &[Index], position: u64) -> Option<&Index>
    ensures found { is_some result ≡ has_number (positions indexes.now) position }
    ensures index { IfSome (option_copied result)
        (λ index. (rows : RowsOf) → AreIndexesOf rows indexes.now
        → IsIndexOf rows position index.keys) }
{
    for index in indexes {
        if index.position == position {
            return Some(index);
        }
    }
    None
}

/// The indexes that aren't at the position, which share all with these.
pub fn other_indexes(
    alloc: Global,
    indexes: &[Index],
    position: u64,
) -> Result<Vec<Index>, AllocError>
    ensures positions { IfOk result
        (λ others. positions others.items ≡ less_number position (positions indexes.now)) }
    ensures indexes { IfOk result
        (λ others. (rows : RowsOf) → AreIndexesOf rows indexes.now
        → AreIndexesOf rows others.items) }
{
    let mut others = Vec::with_capacity(alloc, indexes.len())?;
    for index in indexes {
        if index.position == position {
            continue;
        }
        others.push(index.share()?)?;
    }
    Ok(others)
}

/// The positions that have an index, in their order.
pub fn positions_of(alloc: Global, indexes: &[Index]) -> Result<Vec<u64>, AllocError>
    ensures { IfOk result (λ numbers. numbers.items ≡ positions indexes.now) }
{
    let mut numbers = Vec::with_capacity(alloc, indexes.len())?;
    for index in indexes {
        numbers.push(index.position)?;
    }
    Ok(numbers)
}
