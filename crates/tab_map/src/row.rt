//! Up to a few dozen entries in a row, which the leaves of a tree hold.
ghost use Rattle.std.specs.Prelude.{◌≡◌, ◌≤◌, ◌<◌, IfOk, IfErr, OnOk, OnErr, length};
ghost use Rattle.std.specs.Option.{option_copied, option_map};
ghost use Rattle.std.specs.Ordering.{ordering_reverse};
ghost use Rattle.tab_map.specs.Entries.{Ascends, lookup, insert_entry, remove_entry, entries_above};
ghost use Rattle.tab_map.specs.Ahead.{AreAhead};
ghost use Rattle.tab_map.specs.Places.{HasAt, IsGap};
ghost use Rattle.tab_map.specs.Revised.{revised_at};

use crate::ahead::Ahead;
use crate::entry::{Entry, Sought};
use crate::revision::Revise;
use std::alloc::{AllocError, Global};
use std::cmp::Ordering;
use std::mem;
use tab_key::Abbreviate;

/// The most entries in a row. A search in it touches few lines of memory, and a copy of it is short.
pub const FULL: usize = 32;

// The place of the entry at the key, or where one belongs.
fn place<K: Abbreviate + Drop, V: Drop>(
    items: &[Entry<K, V>],
    sought: &Sought<K>,
) -> Result<usize, usize>
    requires { Ascends K.cmp items.now }
    ensures found { IfOk result (λ n. HasAt K.cmp sought.now items.now n) }
    ensures found_in_row { IfOk result (λ n. n < length items.now) }
    ensures gap { IfErr result (λ n. IsGap K.cmp sought.now items.now n) }
    ensures gap_in_row { IfErr result (λ n. n ≤ length items.now) }
{
    items.binary_search_by(
        |entry: &Entry<K, V>| -> Ordering
            ensures { result ≡ ordering_reverse (K.cmp sought.entry.now entry.now.0) }
        { sought.order(entry).reverse() },
    )
}

/// The entry at the key.
pub fn get<'a, K: Abbreviate + Drop, V: Drop>(
    items: &'a [Entry<K, V>],
    sought: &Sought<K>,
) -> Option<&'a Entry<K, V>>
    requires { Ascends K.cmp items.now }
    ensures { option_map (λ e. e.1) (option_copied result) ≡ lookup K.cmp sought.now items.now }
{
    match place(items, sought) {
        Ok(n) => Some(&items[n]),
        Err(_) => None,
    }
}

/// The entries above the key.
pub fn next_above<'a, K: Abbreviate + Drop, V: Drop>(
    items: &'a [Entry<K, V>],
    sought: &Sought<K>,
) -> Ahead<'a, K, V>
    requires { Ascends K.cmp items.now }
    ensures { AreAhead result (entries_above K.cmp sought.now items.now) }
{
    match place(items, sought) {
        Ok(n) => Ahead::in_row(&items[n + 1..]),
        Err(n) => Ahead::in_row(&items[n..]),
    }
}

/// Puts an entry at its place; what stood there is given back.
pub fn put<K: Abbreviate + Drop, V: Drop>(
    items: &mut Vec<Entry<K, V>>,
    entry: Entry<K, V>,
) -> Result<Option<Entry<K, V>>, AllocError>
    requires { Ascends K.cmp items.old.items }
    ensures ok { OnOk result (items.new.items ≡ insert_entry K.cmp entry items.old.items) }
    ensures replaced { IfOk result
        (λ o. option_map (λ e. e.1) o ≡ lookup K.cmp entry.0 items.old.items) }
    ensures err { OnErr result (items.new.items ≡ items.old.items) }
{
    let found = place(items, &entry.sought());
    match found {
        Ok(n) => Ok(Some(mem::replace(&mut items[n], entry))),
        Err(n) => {
            items.insert(n, entry)?;
            Ok(None)
        }
    }
}

/// Revises the value at the key, where one is.
pub fn revise<K: Abbreviate + Drop, V: Drop, R: Revise<V> + Drop>(
    alloc: Global,
    items: &mut Vec<Entry<K, V>>,
    key: K,
    revision: R,
) -> Result<(), AllocError>
    requires { Ascends K.cmp items.old.items }
    ensures ok { OnOk result
        (items.new.items ≡ revised_at K.cmp (R.becomes revision) key items.old.items) }
    ensures err { OnErr result (items.new.items ≡ items.old.items) }
{
    let found = place(items, &Sought::new(&key));
    match found {
        Ok(n) => items[n].revise(alloc, key, revision)?,
        Err(_) => return Ok(()),
    }
    Ok(())
}

/// Takes away the entry at the key, where one is.
pub fn take<K: Abbreviate + Drop, V: Drop>(items: &mut Vec<Entry<K, V>>, sought: &Sought<K>)
    requires { Ascends K.cmp items.old.items }
    ensures { items.new.items ≡ remove_entry K.cmp sought.now items.old.items }
{
    match place(items, sought) {
        Ok(n) => drop(items.remove(n)),
        Err(_) => (),
    }
}

/// A row with the same entries, which are shared, and room for one more.
pub fn copied<K: Abbreviate + Drop, V: Drop>(
    alloc: Global,
    items: &[Entry<K, V>],
) -> Result<Vec<Entry<K, V>>, AllocError>
    ensures { IfOk result (λ copies. copies.items ≡ items.now) }
{
    let mut copies = Vec::with_capacity(alloc, items.len().saturating_add(1))?;
    for item in items {
        copies.push(item.try_clone()?)?;
    }
    Ok(copies)
}

/// A row of these pairs, in their order.
pub fn of_pairs<K: Abbreviate + Drop, V: Drop>(
    alloc: Global,
    pairs: Vec<(K, V)>,
) -> Result<Vec<Entry<K, V>>, AllocError>
    ensures { IfOk result (λ items. items.items ≡ pairs.items) }
{
    let mut items = Vec::with_capacity(alloc, pairs.len())?;
    for pair in pairs {
        items.push(Entry::new(alloc, pair)?)?;
    }
    Ok(items)
}
