//! Tests of tab_map's public calls, for what no contract says: that calls succeed, that each step of a large map is short, and
//! that maps do as std's.

use std::alloc::{AllocError, Global};
use std::collections::BTreeMap;
use tab_map::{Map, Set};

/// A number that no other n below 2^32 gives, in no order.
fn scattered(n: u32) -> u32 {
    n.wrapping_mul(0x9e37_79b1)
}

/// A map after 3,000 inserts and removals at 200 keys, in place.
fn changed_in_place(alloc: Global) -> Result<Map<u32, u32>, AllocError> {
    let mut map = Map::new();
    for n in 0..3000u32 {
        let key = scattered(n) % 200;
        if n % 3 == 2 {
            map.remove(alloc, &key)?;
        } else {
            map.insert(alloc, key, n)?;
        }
    }
    Ok(map)
}

/// The map after one more of these changes, as a new map.
fn changed(alloc: Global, map: &Map<u32, u32>, n: u32) -> Result<Map<u32, u32>, AllocError> {
    let key = scattered(n) % 200;
    if n % 3 == 2 {
        map.removed(alloc, &key)
    } else {
        map.inserted(alloc, key, n)
    }
}

/// The same map, of which each change made a new one.
fn changed_by_copies(alloc: Global) -> Result<Map<u32, u32>, AllocError> {
    let mut map = Map::new();
    for n in 0..3000u32 {
        map = changed(alloc, &map, n)?;
    }
    Ok(map)
}

/// The standard map after the same changes.
fn std_changed(alloc: Global) -> Result<BTreeMap<u32, u32>, AllocError> {
    let mut map = BTreeMap::new(alloc);
    for n in 0..3000u32 {
        let key = scattered(n) % 200;
        if n % 3 == 2 {
            map.remove(&key);
        } else {
            map.insert(key, n)?;
        }
    }
    Ok(map)
}

fn is_same(map: &Map<u32, u32>, std_map: &BTreeMap<u32, u32>) -> bool {
    let mut entries = map.iter();
    for (key, value) in std_map {
        let entry = (*key, *value);
        if entries.next().map(|entry| entry.pair()) != Some(&entry) || map.get(key) != Some(value) {
            return false;
        }
    }
    entries.next().is_none()
}

fn is_as_std(alloc: Global, map: Result<Map<u32, u32>, AllocError>) -> Result<bool, AllocError> {
    let map = map?;
    let std_map = std_changed(alloc)?;
    Ok(is_same(&map, &std_map))
}

#[test]
fn does_as_std(rt: HostRuntime) {
    let alloc = rt.alloc();
    let in_place = is_as_std(alloc, changed_in_place(alloc));
    let by_copies = is_as_std(alloc, changed_by_copies(alloc));
    assert!(rt; in_place == Ok(true) && by_copies == Ok(true));
}

/// A key, and its value in a map of 10, 20, 30 and 40 in tens, each with its number, and of 25.
static HELD: [(u32, Option<u32>); 6] = [
    (5, None),
    (10, Some(1)),
    (25, Some(5)),
    (30, Some(3)),
    (40, Some(4)),
    (41, None),
];

/// The map of 10, 20, 30, 40 and 25.
fn of_tens(alloc: Global) -> Result<Map<u32, u32>, AllocError> {
    let entries = [(10u32, 1u32), (20, 2), (30, 3), (40, 4)].to_vec(alloc)?;
    let mut map = Map::from_sorted(alloc, entries)?;
    map.insert(alloc, 25, 5)?;
    Ok(map)
}

/// The first key with another value.
fn differs(map: &Map<u32, u32>) -> Option<u32> {
    for (key, value) in &HELD {
        if map.get(key) != value.as_ref() {
            return Some(*key);
        }
    }
    None
}

#[test]
fn is_made_of_sorted_entries(rt: HostRuntime) {
    let differs = of_tens(rt.alloc()).map(|map| differs(&map));
    assert!(rt; differs == Ok(None));
}

/// A set with 3 in place of 1.
fn set_changed(alloc: Global, set: &Set<u32>) -> Result<Set<u32>, AllocError> {
    let mut changed = set.share()?;
    changed.insert(alloc, 3)?;
    changed.remove(alloc, &1)?;
    Ok(changed)
}

/// The set of 1 and 2.
fn two_keys(alloc: Global) -> Result<Set<u32>, AllocError> {
    let set = Set::new().inserted(alloc, 2)?;
    set.inserted(alloc, 1)
}

/// Returns whether the set gives these keys, in this order.
fn gives(set: &Set<u32>, keys: &[u32]) -> bool {
    let mut given = set.iter();
    for key in keys {
        if given.next() != Some(key) {
            return false;
        }
    }
    given.next().is_none()
}

/// Returns whether the set has these of the keys from 1 to 3, in this order.
fn has(set: &Set<u32>, keys: &[u32]) -> bool {
    for key in 1..4u32 {
        if set.contains(&key) != keys.contains(&key) {
            return false;
        }
    }
    gives(set, keys)
}

fn sets_are_right(alloc: Global) -> Result<bool, AllocError> {
    let two = two_keys(alloc)?;
    let changed = set_changed(alloc, &two)?;
    let one = two.removed(alloc, &1)?;
    Ok(has(&one, &[2]) && has(&two, &[1, 2]) && has(&changed, &[2, 3]))
}

#[test]
fn sets(rt: HostRuntime) {
    assert!(rt; sets_are_right(rt.alloc()) == Ok(true));
}

/// A set of one key, shared, and made empty, and made a set of two, which is shared too.
fn small_sets_are_right(alloc: Global) -> Result<bool, AllocError> {
    let mut set = Set::new();
    set.insert(alloc, 2)?;
    set.insert(alloc, 2)?;
    let mut one = set.share()?;
    let none = one.removed(alloc, &2)?;
    one.remove(alloc, &1)?;
    set.insert(alloc, 1)?;
    let two = set.share()?;
    set.remove(alloc, &2)?;
    let apart = has(&one, &[2]) && has(&two, &[1, 2]) && has(&set, &[1]);
    Ok(apart && has(&none, &[]) && none.is_empty() && !one.is_empty())
}

#[test]
fn small_sets(rt: HostRuntime) {
    assert!(rt; small_sets_are_right(rt.alloc()) == Ok(true));
}

/// Rising, falling, from both ends, and mixed.
fn ordered(order: u32, n: u32) -> u32 {
    match order {
        0 => n,
        1 => u32::MAX - n,
        2 if n % 2 == 0 => n,
        2 => u32::MAX - n,
        _ => scattered(n),
    }
}

// Of a thousand entries: rows of 8 entries each, a quarter of the nodes above them for every four, and the root.
const NODES_OF_A_THOUSAND: usize = 125 * 4 / 3 + 2;

/// A map of 100,000 keys in this order; every second step makes a new map from the old one, so it copies the nodes that it
/// changes.
fn filled(alloc: Global, order: u32) -> Result<Map<u32, ()>, AllocError> {
    let mut map = Map::new();
    for n in 0..100_000u32 {
        map.insert(alloc, ordered(order, n), ())?;
        map = map.inserted(alloc, ordered(order, n), ())?;
    }
    Ok(map)
}

/// The map without the first 99,000 of the keys.
fn emptied(alloc: Global, map: &Map<u32, ()>, order: u32) -> Result<Map<u32, ()>, AllocError> {
    let mut map = map.share()?;
    for n in 0..99_000u32 {
        map = map.removed(alloc, &ordered(order, n))?;
        map.remove(alloc, &ordered(order, n ^ 1))?;
    }
    Ok(map)
}

fn is_short(alloc: Global, order: u32) -> Result<bool, AllocError> {
    let full = filled(alloc, order)?;
    let map = emptied(alloc, &full, order)?;
    let kept = full.contains_key(&ordered(order, 0));
    Ok(kept && map.nodes() < NODES_OF_A_THOUSAND && !map.is_empty())
}

/// If a way to an entry or a copied node were long, this would exceed its time limit many times over.
#[test]
fn steps_of_large_maps_are_short(rt: HostRuntime) {
    for order in 0..4u32 {
        assert!(rt; is_short(rt.alloc(), order) == Ok(true), "order {order}");
    }
}

fn rising(alloc: Global, count: u32) -> Result<Map<u32, ()>, AllocError> {
    let mut map = Map::new();
    for n in 0..count {
        map.insert(alloc, n, ())?;
    }
    Ok(map)
}

// Of 29,000 entries whose keys came in order: rows of 28 entries each, with one between two, and nodes of 8 branches.
const NODES_OF_RISING_KEYS: usize = 1_000 * 8 / 7;

/// Inserts a key, removes it and inserts it again. Returns whether the removal left as many nodes.
fn keeps_nodes(alloc: Global, map: &mut Map<u32, ()>, key: u32) -> Result<bool, AllocError> {
    map.insert(alloc, key, ())?;
    let nodes = map.nodes();
    map.remove(alloc, &key)?;
    let kept = map.nodes() == nodes;
    map.insert(alloc, key, ())?;
    Ok(kept)
}

fn rising_fill(alloc: Global) -> Result<bool, AllocError> {
    let mut map = rising(alloc, 29_000)?;
    let mut right = map.nodes() < NODES_OF_RISING_KEYS;
    for key in 29_000..29_100u32 {
        right &= keeps_nodes(alloc, &mut map, key)?;
    }
    Ok(right)
}

/// Keys that come in order leave rows that are nearly full, and an insert and a removal in turn neither split nor
/// merge.
#[test]
fn rising_keys_fill_rows(rt: HostRuntime) {
    assert!(rt; rising_fill(rt.alloc()) == Ok(true));
}

fn has_a_million(alloc: Global) -> Result<bool, AllocError> {
    let map = rising(alloc, 1_000_000)?;
    Ok(map.contains_key(&999_999) && !map.contains_key(&1_000_000))
}

#[test]
fn drops_a_million(rt: HostRuntime) {
    assert!(rt; has_a_million(rt.alloc()) == Ok(true));
}
