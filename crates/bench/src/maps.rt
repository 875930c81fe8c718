//! Maps and tables compared with the standard map: the same calls, in the same run.

use anyhow::{Result, ensure};
use std::alloc::{AllocError, Global};
use std::collections::BTreeMap;
use std::rt::Clock;
use std::slice;
use std::time::{Duration, Instant};
use tab_index::IndexedTable;
use tab_map::Map;
use tab_model::{Atoms, Change, Kind, Numbers, TableDef};
use tab_rows::{Form, Update};
use tab_term::{Atom, Term, Terms};

/// A store to measure, and whether it changes in place, or into a new version while the old one is kept.
#[derive(Clone, Copy)]
enum Way {
    Numbers,
    Map,
    MapVersions,
    Records,
    Table,
    TableVersions,
}

static ROWS: [(&str, Way); 6] = [
    ("standard map of numbers", Way::Numbers),
    ("map of numbers, in place", Way::Map),
    ("map of numbers, new versions", Way::MapVersions),
    ("standard map of records", Way::Records),
    ("table, in place", Way::Table),
    ("table, new versions", Way::TableVersions),
];

#[derive(Drop)]
enum Store {
    Numbers(BTreeMap<Term, u64>),
    Map(Map<Term, u64>),
    MapVersions(Map<Term, u64>),
    Records(BTreeMap<Term, Term>),
    Table(IndexedTable),
    TableVersions(IndexedTable),
}

/// A key, and the write of its record.
#[derive(Drop)]
struct Put {
    key: Term,
    write: Update,
}

/// The time of a row's calls over all rounds.
#[derive(Clone, Copy, Default)]
struct Times {
    insert: Duration,
    again: Duration,
    look_up: Duration,
}

/// A line for each row. In each round each entry is inserted into an empty store, written again and looked up.
pub fn measure<R: AllocGlobal + Clock>(rt: &R, entries: u32, rounds: u32) -> Result<Vec<String>> {
    let alloc = rt.alloc();
    let puts = puts(alloc, entries)?;
    let calls = (u128::from(entries) * u128::from(rounds)).max(1);
    let mut lines = Vec::new(alloc);
    for (name, way) in &ROWS {
        let mut times = Times::default();
        for _ in 0..rounds {
            round(rt, *way, &puts, &mut times)?;
        }
        let insert = times.insert.as_nanos() / calls;
        let again = times.again.as_nanos() / calls;
        let look_up = times.look_up.as_nanos() / calls;
        lines.push(format!(in alloc;
            "{name}: insert {insert} ns, again {again} ns, look-up {look_up} ns"
        )?)?;
    }
    Ok(lines)
}

/// Writes of the keys below this number in a random order.
fn puts(alloc: Global, entries: u32) -> Result<Vec<Put>> {
    let mut numbers: Vec<u64> = (0..u64::from(entries)).collect(alloc)?;
    numbers.sort_by_cached_key(|number| random(*number))?;
    let mut puts = Vec::new(alloc);
    for number in &numbers {
        puts.push(written(alloc, *number)?)?;
    }
    Ok(puts)
}

/// The number that SplitMix64 (Steele, Lea and Flood, 2014) gives at this place. No two places have the same.
fn random(place: u64) -> u64 {
    let a = place.wrapping_mul(0x9E37_79B9_7F4A_7C15);
    let b = (a ^ (a >> 30)).wrapping_mul(0xBF58_476D_1CE4_E5B9);
    let c = (b ^ (b >> 27)).wrapping_mul(0x94D0_49BB_1331_11EB);
    c ^ (c >> 31)
}

fn written(alloc: Global, number: u64) -> Result<Put, AllocError> {
    Ok(Put {
        write: Update::new(Change::Write(record(alloc, number)?)),
        key: Term::Int(i128::from(number)),
    })
}

fn round<R: AllocGlobal + Clock>(rt: &R, way: Way, puts: &[Put], times: &mut Times) -> Result<()> {
    let mut store = empty(rt.alloc(), way)?;
    timed(rt, &mut store, puts, times)
}

fn timed<R: AllocGlobal + Clock>(
    rt: &R,
    store: &mut Store,
    puts: &[Put],
    times: &mut Times,
) -> Result<()> {
    let start = Instant::now(rt)?;
    put_all(rt.alloc(), store, puts)?;
    let inserted = start.elapsed(rt)?;
    put_all(rt.alloc(), store, puts)?;
    let written = start.elapsed(rt)?;
    let found = puts.iter().filter(|put| has(store, &put.key)).count();
    let looked_up = start.elapsed(rt)?;
    ensure!(found == puts.len(), "an entry is missing");
    times.insert = times.insert.saturating_add(inserted);
    times.again = times.again.saturating_add(written.saturating_sub(inserted));
    times.look_up = times
        .look_up
        .saturating_add(looked_up.saturating_sub(written));
    Ok(())
}

fn put_all(alloc: Global, store: &mut Store, puts: &[Put]) -> Result<(), AllocError> {
    for put in puts {
        put_one(alloc, store, put)?;
    }
    Ok(())
}

fn empty(alloc: Global, way: Way) -> Result<Store, AllocError> {
    Ok(match way {
        Way::Numbers => Store::Numbers(BTreeMap::new(alloc)),
        Way::Map => Store::Map(Map::new()),
        Way::MapVersions => Store::MapVersions(Map::new()),
        Way::Records => Store::Records(BTreeMap::new(alloc)),
        Way::Table => Store::Table(table(alloc)?),
        Way::TableVersions => Store::TableVersions(table(alloc)?),
    })
}

fn table(alloc: Global) -> Result<IndexedTable, AllocError> {
    let def = TableDef {
        name: Atom::from_short_text(alloc, "t")?,
        kind: Kind::Set,
        attributes: Atoms {
            items: Vec::new(alloc),
        },
        indexes: Numbers {
            items: Vec::new(alloc),
        },
    };
    IndexedTable::new(alloc, def)
}

fn put_one(alloc: Global, store: &mut Store, put: &Put) -> Result<(), AllocError> {
    match store {
        Store::Numbers(map) => {
            map.insert(put.key.try_clone(alloc)?, 1)?;
        }
        Store::Map(map) => map.insert(alloc, put.key.try_clone(alloc)?, 1)?,
        Store::MapVersions(map) => *map = map.inserted(alloc, put.key.try_clone(alloc)?, 1)?,
        Store::Records(map) => {
            if let Form::Change(Change::Write(record)) = put.write.form() {
                map.insert(put.key.try_clone(alloc)?, record.try_clone(alloc)?)?;
            }
        }
        Store::Table(table) => table.change(alloc, &put.write, None)?,
        Store::TableVersions(table) => *table = table.updated(
            alloc,
            slice::from_ref(&put.write),
            None,
        )?,
    }
    Ok(())
}

fn has(store: &Store, key: &Term) -> bool {
    match store {
        Store::Numbers(map) => map.get(key).is_some(),
        Store::Map(map) | Store::MapVersions(map) => map.get(key).is_some(),
        Store::Records(map) => map.get(key).is_some(),
        Store::Table(table) | Store::TableVersions(table) => table.at(key).next().is_some(),
    }
}

/// `{t, Key, Key}`.
fn record(alloc: Global, key: u64) -> Result<Term, AllocError> {
    let mut elements = Vec::with_capacity(alloc, 3)?;
    elements.push(Term::Atom(Atom::from_short_text(alloc, "t")?))?;
    elements.push(Term::Int(i128::from(key)))?;
    elements.push(Term::Int(i128::from(key)))?;
    Ok(Term::Tuple(Terms::from_vec(elements)))
}
