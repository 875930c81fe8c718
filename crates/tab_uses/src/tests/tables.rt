//! A set of `{t,2,b}`, `{t,1,a}` and `{t,3,a}`, written in this order, with an index on its values.

use crate::{first_match, first_with, keys_after};
use std::alloc::{AllocError, Global};
use std::test::Fail;
use tab_etf::decode;
use tab_index::IndexedTable;
use tab_model::{Atoms, Change, Kind, Numbers, TableDef};
use tab_rows::Update;
use tab_term::{Atom, Term};

const ROW_2: &[u8] = b"\x83h\x03w\x01ta\x02w\x01b";

const ROW_1: &[u8] = b"\x83h\x03w\x01ta\x01w\x01a";

static ROWS: [&[u8]; 3] = [ROW_2, ROW_1, b"\x83h\x03w\x01ta\x03w\x01a"];

/// `{t,'_',a}`, `{t,2,'_'}` and `{t,9,'_'}`, and the row that is the first to fit each.
static PATTERNS: [(&[u8], Option<&[u8]>); 3] = [
    (b"\x83h\x03w\x01tw\x01_w\x01a", Some(ROW_1)),
    (b"\x83h\x03w\x01ta\x02w\x01_", Some(ROW_2)),
    (b"\x83h\x03w\x01ta\x09w\x01_", None),
];

fn term(alloc: Global, payload: &[u8]) -> Result<Term, Fail> {
    Ok(decode(alloc, payload).map_err(|_| "a term")?)
}

fn writes(alloc: Global) -> Result<Vec<Change>, Fail> {
    let mut changes = Vec::new(alloc);
    for payload in &ROWS {
        changes.push(Change::Write(term(alloc, payload)?))?;
    }
    Ok(changes)
}

fn def(alloc: Global) -> Result<TableDef, AllocError> {
    let indexes = Vec::from_slice(alloc, &[3])?;
    Ok(TableDef {
        name: Atom::from_short_text(alloc, "t")?,
        kind: Kind::Set,
        attributes: Atoms {
            items: Vec::new(alloc),
        },
        indexes: Numbers { items: indexes },
    })
}

fn updates(alloc: Global) -> Result<Vec<Update>, Fail> {
    let mut updates = Vec::new(alloc);
    for payload in &ROWS {
        updates.push(Update::new(Change::Write(term(alloc, payload)?)))?;
    }
    Ok(updates)
}

fn table(alloc: Global) -> Result<IndexedTable, Fail> {
    let updates = updates(alloc)?;
    let table = IndexedTable::new(alloc, def(alloc)?)?;
    Ok(table.updated(alloc, &updates, None)?)
}

fn is_number(found: Option<&Term>, number: i128) -> bool {
    match found {
        Some(Term::Int(key)) => *key == number,
        _ => false,
    }
}

fn are_ascending(alloc: Global) -> Result<bool, Fail> {
    let found = keys_after(alloc, Kind::Set, &writes(alloc)?)?;
    let mut keys = found.iter();
    let right = is_number(keys.next(), 1) && is_number(keys.next(), 2) && is_number(keys.next(), 3);
    Ok(right && keys.next().is_none())
}

#[test]
fn keys_ascend(rt: HostRuntime) -> Result<(), Fail> {
    assert!(rt; are_ascending(rt.alloc())?, "1, 2 and 3");
    Ok(())
}

/// Returns whether the row that was found has this encoding.
fn is_row(alloc: Global, found: Option<Term>, wanted: Option<&[u8]>) -> Result<bool, Fail> {
    match (found, wanted) {
        (Some(row), Some(payload)) => Ok(row == term(alloc, payload)?),
        (found, wanted) => Ok(found.is_none() && wanted.is_none()),
    }
}

/// Returns whether the first row with the value a is found.
fn is_found(alloc: Global, table: &IndexedTable) -> Result<bool, Fail> {
    let value = term(alloc, b"\x83w\x01a")?;
    is_row(alloc, first_with(alloc, table, 3, &value)?, Some(ROW_1))
}

/// Returns whether the first row that fits the pattern is found.
fn is_matched(
    alloc: Global,
    table: &IndexedTable,
    pattern: &[u8],
    wanted: Option<&[u8]>,
) -> Result<bool, Fail> {
    let pattern = term(alloc, pattern)?;
    is_row(alloc, first_match(alloc, table, &pattern)?, wanted)
}

fn are_found(alloc: Global, table: &IndexedTable) -> Result<bool, Fail> {
    let mut right = is_found(alloc, table)?;
    for (pattern, wanted) in &PATTERNS {
        right &= is_matched(alloc, table, pattern, *wanted)?;
    }
    Ok(right)
}

fn queries_are_right(alloc: Global) -> Result<bool, Fail> {
    let table = table(alloc)?;
    are_found(alloc, &table)
}

#[test]
fn queries_find_the_first(rt: HostRuntime) -> Result<(), Fail> {
    assert!(rt;
        queries_are_right(rt.alloc())?,
        "a value, any key, one key, no key"
    );
    Ok(())
}
