//! A mirror that is fed the items of its session.

use crate::feed_all;
use std::alloc::Global;
use std::test::Fail;
use tab_etf::decode;
use tab_events::Mirror;
use tab_model::Kind;
use tab_term::{Atom, Term};

/// The dump `[{t,1,a}]`, the write of `{t,2,b}`, and the deletion of the key 1.
static TOLD: [&[u8]; 3] = [
    b"\x83h\x04w\x12mnesia_table_beginw\x01tw\x06simplel\x00\x00\x00\x01h\x03w\x01ta\x01w\x01aj",
    b"\x83h\x02w\x12mnesia_table_eventh\x03w\x05writeh\x03w\x01ta\x02w\x01bh\x02w\x03tida\x02",
    b"\x83h\x02w\x12mnesia_table_eventh\x03w\x06deleteh\x02w\x01ta\x01h\x02w\x03tida\x03",
];

fn terms(alloc: Global) -> Result<Vec<Term>, Fail> {
    let mut all = Vec::new(alloc);
    for payload in &TOLD {
        all.push(decode(alloc, payload).map_err(|_| "a term")?)?;
    }
    Ok(all)
}

fn has(mirror: &Mirror, key: i128) -> bool {
    match mirror.rows() {
        Some(rows) => rows.at(&Term::Int(key)).next().is_some(),
        None => false,
    }
}

fn fed(alloc: Global) -> Result<Mirror, Fail> {
    let told = terms(alloc)?;
    let mut mirror = Mirror::new(Atom::from_short_text(alloc, "t")?, Kind::Set);
    feed_all(&mut mirror, alloc, &told)?;
    Ok(mirror)
}

#[test]
fn mirrors_follow(rt: HostRuntime) -> Result<(), Fail> {
    let mirror = fed(rt.alloc())?;
    let right = !has(&mirror, 1) && has(&mirror, 2);
    assert!(rt; right, "the second record alone");
    Ok(())
}
