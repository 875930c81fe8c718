//! Events read back and shaped again, and mirrors that are fed them.
use std::alloc::Global;
use tab_etf::{Body, EncodeFault, Leaf, Outline, append_frame, append_outline, decode};
use tab_events::{Event, Level, Mirror, Mirrored, change_of, shape};
use tab_lists::{EventTerm, SharedTerms};
use tab_rows::Kind;
use tab_term::{Term, Terms};
use tab_test_tools::atom;

/// Events at their levels: an update of the record `{t,1,a}`, or of the key 1, whose record was `{t,1,b}` before; the
/// transaction's age is 1.
static EVENTS: [(&[u8], Level); 6] = [
    (
        b"\x83h\x02w\x12mnesia_table_eventh\x03w\x05writeh\x03w\x01ta\x01w\x01ah\x02w\x03tida\x01",
        Level::Simple,
    ),
    (
        b"\x83h\x02w\x12mnesia_table_eventh\x05w\x05writew\x01th\x03w\x01ta\x01w\x01al\x00\x00\x00\x01h\x03w\x01ta\x01w\x01bjh\x02w\x03tida\x01",
        Level::Detailed,
    ),
    (
        b"\x83h\x02w\x12mnesia_table_eventh\x03w\x06deleteh\x02w\x01ta\x01h\x02w\x03tida\x01",
        Level::Simple,
    ),
    (
        b"\x83h\x02w\x12mnesia_table_eventh\x05w\x06deletew\x01th\x02w\x01ta\x01l\x00\x00\x00\x01h\x03w\x01ta\x01w\x01bjh\x02w\x03tida\x01",
        Level::Detailed,
    ),
    (
        b"\x83h\x02w\x12mnesia_table_eventh\x03w\x0ddelete_objecth\x03w\x01ta\x01w\x01ah\x02w\x03tida\x01",
        Level::Simple,
    ),
    (
        b"\x83h\x02w\x12mnesia_table_eventh\x05w\x06deletew\x01th\x03w\x01ta\x01w\x01al\x00\x00\x00\x01h\x03w\x01ta\x01w\x01bjh\x02w\x03tida\x01",
        Level::Detailed,
    ),
];

static OLD: &[u8] = b"\x83h\x03w\x01ta\x01w\x01b";

/// Returns whether an event is written as this term is.
fn is_written(alloc: Global, event: &EventTerm, told: &Term) -> Result<bool, EncodeFault> {
    let outline = Outline {
        first: None,
        second: None,
        body: Body::One(Leaf::event(event)),
    };
    let mut written = Vec::new(alloc);
    append_outline(&outline, &mut written)?;
    let mut wanted = Vec::new(alloc);
    append_frame(told, &mut wanted)?;
    Ok(written.as_slice() == wanted.as_slice())
}

/// Returns whether the term's change is shaped as that term again; None if it has no change.
fn is_shaped(
    alloc: Global,
    told: &Term,
    old: SharedTerms,
    level: Level,
) -> Result<Option<bool>, EncodeFault> {
    let tab = atom(alloc, "t")?;
    match change_of(alloc, told)? {
        Some(change) => {
            let event = Event {
                tab,
                change,
                old,
                age: 1,
            };
            let shaped = shape(alloc, &event, level)?;
            Ok(Some(is_written(alloc, &shaped, told)?))
        }
        None => Ok(None),
    }
}

/// The records before an update.
fn old(alloc: Global) -> Result<SharedTerms, EncodeFault> {
    let old = decode(alloc, OLD).or(Err(EncodeFault::NoMemory))?;
    let mut records = Vec::with_capacity(alloc, 1)?;
    records.push_reserved(old);
    Ok(SharedTerms::from_terms(Terms::from_vec(records)))
}

fn is_read_back(alloc: Global, payload: &[u8], level: Level) -> Result<Option<bool>, EncodeFault> {
    let told = decode(alloc, payload).or(Err(EncodeFault::NoMemory))?;
    is_shaped(alloc, &told, old(alloc)?, level)
}

#[test]
fn events_are_read_back(rt: HostRuntime) {
    for (number, (bytes, level)) in EVENTS.iter().enumerate() {
        let found = is_read_back(rt.alloc(), bytes, *level);
        assert!(rt; found == Ok(Some(true)), "event {number}");
    }
}

/// A mirror of the table t is fed these, one after another. Then it has the records of these keys, written one after
/// the other, if it has rows.
static TOLD: [(&[u8], Mirrored, Option<u32>); 18] = [
    (WRITE_3, Mirrored::Other, None),
    (UNSUBSCRIBED, Mirrored::Ended, None),
    (MARK, Mirrored::Begun, Some(12)),
    (DELETE_1, Mirrored::Applied, Some(2)),
    (WRITE_3, Mirrored::Applied, Some(23)),
    (OTHER_TABLE, Mirrored::Other, Some(23)),
    (WITHOUT_DUMP, Mirrored::Other, Some(23)),
    (BATCH, Mirrored::Other, Some(23)),
    (OTHER_ENDED, Mirrored::Other, Some(23)),
    (OVERFLOW_0, Mirrored::Other, Some(23)),
    (AGE_0, Mirrored::Other, Some(23)),
    (OTHER_WORD, Mirrored::Other, Some(23)),
    (MARK, Mirrored::Begun, Some(12)),
    (OBJECT_2, Mirrored::Applied, Some(1)),
    (OVERFLOW, Mirrored::Ended, None),
    (WRITE_3, Mirrored::Other, None),
    (MARK, Mirrored::Begun, Some(12)),
    (DELETED, Mirrored::Ended, None),
];

const MARK: &[u8] =
    b"\x83h\x04w\x12mnesia_table_beginw\x01tw\x06simplel\x00\x00\x00\x02h\x03w\x01ta\x01w\x01ah\x03w\x01ta\x02w\x01bj";

const DELETE_1: &[u8] =
    b"\x83h\x02w\x12mnesia_table_eventh\x03w\x06deleteh\x02w\x01ta\x01h\x02w\x03tida\x02";

const OBJECT_2: &[u8] =
    b"\x83h\x02w\x12mnesia_table_eventh\x03w\x0ddelete_objecth\x03w\x01ta\x02w\x01bh\x02w\x03tida\x02";

const WRITE_3: &[u8] =
    b"\x83h\x02w\x12mnesia_table_eventh\x03w\x05writeh\x03w\x01ta\x03w\x01ch\x02w\x03tida\x02";

const OTHER_TABLE: &[u8] =
    b"\x83h\x02w\x12mnesia_table_eventh\x03w\x05writeh\x03w\x01ua\x03w\x01ch\x02w\x03tida\x02";

const AGE_0: &[u8] =
    b"\x83h\x02w\x12mnesia_table_eventh\x03w\x06deleteh\x02w\x01ta\x02h\x02w\x03tida\x00";

/// The simple word at the detailed level.
const OTHER_WORD: &[u8] =
    b"\x83h\x02w\x12mnesia_table_eventh\x05w\x0ddelete_objectw\x01th\x03w\x01ta\x02w\x01bjh\x02w\x03tida\x01";

const WITHOUT_DUMP: &[u8] = b"\x83h\x03w\x12mnesia_table_beginw\x01tw\x06simple";

const BATCH: &[u8] = b"\x83h\x03w\x05batcha\x02j";

const DELETED: &[u8] = b"\x83h\x03w\x10mnesia_table_endw\x01tw\x07deleted";

const UNSUBSCRIBED: &[u8] = b"\x83h\x03w\x10mnesia_table_endw\x01tw\x0cunsubscribed";

const OTHER_ENDED: &[u8] = b"\x83h\x03w\x10mnesia_table_endw\x01uw\x07deleted";

const OVERFLOW: &[u8] = b"\x83h\x02w\x0fmnesia_overflowa\x03";

const OVERFLOW_0: &[u8] = b"\x83h\x02w\x0fmnesia_overflowa\x00";

/// The keys from 1 to 3 that have a record.
fn keys(mirror: &Mirror) -> Option<u32> {
    let rows = mirror.rows()?;
    let mut all = 0u32;
    for key in 1..4u32 {
        if rows.at(&Term::Int(i128::from(key))).next().is_some() {
            all = all.saturating_mul(10).saturating_add(key);
        }
    }
    Some(all)
}

#[test]
fn mirrors_follow(rt: HostRuntime) {
    let alloc = rt.alloc();
    let table = atom(alloc, "t").expect(&rt, "memory");
    let mut mirror = Mirror::new(table, Kind::Bag);
    for (line, (payload, wanted, rows)) in TOLD.iter().enumerate() {
        let told = decode(alloc, payload).expect(&rt, "a term");
        let right = mirror
            .feed(alloc, &told)
            .is_ok_and(|mirrored| mirrored == *wanted);
        assert!(rt; right && keys(&mirror) == *rows, "line {line}");
    }
}
