//! Devices that fail under a replay.
use std::sync::Wait;
use tab_etf::Counted;
use tab_session::{Ended, replay};
use tab_test_tools::Device;

/// A session's first steps, and their replies.
static INPUT: &[u8] =
    b"\x00\x00\x00\x0b\x83h\x02a\x01w\x04join\x00\x00\x00\x19\x83h\x02a\x01h\x03w\x0ccreate_tablew\x01tj\x00\x00\x00\x0c\x83h\x02a\x01w\x05begin\x00\x00\x00\x18\x83h\x02a\x01h\x02w\x05writeh\x03w\x01ta\x01w\x01a\x00\x00\x00\x12\x83h\x02a\x01h\x03w\x04readw\x01ta\x01\x00\x00\x00\x0d\x83h\x02a\x01w\x06commit";

static OUTPUT: &[u8] =
    b"\x00\x00\x00\x09\x83h\x02a\x01w\x02ok\x00\x00\x00\x13\x83h\x02a\x01h\x02w\x06atomicw\x02ok\x00\x00\x00\x0e\x83h\x02a\x01h\x02w\x03tida\x01\x00\x00\x00\x09\x83h\x02a\x01w\x02ok\x00\x00\x00\x15\x83h\x02a\x01l\x00\x00\x00\x01h\x03w\x01ta\x01w\x01aj\x00\x00\x00\x11\x83h\x02a\x01h\x02w\x06atomica\x01";

/// The calls of a run with eight bytes a call: reads, the last of which finds the end, and writes and flushes.
const READS: u32 = 17;

const WRITES: u32 = 33;

/// Returns whether a run with devices that fail after so many calls writes all, or a beginning if it fails.
fn is_right<R: AllocGlobal + Wait>(rt: &R, reads: u32, writes: u32) -> bool {
    let alloc = rt.alloc();
    let mut reader = Counted::new(Device {
        inner: INPUT,
        size: 8,
        left: reads,
    });
    let mut writer = Counted::new(Device {
        inner: Vec::new(alloc),
        size: 8,
        left: writes,
    });
    let ended = replay(rt, &mut reader, &mut writer, 64);
    let written = writer.into_inner().inner;
    if reads < READS || writes < WRITES {
        ended == Err(Ended::Device) && OUTPUT.starts_with(written.as_slice())
    } else {
        ended == Ok(()) && written.as_slice() == OUTPUT
    }
}

/// The call after so many fails, of the reader in the one run and of the writer in the other; a run that makes no more calls is whole.
#[test]
fn a_device_fails_at_each_call(rt: HostRuntime) {
    for left in 0..=WRITES {
        assert!(rt; is_right(&rt, left, u32::MAX), "read {left}");
        assert!(rt; is_right(&rt, u32::MAX, left), "write {left}");
    }
}
