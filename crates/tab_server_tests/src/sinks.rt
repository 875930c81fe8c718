//! A sink whose writer fails once, inside a frame, and would take bytes again after that.

use std::alloc::Global;
use std::io::{self, Write};
use std::sync::{Mutex, Wait};
use std::test::*;
use tab_server::FrameSink;

/// Takes three bytes a call, and fails at its fourth.
#[derive(Drop)]
struct Once<'a, R> {
    rt: &'a R,
    written: &'a Mutex<Vec<u8>>,
    calls: u32,
}

impl<'a, R: Wait> Write for Once<'a, R> {
    fn write(&mut self, buf: &[u8]) -> io::Result<usize> {
        self.calls = self.calls.saturating_add(1);
        if self.calls == 4 {
            return Err(io::Error::from(io::ErrorKind::BrokenPipe));
        }
        let len = buf.len().min(3);
        self.written.lock(self.rt).extend_from_slice(&buf[..len])?;
        Ok(len)
    }

    fn flush(&mut self) -> io::Result<()> {
        Ok(())
    }
}

/// Frames, and whether each is written.
static SENT: [(&[u8], bool); 5] = [
    (b"abcd", true),
    (b"efgh", false),
    (b"ijkl", false),
    (b"", false),
    (b"mnop", false),
];

/// Returns whether each frame that has to be written is, and of the broken one a beginning and nothing after it.
fn is_broken_for_good<R: Wait>(rt: &R, alloc: Global) -> bool {
    let written = Mutex::new(Vec::new(alloc));
    let writer = Once {
        rt,
        written: &written,
        calls: 0,
    };
    let sink = FrameSink::new(writer);
    let mut right = !sink.is_broken(rt);
    for (frame, wanted) in &SENT {
        right &= sink.send(rt, frame).is_ok() == *wanted && sink.is_broken(rt) != *wanted;
    }
    right && written.lock(rt).as_slice() == b"abcdefg".as_slice()
}

#[test]
fn a_sink_is_broken_for_good(rt: HostRuntime) {
    assert!(rt; is_broken_for_good(&rt, rt.alloc()));
}
