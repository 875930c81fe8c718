//! Frames: cut anywhere, and over devices that fail.

use std::alloc::{AllocError, Global};
use std::test::Fail;
use tab_etf::{
    Broken, Counted, Frame, FrameFault, Splitter, Target, decode, read_frame, write_frame,
};
use tab_term::Term;
use tab_test_tools::{Device, bytes};

/// Payloads of terms; the frames of all, one after the other, are 192 bytes.
static PAYLOADS: [&str; 7] = [
    "83 6802 7705 7265706C79 7702 6F6B",
    "83 6802 6101 6802 7705 7772697465 6803 7701 74 6101 7701 61",
    "83 6802 6101 6802 7703 746964 6101",
    "83 6802 6101 6C00000001 6803 7701 74 6101 7701 61 6A",
    "83 6802 6101 6802 7706 61746F6D6963 6101",
    "83 6802 6100 6802 7705 6572726F72 7707 6261647465726D",
    "83 6802 7712 6D6E657369615F7461626C655F6576656E74 6803 7705 7772697465 6803 7701 74 6101 7701 61 6802 7703 746964 6101",
];

fn push_frame(out: &mut Vec<u8>, payload: &[u8]) -> Result<(), AllocError> {
    out.extend_from_slice(&u32::try_from(payload.len()).unwrap_or(0).to_be_bytes())?;
    out.extend_from_slice(payload)
}

fn push_read(out: &mut Vec<u8>, frame: &Frame) -> Result<(), AllocError> {
    match frame {
        Frame::Empty => push_frame(out, &[]),
        Frame::Payload(payload) => push_frame(out, payload.as_slice()),
    }
}

fn push_hex(alloc: Global, out: &mut Vec<u8>, text: &str) -> Result<(), AllocError> {
    let payload = bytes(alloc, text)?;
    push_frame(out, &payload)
}

fn stream(alloc: Global) -> Result<Vec<u8>, AllocError> {
    let mut out = Vec::new(alloc);
    for text in &PAYLOADS {
        push_hex(alloc, &mut out, text)?;
    }
    Ok(out)
}

/// Feeds a piece, and adds the frames that it ends.
fn feed(splitter: &mut Splitter, piece: &[u8], out: &mut Vec<u8>) -> Result<(), Fail> {
    for frame in &splitter.feed(piece)? {
        push_read(out, frame)?;
    }
    Ok(())
}

/// Returns whether the frames of both pieces are all of the stream.
fn is_whole(alloc: Global, stream: &[u8], cut: usize) -> Result<bool, Fail> {
    let (first, second) = stream.split_at(cut.min(stream.len()));
    let mut splitter = Splitter::new(alloc);
    let mut out = Vec::new(alloc);
    feed(&mut splitter, first, &mut out)?;
    feed(&mut splitter, second, &mut out)?;
    let is_ended = splitter.finish().is_ok() && splitter.before_fault().is_empty();
    Ok(is_ended && out.as_slice() == stream)
}

#[test]
fn frames_are_found_at_every_cut(rt: HostRuntime) -> Result<(), Fail> {
    let mut stream = stream(rt.alloc())?;
    push_frame(&mut stream, &[])?;
    for cut in 0..=stream.len() {
        assert!(rt; is_whole(rt.alloc(), &stream, cut)?, "cut at {cut}");
    }
    Ok(())
}

/// Returns whether so many bytes, one after another, end so many frames.
fn are_fed(splitter: &mut Splitter, bytes: u32, byte: u8, wanted: usize) -> Result<bool, Fail> {
    let mut frames = 0usize;
    for _ in 0..bytes {
        frames = frames.saturating_add(splitter.feed(&[byte])?.len());
    }
    Ok(frames == wanted)
}

/// The longest frame that is read. Were the bytes that wait looked at or moved at each piece, it would take hours.
#[test]
fn a_long_frame_comes_byte_by_byte(rt: HostRuntime) -> Result<(), Fail> {
    let mut splitter = Splitter::new(rt.alloc());
    let is_begun = splitter.feed(&[0x00, 0x10])?.is_empty() && are_fed(&mut splitter, 2, 0, 0)?;
    let is_open = is_begun && are_fed(&mut splitter, 1_048_575, 7, 0)?;
    assert!(rt; is_open && are_fed(&mut splitter, 1, 7, 1)?);
    Ok(())
}

/// A reader of seven bytes a call that fails after so many.
fn reader_of(stream: &[u8], left: u32) -> Counted<Device<&[u8]>> {
    Counted::new(Device {
        inner: stream,
        size: 7,
        left,
    })
}

/// Reads frames up to a fault or the end, at most eight, and adds them.
fn read_all(
    alloc: Global,
    reader: &mut Counted<Device<&[u8]>>,
    out: &mut Vec<u8>,
) -> Result<Option<FrameFault>, AllocError> {
    for _ in 0..8 {
        match read_frame(alloc, reader) {
            Ok(Some(frame)) => push_read(out, &frame)?,
            Ok(None) => return Ok(None),
            Err(fault) => return Ok(Some(fault)),
        }
    }
    Ok(None)
}

/// Calls of seven bytes at most: a length and the pieces of a payload for each frame, and the end.
const READS: u32 = 34;

/// Returns whether a reader that fails after so many calls gives whole frames and its fault.
fn is_read(alloc: Global, stream: &[u8], left: u32) -> Result<bool, AllocError> {
    let mut reader = reader_of(stream, left);
    let mut out = Vec::new(alloc);
    let fault = read_all(alloc, &mut reader, &mut out)?;
    let is_begin = stream.starts_with(&out) && out.len() <= 7 * left as usize;
    let is_all = left < READS || out.len() == stream.len();
    let is_fault = fault == (left < READS).then_some(FrameFault::Device);
    Ok(is_begin && is_all && is_fault && reader.faults() == u64::from(left < READS))
}

#[test]
fn a_reader_fails_at_each_call(rt: HostRuntime) -> Result<(), Fail> {
    let stream = stream(rt.alloc())?;
    for left in 0..60u32 {
        assert!(rt;
            is_read(rt.alloc(), &stream, left) == Ok(true),
            "call {left}"
        );
    }
    Ok(())
}

fn terms(alloc: Global) -> Result<Vec<Term>, Fail> {
    let mut terms = Vec::new(alloc);
    for text in &PAYLOADS {
        terms.push(decode(alloc, &bytes(alloc, text)?)?)?;
    }
    Ok(terms)
}

/// Writes all up to a fault.
fn write_all(writer: &mut Counted<Device<Vec<u8>>>, terms: &[Term]) -> Option<FrameFault> {
    for term in terms {
        if let Err(fault) = write_frame(writer, term) {
            return Some(fault);
        }
    }
    None
}

/// Returns whether a writer that fails after so many calls has a beginning of the frames and its fault.
fn is_written(alloc: Global, terms: &[Term], stream: &[u8], left: u32) -> bool {
    let mut writer = Counted::new(Device {
        inner: Vec::new(alloc),
        size: 7,
        left,
    });
    let fault = write_all(&mut writer, terms);
    let faults = writer.faults();
    let written = writer.into_inner().inner;
    let is_begin = stream.starts_with(&written) && written.is_empty() == (left == 0);
    let is_cut = written.len() < stream.len();
    let is_fault = fault == is_cut.then_some(FrameFault::Device) && faults == u64::from(is_cut);
    is_begin && is_fault && (left < 59 || !is_cut)
}

#[test]
fn a_writer_fails_at_each_call(rt: HostRuntime) -> Result<(), Fail> {
    let terms = terms(rt.alloc())?;
    let stream = stream(rt.alloc())?;
    for left in 0..60u32 {
        assert!(rt;
            is_written(rt.alloc(), &terms, &stream, left),
            "call {left}"
        );
    }
    Ok(())
}

/// Returns whether a device that fails at its second call is flushed once, and has one fault then.
fn is_flushed(alloc: Global) -> bool {
    let mut device = Counted::new(Device {
        inner: Vec::new(alloc),
        size: 7,
        left: 1,
    });
    device.flush() == Ok(()) && device.flush() == Err(Broken) && device.faults() == 1
}

#[test]
fn a_flush_reaches_the_device(rt: HostRuntime) {
    assert!(rt; is_flushed(rt.alloc()));
}
