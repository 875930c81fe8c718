//! Frames from a reader, one at a time.

ghost use Rattle.std.specs.Prelude.{◌≡◌, ◌<◌, ◌≤◌, ◌+◌, ◌++◌, List, ℕ, min, length, take, OnOk, OnErr, IfOk, IfSome, IsFalse};
ghost use Rattle.std.specs.Io.KnownBytes.{Consumes, IsAtEnd};
ghost use Rattle.tab_etf.specs.Arrivals.{ReadsFrame, ReadsPayload, CountsFaults};
ghost use Rattle.tab_etf.specs.Frames.{IsTold};

use crate::device::{Broken, Source};
use crate::framing::{Frame, FrameFault, SHORT};
use crate::splitting::LIMIT;
use smallvec::SmallVec;
use std::alloc::Global;

/// The most bytes of a payload that are read at once.
const CHUNK: usize = 4096;

/// Reads until the buffer is full or the stream ends, and returns how many bytes came.
fn fill<R: Source>(reader: &mut R, buf: &mut [u8]) -> Result<usize, Broken>
    ensures bound { IfOk result (λ n. n ≤ length buf.new) }
    ensures bytes { IfOk result
        (λ n. Consumes (R.remaining reader.old) (R.remaining reader.new) (take n buf.new)) }
    ensures end { IfOk result (λ n. n < length buf.new → IsAtEnd (R.remaining reader.new)) }
    ensures same { OnOk result (R.faults reader.new ≡ R.faults reader.old) }
    ensures part { OnErr result
        ((got : List ℕ) × Consumes (R.remaining reader.old) (R.remaining reader.new) got) }
    ensures rose { OnErr result (R.faults reader.new ≡ min (R.faults reader.old + 1) u64.MAX) }
{
    let mut at = 0;
    while at < buf.len() {
        let came = reader.get(&mut buf[at..])?;
        if came == 0 {
            return Ok(at);
        }
        at += came;
    }
    Ok(at)
}

/// Adds bytes to those that are kept, unless some are lost, and returns whether some are lost then.
fn keep(kept: &mut SmallVec<u8, SHORT>, lost: bool, bytes: &[u8]) -> bool
    ensures { IsFalse result → (IsFalse lost) × (kept.new.items ≡ kept.old.items ++ bytes.now) }
{
    if lost {
        return true;
    }
    kept.extend_from_slice(bytes).is_err()
}

/// Reads a payload of `count` bytes. Its buffer grows as they come; if it can't, the other bytes are read and dropped.
fn read_payload<R: Source>(alloc: Global, reader: &mut R, count: usize) -> Result<Frame, FrameFault>
    ensures payload { ReadsPayload (R.remaining reader.old) (R.remaining reader.new) count result }
    ensures told { IfOk result IsTold }
    ensures faults { CountsFaults result (R.faults reader.old) (R.faults reader.new) }
{
    let mut payload = SmallVec::new(alloc);
    let mut lost = false;
    let mut left = count;
    let mut chunk = [0; CHUNK];
    while left > 0 {
        let room = left.min(CHUNK);
        let came = fill(reader, &mut chunk[..room])?;
        if came < room {
            return Err(FrameFault::CutOff);
        }
        lost = keep(&mut payload, lost, &chunk[..came]);
        left -= came;
    }
    if lost {
        return Err(FrameFault::NoMemory);
    }
    Ok(Frame::from_vec(payload))
}

/// Reads the next frame; None if the stream ends before it.
///
/// Of a frame over 1,048,576 bytes only the length is read. At `NoMemory` its payload was read and dropped, so that the
/// next frame can be read. A stream that ends inside a frame is `CutOff`.
pub fn read_frame<R: Source>(alloc: Global, reader: &mut R) -> Result<Option<Frame>, FrameFault>
    ensures frame { ReadsFrame (R.remaining reader.old) (R.remaining reader.new) result }
    ensures told { IfOk result (λ frame. IfSome frame IsTold) }
    ensures faults { CountsFaults result (R.faults reader.old) (R.faults reader.new) }
{
    let mut head = [0; 4];
    let came = fill(reader, &mut head)?;
    if came == 0 {
        return Ok(None);
    }
    if came < 4 {
        return Err(FrameFault::CutOff);
    }
    let count = u32::from_be_bytes(head);
    if count > LIMIT {
        return Err(FrameFault::FrameTooLong(count));
    }
    let frame = read_payload(alloc, reader, count as usize)?;
    Ok(Some(frame))
}
