//! The frames of one piece of the stream, and what is written for them.

ghost use Rattle.std.specs.Prelude.{◌≡◌, ◌+◌, ◌<◌, ◌≤◌, ℕ, List, Option, [], None, IsTrue, length, OnOk};
ghost use Rattle.std.specs.Io.KnownBytes.{Consumes};
ghost use Rattle.tab_etf.specs.Frames.{contents};
ghost use Rattle.tab_etf.specs.Streams.{payloads};
ghost use Rattle.tab_session.specs.Replays.{IsReplaying, Advances, Handed, Served, OneFault, HasFlushed};

use crate::answering::{answer, put_answer, write_answer};
use crate::{Ended, PayloadReply};
use std::sync::Wait;
use tab_core::Core;
use tab_etf::{Frame, FrameFault, Splitter, Target, give_all};
use tab_outbox::RingPost;

/// The bytes of replies that are buffered before they are written.
const KEPT: usize = 65_536;

/// A frame of more bytes is written by itself.
const LONG: usize = 4 * KEPT;

/// Buffers the frame of a reply until there are enough to be written at once. If it is long, or memory for it is
/// refused, the buffer is written, and then this frame by itself.
fn put<W: Target>(answer: &PayloadReply, buffer: &mut Vec<u8>, output: &mut W) -> Result<(), Ended>
    ensures handed { Handed answer.now (W.contents output.old)
        (W.contents output.new) buffer.old.items buffer.new.items result }
    ensures faults { OneFault (W.faults output.old) (W.faults output.new) result }
{
    match put_answer(answer, LONG, buffer) {
        Ok(()) => {
            if buffer.len() >= KEPT {
                give_all(output, buffer)?;
                buffer.clear();
            }
            Ok(())
        }
        Err(_) => {
            give_all(output, buffer)?;
            buffer.clear();
            write_answer(answer, output)
        }
    }
}

/// Answers the payloads of these frames, and writes the replies. First it makes changes in indexes that lack them.
fn serve_all<H: AllocGlobal + Wait, W: Target>(
    rt: &H,
    core: &mut Core<RingPost>,
    outbox: usize,
    frames: &[Frame],
    output: &mut W,
) -> Result<(), Ended>
    ensures served { Served outbox core.old core.new (contents frames.now) (W.contents output.old)
        (W.contents output.new) result }
    ensures faults { OneFault (W.faults output.old) (W.faults output.new) result }
    ensures flushed { OnOk result (IsTrue (W.is_flushed output.new)) }
{
    let _ = core.settle(core.lacks());
    let mut buffer = Vec::new(rt.alloc());
    for frame in frames {
        let answer = answer(rt, core, outbox, frame.payload());
        put(&answer, &mut buffer, output)?;
    }
    give_all(output, &buffer)?;
    output.flush()?;
    Ok(())
}

/// Serves the frames that are whole with this piece.
pub fn serve_piece<H: AllocGlobal + Wait, W: Target>(
    rt: &H,
    core: &mut Core<RingPost>,
    outbox: usize,
    splitter: &mut Splitter,
    piece: &[u8],
    output: &mut W,
) -> Result<(), Ended>
    requires { splitter.old.over ≡ None }
    ensures piece { (stream : List ℕ) (old left new_left : Option (List ℕ)) (i : ℕ) →
        IsReplaying outbox stream left splitter.old.rest i core.old old (W.contents output.old) →
        payloads splitter.old.rest ≡ [] →
        Consumes left new_left piece.now → 0 < length piece.now → length piece.now ≤ 65536 →
        Advances outbox result stream new_left splitter.new.rest (i + 1) core.new old
        (W.contents output.new) }
    ensures going { OnOk result (splitter.new.over ≡ None) }
    ensures faults { OneFault (W.faults output.old) (W.faults output.new) result }
    ensures flushed { HasFlushed result (W.is_flushed output.new) }
{
    match splitter.feed(piece) {
        Ok(frames) => serve_all(rt, core, outbox, &frames, output),
        Err(FrameFault::FrameTooLong(_)) => {
            serve_all(rt, core, outbox, splitter.before_fault(), output)?;
            Err(Ended::Damaged)
        }
        Err(_) => Err(Ended::NoMemory),
    }
}
