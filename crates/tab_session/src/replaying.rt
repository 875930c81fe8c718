//! A whole stream of requests.

ghost use Rattle.std.specs.Prelude.{◌≡◌, ◌≢◌, [], None, IsTrue, ◌<◌, ◌-◌, ◌^◌, length, IfSome, IfErr, OnOk};
ghost use Rattle.tab_etf.specs.Streams.{payloads, rest_of};
ghost use Rattle.tab_session.specs.declared.ended.Ended.TheVariants.{Damaged};
ghost use Rattle.tab_session.specs.Replays.{Replayed, Faults, HasFlushed, fresh};

use crate::Ended;
use crate::serving::serve_piece;
use std::sync::Wait;
use tab_core::Core;
use tab_etf::{Source, Splitter, Target};
use tab_model::Limits;
use tab_outbox::RingPost;

/// The largest piece that is read at once.
const PIECE: usize = 65_536;

fn run_all<H: AllocGlobal + Wait, R: Source, W: Target>(
    rt: &H,
    core: &mut Core<RingPost>,
    outbox: usize,
    splitter: &mut Splitter,
    piece: &mut [u8],
    input: &mut R,
    output: &mut W,
) -> Result<(), Ended>
    requires core { core.old ≡ fresh }
    requires splitter { splitter.old ≡ record { rest = []; over = None; before = [] } }
    requires room { length piece.old ≡ 65536 }
    ensures bytes { IfSome (R.remaining input.old) (λ stream. length stream < 2 ^ 64 - 1 →
        Replayed outbox stream (R.remaining input.new) (W.contents output.old)
        (W.contents output.new) result) }
    ensures faults { Faults (R.faults input.old) (R.faults input.new) (W.faults output.old)
        (W.faults output.new) result }
    ensures flushed { IsTrue (W.is_flushed output.old)
        → HasFlushed result (W.is_flushed output.new) }
{
    for round in 0..u64::MAX {
        // The result if nothing more comes; and so no whole frame is left.
        let end = end_of_stream(splitter);
        let count = input.get(piece)?;
        if count == 0 {
            return end;
        }
        serve_piece(rt, core, outbox, splitter, &piece[..count], output)?;
    }
    end_of_stream(splitter)
}

/// The stream is damaged if it ends inside a frame.
fn end_of_stream(splitter: &Splitter) -> Result<(), Ended>
    ensures found { splitter.now.over ≡ None → payloads splitter.now.rest ≡ [] }
    ensures ok { OnOk result (rest_of splitter.now.rest ≡ []) }
    ensures err { IfErr result
        (λ e. (e ≡ Damaged) × (splitter.now.over ≡ None → rest_of splitter.now.rest ≢ [])) }
{
    match splitter.finish() {
        Ok(()) => Ok(()),
        Err(_) => Err(Ended::Damaged),
    }
}

/// Reads the frames of a stream, and writes the frames of their replies, in order, with a flush after each piece. Each
/// session's post has room for `outbox` items.
///
/// The replies that are written before it ends depend on the end:
///
/// - `Damaged`: those to all whole frames.
/// - `TooLong`: those to the first frames, whole.
/// - `NoMemory`: those to all frames that were read, except those of one last piece.
/// - `Device`: a beginning of them.
pub fn replay<H: AllocGlobal + Wait, R: Source, W: Target>(
    rt: &H,
    input: &mut R,
    output: &mut W,
    outbox: usize,
) -> Result<(), Ended>
    ensures bytes { IfSome (R.remaining input.old) (λ stream. length stream < 2 ^ 64 - 1 →
        Replayed outbox stream (R.remaining input.new) (W.contents output.old)
        (W.contents output.new) result) }
    ensures faults { Faults (R.faults input.old) (R.faults input.new) (W.faults output.old)
        (W.faults output.new) result }
    ensures flushed { IsTrue (W.is_flushed output.old)
        → HasFlushed result (W.is_flushed output.new) }
{
    let mut core = Core::new(rt.alloc(), Limits::STANDARD);
    let mut splitter = Splitter::new(rt.alloc());
    let Ok(mut piece) = vec![in rt.alloc(); 0u8; PIECE] else {
        return Err(Ended::NoMemory);
    };
    run_all(
        rt,
        &mut core,
        outbox,
        &mut splitter,
        &mut piece,
        input,
        output,
    )
}
