//! Payloads and frames of terms.

ghost use Rattle.std.specs.Prelude.{◌≡◌, ◌<◌, ◌≤◌, ◌+◌, ◌^◌, ◌++◌, ◌∷◌, ◌↔◌, [], ℕ, min, length, take, OnOk, OnErr, IfErr, IfOk, Err};
ghost use Rattle.std.specs.Int.{w32, to_be_bytes};
ghost use Rattle.std.specs.Io.KnownBytes.{Appends, Keeps};
ghost use Rattle.tab_term.specs.Canon.{canon};
ghost use Rattle.tab_term.specs.View.{term};
ghost use Rattle.tab_etf.specs.Frames.{frame};
ghost use Rattle.tab_etf.specs.Outlines.{outline_term, OfOutline, IsShortOutline, IsWritable};
ghost use Rattle.tab_etf.specs.Writing.{IsUnwritten};

use crate::counted::Counted;
use crate::device::{Broken, Target};
use crate::framing::FrameFault;
use crate::measuring::encoded_len;
use crate::outline::{Body, Leaf, Outline, outline_len, put_outline};
use crate::writer::Writer;
use std::alloc::{AllocError, Global};
use tab_term::Term;
use thiserror::Error;

/// The reason that a term was not encoded.
#[derive(Clone, Copy, Debug, PartialEq, Eq, Error)]
pub enum EncodeFault {
    /// The payload is over 4,294,967,295 bytes.
    #[error("the payload is too long")]
    TooLong,
    #[error("no memory")]
    NoMemory,
}

impl From<AllocError> for EncodeFault {
    ghost use Rattle.tab_etf.specs.declared.encoding.EncodeFault.TheVariants.{NoMemory};

    ghost from_gives = { λ _ e. e ≡ NoMemory };

    fn from(_e: AllocError) -> EncodeFault {
        EncodeFault::NoMemory
    }
}

/// The outline of a term as it is.
fn held(value: &Term) -> Outline<'_>
    ensures term { outline_term result ≡ term value.now }
    ensures short { IsShortOutline result }
    ensures fits { OfOutline IsWritable result }
{
    Outline {
        first: None,
        second: None,
        body: Body::One(Leaf::Held(value)),
    }
}

/// Writes these bytes and then the encoding; if that fails, a beginning of them.
fn spell<W: Target>(device: &mut W, head: &[u8], outline: &Outline) -> Result<(), Broken>
    requires { OfOutline IsWritable outline.now }
    ensures ok { OnOk result
        (Appends (W.contents device.old) (W.contents device.new)
        (head.now ++ canon (outline_term outline.now))) }
    ensures same { OnOk result (W.faults device.new ≡ W.faults device.old) }
    ensures part { OnErr result
        ((n : ℕ) × Appends (W.contents device.old) (W.contents device.new)
        (take n (head.now ++ canon (outline_term outline.now)))) }
    ensures rose { OnErr result (W.faults device.new ≡ min (W.faults device.old + 1) u64.MAX) }
{
    let mut writer = Writer::new(device);
    writer.put(head);
    put_outline(&mut writer, outline);
    writer.write_out();
    if writer.has_failed() {
        return Err(Broken);
    }
    Ok(())
}

/// The length of a payload, and its first byte.
pub(crate) fn frame_head(len: u32) -> [u8; 5]
    ensures { result ≡ to_be_bytes w32 len ++ 131 ∷ [] }
{
    let [a, b, c, d] = len.to_be_bytes();
    [a, b, c, d, 131]
}

/// Writes the frame of a term.
///
/// It takes no memory: pieces of at most 512 bytes wait on the stack. At `Device` a beginning of the
/// frame is written; at `FrameTooLong` nothing is.
pub fn write_frame<W: Target>(device: &mut W, value: &Term) -> Result<(), FrameFault>
    ensures ok { OnOk result
        (Appends (W.contents device.old) (W.contents device.new)
        (frame (131 ∷ canon (term value.now)))) }
    ensures same { OnOk result (W.faults device.new ≡ W.faults device.old) }
    ensures err { IfErr result
        (λ e. IsUnwritten e (131 ∷ canon (term value.now)) (W.contents device.old)
        (W.contents device.new) (W.faults device.old) (W.faults device.new)) }
{
    write_outline(device, &held(value))
}

/// Writes the frame of a term that is given by its parts, as `write_frame` writes one that was built.
pub fn write_outline<W: Target>(device: &mut W, outline: &Outline) -> Result<(), FrameFault>
    requires { IsShortOutline outline.now }
    ensures ok { OnOk result
        (Appends (W.contents device.old) (W.contents device.new)
        (frame (131 ∷ canon (outline_term outline.now)))) }
    ensures same { OnOk result (W.faults device.new ≡ W.faults device.old) }
    ensures err { IfErr result
        (λ e. IsUnwritten e (131 ∷ canon (outline_term outline.now)) (W.contents device.old)
        (W.contents device.new) (W.faults device.old) (W.faults device.new)) }
{
    let Some(len) = outline_len(outline) else {
        return Err(FrameFault::FrameTooLong(u32::MAX));
    };
    spell(device, &frame_head(len as u32), outline)?;
    Ok(())
}

/// Appends bytes and then the encoding. It reserves `len` bytes first. On an error the bytes are as before.
pub(crate) fn append(
    outline: &Outline,
    head: &[u8],
    len: usize,
    out: &mut Vec<u8>,
) -> Result<(), AllocError>
    requires { OfOutline IsWritable outline.now }
    ensures ok { OnOk result
        (out.new.items ≡ out.old.items ++ (head.now ++ canon (outline_term outline.now))) }
    ensures err { OnErr result (out.new.items ≡ out.old.items) }
{
    let start = out.len();
    out.reserve(len)?;
    let alloc = *out.allocator();
    let mut device = Counted::new(std::mem::replace(out, Vec::new(alloc)));
    let spelled = spell(&mut device, head, outline);
    *out = device.into_inner();
    if spelled.is_err() {
        out.truncate(start);
        return Err(AllocError);
    }
    Ok(())
}

/// Appends the canonical encoding of a term. On an error the bytes are as before.
pub fn append_spelling(value: &Term, out: &mut Vec<u8>) -> Result<(), AllocError>
    ensures ok { OnOk result (out.new.items ≡ out.old.items ++ canon (term value.now)) }
    ensures err { OnErr result (out.new.items ≡ out.old.items) }
{
    append(&held(value), &[], 0, out)
}

/// Appends the payload of a term: the byte 131 and the canonical encoding.
///
/// On an error the bytes are as before. `TooLong` goes before `NoMemory`.
pub fn encode(value: &Term, out: &mut Vec<u8>) -> Result<(), EncodeFault>
    ensures ok { OnOk result (out.new.items ≡ out.old.items ++ 131 ∷ canon (term value.now)) }
    ensures too_long { (result ≡ Err EncodeFault.TooLong)
        ↔ (4294967295 < length (131 ∷ canon (term value.now))) }
    ensures err { OnErr result (out.new.items ≡ out.old.items) }
{
    let Some(len) = encoded_len(value) else {
        return Err(EncodeFault::TooLong);
    };
    append(&held(value), &[131], len as usize, out)?;
    Ok(())
}

/// Adds the frame of a term: four bytes of length, and the payload.
///
/// On an error the bytes are as before. `TooLong` goes before `NoMemory`.
pub fn append_frame(value: &Term, out: &mut Vec<u8>) -> Result<(), EncodeFault>
    ensures ok { OnOk result
        (out.new.items ≡ out.old.items ++ frame (131 ∷ canon (term value.now))) }
    ensures too_long { (result ≡ Err EncodeFault.TooLong)
        ↔ (4294967295 < length (131 ∷ canon (term value.now))) }
    ensures err { OnErr result (out.new.items ≡ out.old.items) }
{
    append_outline(&held(value), out)
}

/// Adds the frame of a term that is given by its parts, as `append_frame` adds that of one that was built.
pub fn append_outline(outline: &Outline, out: &mut Vec<u8>) -> Result<(), EncodeFault>
    requires { IsShortOutline outline.now }
    ensures ok { OnOk result
        (out.new.items ≡ out.old.items ++ frame (131 ∷ canon (outline_term outline.now))) }
    ensures too_long { (result ≡ Err EncodeFault.TooLong)
        ↔ (4294967295 < length (131 ∷ canon (outline_term outline.now))) }
    ensures err { OnErr result (out.new.items ≡ out.old.items) }
{
    let Some(len) = outline_len(outline) else {
        return Err(EncodeFault::TooLong);
    };
    append(outline, &frame_head(len as u32), len as usize + 4, out)?;
    Ok(())
}
