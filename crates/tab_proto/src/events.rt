//! Items as a connection reads them.

ghost use Rattle.std.specs.Prelude.{◌≡◌, ◌<◌, ◌++◌, ◌∷◌, ◌↔◌, length, OnOk, OnErr, IfErr, Err};
ghost use Rattle.std.specs.Io.KnownBytes.{Appends};
ghost use Rattle.tab_model.specs.declared.data.Reply.TheVariants as told;
ghost use Rattle.tab_term.specs.Canon.{canon};
ghost use Rattle.tab_lists.specs.EventTerms.{event_term};
ghost use Rattle.tab_etf.specs.Frames.{frame};
ghost use Rattle.tab_proto.specs.Events.{event_frames, item_frames, sent_frames, IsUnadded, IsUnsent};
ghost use Rattle.tab_proto.specs.Replies.{item_term, reply_term, IsOutlineOf};

use crate::replying::{item_outline, outline_of};
use tab_etf::{
    Body, EncodeFault, FrameFault, Leaf, Outline, Target, append_outline, write_outline,
};
use tab_lists::{EventTerm, EventTerms};
use tab_model::{Item, Reply};

/// The form in which a commit's events are sent.
#[derive(Clone, Copy, Debug, PartialEq, Eq)]
pub enum Delivery {
    /// A frame for each event.
    Events,
    /// One frame with the commit's number and all of its events.
    Batches,
}

/// Appends the frames of an item in this form. On an error the frames before the failed one stay.
pub fn append_item(item: &Item, delivery: Delivery, out: &mut Vec<u8>) -> Result<(), EncodeFault>
    ensures ok { OnOk result (out.new.items ≡ out.old.items ++ sent_frames delivery item.now) }
    ensures err { IfErr result
        (λ e. IsUnadded e (sent_frames delivery item.now) out.old.items out.new.items) }
{
    match delivery {
        Delivery::Events => append_apart(item, out),
        Delivery::Batches => append_whole(item, out),
    }
}

/// Adds of a batch a frame for each of its events, in order, else that of its marker.
fn append_apart(item: &Item, out: &mut Vec<u8>) -> Result<(), EncodeFault>
    ensures ok { OnOk result (out.new.items ≡ out.old.items ++ item_frames item.now) }
    ensures err { IfErr result
        (λ e. IsUnadded e (item_frames item.now) out.old.items out.new.items) }
{
    match item {
        Item::Batch(_, events) => append_events(events, out),
        marker => append_whole(marker, out),
    }
}

fn append_events(events: &EventTerms, out: &mut Vec<u8>) -> Result<(), EncodeFault>
    ensures ok { OnOk result (out.new.items ≡ out.old.items ++ event_frames events.now) }
    ensures err { IfErr result
        (λ e. IsUnadded e (event_frames events.now) out.old.items out.new.items) }
{
    for event in events.as_slice() {
        append_outline(&event_outline(event.event()), out)?;
    }
    Ok(())
}

/// Appends the one frame of an item that is sent whole.
fn append_whole(item: &Item, out: &mut Vec<u8>) -> Result<(), EncodeFault>
    ensures ok { OnOk result
        (out.new.items ≡ out.old.items ++ frame (131 ∷ canon (item_term item.now))) }
    ensures err { IfErr result
        (λ e. IsUnadded e (frame (131 ∷ canon (item_term item.now))) out.old.items out.new.items) }
{
    append_outline(&item_outline(item), out)
}

/// The outline of an event by itself.
fn event_outline(event: &EventTerm) -> Outline<'_>
    ensures { IsOutlineOf result (event_term event.now) }
{
    Outline {
        first: None,
        second: None,
        body: Body::One(Leaf::event(event)),
    }
}

/// Writes the frames that `append_item` adds, one after another, and builds none.
///
/// It takes no memory. At `Device` a beginning of them is written; at `FrameTooLong` those before the
/// one that is too long.
pub fn write_item<W: Target>(
    device: &mut W,
    item: &Item,
    delivery: Delivery,
) -> Result<(), FrameFault>
    ensures ok { OnOk result
        (Appends (W.contents device.old) (W.contents device.new) (sent_frames delivery item.now)) }
    ensures same { OnOk result (W.faults device.new ≡ W.faults device.old) }
    ensures err { IfErr result
        (λ e. IsUnsent e (sent_frames delivery item.now) (W.contents device.old)
        (W.contents device.new) (W.faults device.old) (W.faults device.new)) }
{
    match delivery {
        Delivery::Events => write_apart(device, item),
        Delivery::Batches => write_whole(device, item),
    }
}

/// Writes of a batch a frame for each of its events, in order, else that of its marker.
fn write_apart<W: Target>(device: &mut W, item: &Item) -> Result<(), FrameFault>
    ensures ok { OnOk result
        (Appends (W.contents device.old) (W.contents device.new) (item_frames item.now)) }
    ensures same { OnOk result (W.faults device.new ≡ W.faults device.old) }
    ensures err { IfErr result
        (λ e. IsUnsent e (item_frames item.now) (W.contents device.old) (W.contents device.new)
        (W.faults device.old) (W.faults device.new)) }
{
    match item {
        Item::Batch(_, events) => write_events(device, events),
        marker => write_whole(device, marker),
    }
}

fn write_events<W: Target>(device: &mut W, events: &EventTerms) -> Result<(), FrameFault>
    ensures ok { OnOk result
        (Appends (W.contents device.old) (W.contents device.new) (event_frames events.now)) }
    ensures same { OnOk result (W.faults device.new ≡ W.faults device.old) }
    ensures err { IfErr result
        (λ e. IsUnsent e (event_frames events.now) (W.contents device.old) (W.contents device.new)
        (W.faults device.old) (W.faults device.new)) }
{
    for event in events.as_slice() {
        write_outline(device, &event_outline(event.event()))?;
    }
    Ok(())
}

/// Writes the one frame of an item that is sent whole.
fn write_whole<W: Target>(device: &mut W, item: &Item) -> Result<(), FrameFault>
    ensures ok { OnOk result
        (Appends (W.contents device.old) (W.contents device.new)
        (frame (131 ∷ canon (item_term item.now)))) }
    ensures same { OnOk result (W.faults device.new ≡ W.faults device.old) }
    ensures err { IfErr result
        (λ e. IsUnsent e (frame (131 ∷ canon (item_term item.now))) (W.contents device.old)
        (W.contents device.new) (W.faults device.old) (W.faults device.new)) }
{
    write_outline(device, &item_outline(item))
}

/// Adds the frame of `{mnesia_overflow, N}`. On an error the bytes are as before.
pub fn append_overflow(number: u64, out: &mut Vec<u8>) -> Result<(), EncodeFault>
    ensures ok { OnOk result
        (out.new.items ≡ out.old.items ++ frame (131 ∷ canon (reply_term (told.Overflow number)))) }
    ensures too_long { (result ≡ Err EncodeFault.TooLong)
        ↔ (4294967295 < length (131 ∷ canon (reply_term (told.Overflow number)))) }
    ensures err { OnErr result (out.new.items ≡ out.old.items) }
{
    append_outline(&outline_of(&Reply::Overflow(number)), out)
}
