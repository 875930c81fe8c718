//! The frames of the event that the dispatcher has sent last.

ghost use Rattle.std.specs.Prelude.{◌≡◌, ◌++◌, IsTrue, OnOk, Some};
ghost use Rattle.tab_lists.specs.EventTerms.{event_term};
ghost use Rattle.tab_proto.specs.Events.{sent_frames};

use std::alloc::Global;
use std::marker::Model;
use tab_etf::EncodeFault;
use tab_lists::{EventTerm, EventTerms};
use tab_model::{Item, SharedItem};
use tab_proto::{Delivery, append_item};

/// The most bytes of an item whose frames are kept.
const SMALL: u64 = 4_096;

/// The item that was sent last, with its frames. A commit of one change gives all sessions of a level the same item, so it is
/// encoded once for them.
pub struct Encoded {
    item: Option<SharedItem>,
    delivery: Delivery,
    frames: Vec<u8>,
}

// A derived Drop would be expanded, field by field, at each exit of each caller.
impl Drop for Encoded {
    fn drop(self) {
        let Encoded {
            item,
            delivery: _,
            frames,
        } = self;
        drop(item);
        drop(frames);
    }
}

impl Model for Encoded {
    ghost use Rattle.std.specs.Prelude.{◌≡◌, IfSome, Option};
    ghost use Rattle.std.specs.Coded.{codes};
    ghost use Rattle.tab_term.specs.Code.{term_code, terms_code, pairs_code};
    ghost use Rattle.tab_model.specs.declared.data.Item.{Item};
    ghost use Rattle.tab_proto.specs.Events.{sent_frames};

    ghost Value = { Option Item };

    ghost coded = { Prim.hlevel (codes, term_code, terms_code, pairs_code) };

    ghost view = { λ a. a.item };

    ghost invariant = { λ a. IfSome a.item (λ x. a.frames.items ≡ sent_frames a.delivery x) };
}

impl Encoded {
    /// Nothing is sent yet.
    pub fn new(alloc: Global) -> Encoded {
        Encoded {
            item: None,
            delivery: Delivery::Events,
            frames: Vec::new(alloc),
        }
    }

    /// Appends the frames of an item, which are copied if it is the same as the last one.
    pub fn append(
        &mut self,
        item: &SharedItem,
        delivery: Delivery,
        out: &mut Vec<u8>,
    ) -> Result<(), EncodeFault>
        ensures { OnOk result (out.new.items ≡ out.old.items ++ sent_frames delivery item.now) }
    {
        if self.delivery == delivery && is_of(&self.item, item) {
            out.extend_from_slice(self.frames.as_slice())?;
            return Ok(());
        }
        if item.memory() > SMALL || !is_one(item.item()) {
            return append_item(item.item(), delivery, out);
        }
        self.item = None;
        self.frames.clear();
        append_item(item.item(), delivery, &mut self.frames)?;
        out.extend_from_slice(self.frames.as_slice())?;
        self.delivery = delivery;
        self.item = item.try_clone().ok();
        Ok(())
    }
}

/// Returns whether an item is one simple event.
pub fn is_one(item: &Item) -> bool {
    match item {
        Item::Batch(_, events) => match events.as_slice() {
            [event] => event.event().detail.is_none(),
            _ => false,
        },
        _ => false,
    }
}

fn is_of(last: &Option<SharedItem>, item: &SharedItem) -> bool
    ensures { IsTrue result → last.now ≡ Some item.now }
{
    match last {
        Some(last) => is_same(last.item(), item.item()),
        None => false,
    }
}

/// Returns true if both are the same commit's one simple event.
fn is_same(item: &Item, other: &Item) -> bool
    ensures { IsTrue result → item.now ≡ other.now }
{
    match (item, other) {
        (Item::Batch(commit, events), Item::Batch(number, others)) => {
            *commit == *number && are_same(events, others)
        }
        _ => false,
    }
}

fn are_same(events: &EventTerms, others: &EventTerms) -> bool
    ensures { IsTrue result → events.now ≡ others.now }
{
    match (events.as_slice(), others.as_slice()) {
        ([event], [other]) => is_same_event(event.event(), other.event()),
        _ => false,
    }
}

fn is_same_event(event: &EventTerm, other: &EventTerm) -> bool
    ensures { IsTrue result → event_term event.now ≡ event_term other.now }
{
    if event.age != other.age || event.tag != other.tag {
        return false;
    }
    match (&event.detail, &other.detail) {
        (None, None) => event.what == other.what,
        _ => false,
    }
}
