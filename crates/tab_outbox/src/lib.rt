//! Outboxes: items are put into one for a subscriber, one after another, up to a capacity.

#![tactic(auto)]

mod mailbox;
mod post;
mod refused;
mod ring;

pub use mailbox::{Mailbox, Met};
pub use post::Post;
pub use refused::Refused;
pub use ring::RingPost;
pub use tab_events::Item;
pub use tab_model::SharedItem;
