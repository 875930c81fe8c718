//! Items that were not taken.
use tab_model::SharedItem;

/// An item that was not taken, and why: the post is full, or nobody takes from it any more.
#[derive(Drop)]
pub enum Refused {
    Full(SharedItem),
    Gone(SharedItem),
}
