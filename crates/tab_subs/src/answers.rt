//! What a session is answered.
use tab_model::SharedItem;

/// The result of a Take: the next item, else the number of an overflow, which is reported once, else nothing.
#[derive(Drop)]
pub enum Taken {
    Item(SharedItem),
    Overflow(u64),
    Empty,
}

/// The result of a marker: the post took it, or refused it.
#[derive(Clone, Copy, Debug, PartialEq, Eq)]
pub enum Marked {
    Put,
    Full,
}
