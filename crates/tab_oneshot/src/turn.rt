use tab_model::SharedReply;

/// The driver's next action after an answer.
pub enum Turn {
    /// The next part.
    GoOn,
    /// The part after the end of the level.
    Skip,
    /// Nothing: this is the reply.
    Over(SharedReply),
    /// The first part again.
    Restart,
}
