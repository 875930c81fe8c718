//! What a term was to a mirror.

/// The effect of a term on a mirror.
#[derive(Clone, Copy, Debug, PartialEq, Eq)]
pub enum Mirrored {
    /// A dump marker of its table, whose records it has now.
    Begun,
    /// An event of its table.
    Applied,
    /// An end marker of its table, or an overflow: it has no rows now.
    Ended,
    /// Nothing to it.
    Other,
}
