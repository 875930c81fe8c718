//! What a session asks.

use crate::data::Command;

/// What a session asks of tables. Who joins brings a `P`: the post that its items go into, where there is one.
#[derive(Drop)]
pub enum Ask<P> {
    /// Takes a session number greater than all that joined before. The post is empty.
    Join(P),
    /// Ends the session's transaction and the session.
    Leave,
    /// Asks again for the lock that the session waits for.
    Retry,
    /// Takes the next item of the session's post.
    Take,
    /// A command of the session.
    Do(Command),
}
