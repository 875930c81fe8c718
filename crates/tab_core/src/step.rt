//! What a step replies, and what it adds to the log.

ghost use Rattle.std.specs.Prelude.{◌≡◌, None, option_map};
ghost use Rattle.tab_core.specs.Owing.{with_overflowed as with_overflowed_of};

use tab_model::{Entry, Reply, Sessions, SharedReply};

/// The reply of a step, and its entry of the log.
#[derive(Drop)]
pub struct Stepped {
    pub reply: SharedReply,
    pub entry: Option<Entry>,
}

impl Stepped {
    /// A step that adds nothing to the log.
    pub fn without_entry(reply: Reply) -> Stepped
        ensures { result ≡ record { reply = reply; entry = None } }
    {
        Stepped::told(SharedReply::new(reply))
    }

    /// The reply of an operation, which its trace may share.
    pub fn told(reply: SharedReply) -> Stepped
        ensures { result ≡ record { reply = reply; entry = None } }
    {
        Stepped { reply, entry: None }
    }

    /// Returns only the reply.
    pub fn into_reply(self) -> SharedReply
        ensures { result ≡ self.reply }
    {
        let Stepped { reply, entry } = self;
        drop(entry);
        reply
    }
}

/// The step with those whose posts refused its items.
pub(crate) fn with_overflowed(stepped: Stepped, over: Sessions) -> Stepped
    ensures { result
        ≡ record {
          reply = stepped.reply;
          entry = option_map (with_overflowed_of over) stepped.entry;
        } }
{
    let Stepped { reply, entry } = stepped;
    let Some(entry) = entry else {
        return Stepped { reply, entry: None };
    };
    Stepped {
        reply,
        entry: Some(overflowed_in(entry, over)),
    }
}

fn overflowed_in(entry: Entry, over: Sessions) -> Entry
    ensures { result ≡ with_overflowed_of over entry }
{
    match entry {
        Entry::Committed {
            number,
            session,
            age,
            moves,
            told,
            overflowed: _,
        } => Entry::Committed {
            number,
            session,
            age,
            moves,
            told,
            overflowed: over,
        },
        Entry::Changed(schema, _) => Entry::Changed(schema, over),
        entry => entry,
    }
}
