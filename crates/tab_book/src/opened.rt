//! The registers of a book before a type names them.

use crate::log::Logged;
use std::marker::Model;
use tab_post::Channel;

/// The new registers of a book: of its mailboxes, and of its steps. Contracts see which they are.
#[derive(Drop)]
pub struct Opened {
    pub(crate) mailboxes: tab_post::Opened<Channel>,
    pub(crate) steps: tab_post::Opened<Logged>,
}

impl Model for Opened {
    ghost use Rattle.std.specs.Coded.{codes};
    ghost use Rattle.tab_post.specs.Register.{Books};

    ghost Value = { Books };

    ghost coded = { Prim.hlevel codes };

    ghost view = { λ o. record { mailboxes = o.mailboxes; steps = o.steps } };
}

impl Opened {
    /// They take no memory.
    pub fn new() -> Opened {
        Opened {
            mailboxes: tab_post::Opened::new(),
            steps: tab_post::Opened::new(),
        }
    }
}
