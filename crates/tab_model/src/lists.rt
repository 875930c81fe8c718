//! Lists that stand inside the data, each seen as a plain list.
ghost use Rattle.std.specs.Prelude.{◌≡◌, IfOk, IfSome};

use crate::data::{Move, Part};
use crate::logged_reply::LoggedReply;
use std::alloc::{AllocError, Global};
use std::marker::Model;
use std::sync::Arc;
use tab_term::Atom;

/// Names in order.
#[derive(Drop)]
pub struct Atoms {
    pub items: Vec<Atom>,
}

impl Model for Atoms {
    ghost use Rattle.std.specs.Prelude.{List, ℕ};

    ghost Value = { List (List ℕ) };

    ghost view = { λ a. a.items.items };
}

/// Positions of attributes.
#[derive(Drop)]
pub struct Numbers {
    pub items: Vec<u64>,
}

impl Model for Numbers {
    ghost use Rattle.std.specs.Prelude.{List, ℕ};

    ghost Value = { List ℕ };

    ghost view = { λ a. a.items.items };
}

/// The numbers of sessions.
#[derive(Drop)]
pub struct Sessions {
    pub items: Vec<u32>,
}

impl Model for Sessions {
    ghost use Rattle.std.specs.Prelude.{List, ℕ};

    ghost Value = { List ℕ };

    ghost view = { λ a. a.items.items };
}

/// What a transaction did, in order.
#[derive(Drop)]
pub struct Moves {
    pub items: Vec<Move>,
}

impl Model for Moves {
    ghost use Rattle.std.specs.Prelude.{List};
    ghost use Rattle.tab_model.specs.declared.data.Move.{Move};
    ghost use Rattle.std.specs.Coded.{codes};
    ghost use Rattle.tab_term.specs.Code.{terms_code, pairs_code};

    ghost Value = { List Move };

    ghost coded = { Prim.hlevel (codes, terms_code, pairs_code) };

    ghost view = { λ a. a.items.items };
}

/// What a transaction was told: None for an abort.
#[derive(Drop)]
pub struct Replies {
    pub items: Vec<Option<LoggedReply>>,
}

impl Model for Replies {
    ghost use Rattle.std.specs.Prelude.{List, Option};
    ghost use Rattle.tab_model.specs.declared.data.Reply.{Reply};
    ghost use Rattle.std.specs.Coded.{codes};
    ghost use Rattle.tab_term.specs.Code.{terms_code, pairs_code};

    ghost Value = { List (Option Reply) };

    ghost coded = { Prim.hlevel (codes, terms_code, pairs_code) };

    ghost view = { λ a. a.items.items };
}

/// The parts of a one-shot, behind a count of those who hold them: its command, and the driver of its attempts.
#[derive(Drop)]
pub struct Parts {
    items: Arc<Vec<Part>, Global>,
}

impl Model for Parts {
    ghost use Rattle.std.specs.Prelude.{List};
    ghost use Rattle.tab_model.specs.declared.data.Part.{Part};
    ghost use Rattle.std.specs.Coded.{codes};
    ghost use Rattle.tab_term.specs.Code.{terms_code, pairs_code};

    ghost Value = { List Part };

    ghost coded = { Prim.hlevel (codes, terms_code, pairs_code) };

    ghost view = { λ a. a.items.value.items };
}

impl Parts {
    /// These parts, which no one else holds.
    pub fn new(alloc: Global, items: Vec<Part>) -> Result<Parts, AllocError>
        ensures { IfOk result (λ parts. parts ≡ items.items) }
    {
        Ok(Parts {
            items: Arc::new(alloc, items)?,
        })
    }

    /// The same parts. It takes no memory: the error is a count of owners that is full, at 2^63.
    pub fn share(&self) -> Result<Parts, AllocError>
        ensures { IfOk result (λ parts. parts ≡ self.now) }
    {
        Ok(Parts {
            items: Arc::try_clone(&self.items)?,
        })
    }

    /// The parts in order.
    pub fn as_slice(&self) -> &[Part]
        ensures { result.now ≡ self.now }
    {
        self.items.as_slice()
    }

    /// The parts, if no one else holds them.
    pub fn into_vec(self) -> Option<Vec<Part>>
        ensures { IfSome result (λ parts. parts.items ≡ self) }
    {
        let Parts { items } = self;
        Arc::into_inner(items)
    }
}
