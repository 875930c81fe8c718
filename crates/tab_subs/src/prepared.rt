//! The items of a commit, ready to be delivered.

ghost use Rattle.std.specs.Prelude.{◌≡◌, ◌+◌, ◌≤◌, map, option_to_list, IfOk, IsSome, length};
ghost use Rattle.tab_subs.specs.Deliveries.{first_of, rest_of};

use std::alloc::{AllocError, Global};
use std::collections::VecDeque;
use std::marker::Model;
use tab_model::SharedItem;
use tab_term::Atom;

/// The items of a commit or of a table's deletion for each session, with all memory that their delivery takes.
#[derive(Drop)]
pub struct Prepared {
    pub(crate) number: u64,
    pub(crate) due: VecDeque<Option<SharedItem>>,
    // Room for the sessions that overflow.
    pub(crate) over: Vec<u32>,
    pub(crate) ended: Option<Atom>,
}

impl Model for Prepared {
    ghost use Rattle.std.specs.Prelude.{◌≡◌, ◌≤◌, [], map, option_to_list, length, vec_capacity};
    ghost use Rattle.std.specs.Coded.{codes};
    ghost use Rattle.tab_term.specs.Code.{terms_code, pairs_code};
    ghost use Rattle.tab_subs.specs.Deliveries.{Owed};

    ghost Value = { Owed };

    ghost coded = { Prim.hlevel (codes, terms_code, pairs_code) };

    ghost view = { λ a.
        record { number = a.number; items = map option_to_list a.due.items; ended = a.ended } };

    ghost invariant = { λ a. (a.over.items ≡ []) × (length a.due.items ≤ vec_capacity a.over) };
}

/// With room for all of them to overflow.
pub fn with_room(
    alloc: Global,
    number: u64,
    due: VecDeque<Option<SharedItem>>,
    ended: Option<Atom>,
) -> Result<Prepared, AllocError>
    ensures { IfOk result
        (λ p. p ≡ record { number = number; items = map option_to_list due.items; ended = ended }) }
{
    let over = Vec::with_capacity(alloc, due.len())?;
    Ok(Prepared {
        number,
        due,
        over,
        ended,
    })
}

/// The item of the next subscriber.
pub fn next_due(due: &mut VecDeque<Option<SharedItem>>) -> Option<SharedItem>
    ensures first { option_to_list result ≡ first_of (map option_to_list due.old.items) }
    ensures rest { map option_to_list due.new.items ≡ rest_of (map option_to_list due.old.items) }
    ensures fewer { IsSome result → length due.new.items + 1 ≤ length due.old.items }
    ensures no_more { length due.new.items ≤ length due.old.items }
{
    due.pop_front().flatten()
}
