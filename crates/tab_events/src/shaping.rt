//! Events as terms, given by their parts.

ghost use Rattle.std.specs.Prelude.{◌≡◌, IfOk};
ghost use Rattle.tab_term.specs.Data.{atom, pair as pair_of};
ghost use Rattle.tab_term.specs.View.{term};
ghost use Rattle.tab_lists.specs.EventTerms.{event_body, event_term};
ghost use Rattle.tab_model.specs.Shapes.{shape as shape_of, simple as simple_of, detailed_term as detailed_of};

use std::alloc::{AllocError, Global};
use tab_lists::{EventTerm, Tag};
use tab_model::{Change, Event, Level};
use tab_term::{Atom, Term, Terms};

/// The term of an event at a level. The records before are shared with the event.
pub fn shape(alloc: Global, event: &Event, level: Level) -> Result<EventTerm, AllocError>
    ensures { IfOk result (λ t. event_term t ≡ shape_of level event.now) }
{
    match level {
        Level::Simple => simple(alloc, &event.change, event.age),
        Level::Detailed => detailed(alloc, event),
    }
}

fn simple(alloc: Global, change: &Change, age: u64) -> Result<EventTerm, AllocError>
    ensures { IfOk result (λ t. event_body t ≡ simple_of change.now age) }
{
    let (tag, what) = match change {
        Change::Write(row) => (Tag::Write, row.try_clone(alloc)?),
        Change::Delete(table, key) => (Tag::Delete, place(alloc, table, key)?),
        Change::DeleteObject(row) => (Tag::DeleteObject, row.try_clone(alloc)?),
    };
    Ok(EventTerm::simple(tag, what, age))
}

/// The deletion of a record has the tag of a key's.
fn detailed(alloc: Global, event: &Event) -> Result<EventTerm, AllocError>
    ensures { IfOk result
        (λ t. event_body t
        ≡ detailed_of event.now.change event.now.tab event.now.old event.now.age) }
{
    let (tag, what) = match &event.change {
        Change::Write(row) => (Tag::Write, row.try_clone(alloc)?),
        Change::Delete(table, key) => (Tag::Delete, place(alloc, table, key)?),
        Change::DeleteObject(row) => (Tag::Delete, row.try_clone(alloc)?),
    };
    let table = event.tab.try_clone(alloc)?;
    let old = event.old.try_clone(alloc)?;
    Ok(EventTerm::detailed(tag, table, what, old, event.age))
}

/// `{Tab, Key}`.
fn place(alloc: Global, table: &Atom, key: &Term) -> Result<Term, AllocError>
    ensures { IfOk result (λ t. term t ≡ pair_of (atom table.now) (term key.now)) }
{
    let mut parts = Vec::with_capacity(alloc, 2)?;
    parts.push_reserved(Term::Atom(table.try_clone(alloc)?));
    parts.push_reserved(key.try_clone(alloc)?);
    Ok(Term::Tuple(Terms::from_vec(parts)))
}
