//! Records in entries of their own, in a set and in a bag.
use std::alloc::{AllocError, Global};
use std::sync::Wait;
use tab_model::OnlyRecord;
use tab_rows::{Kind, Rows, Update};
use tab_term::{Term, Terms};
use tab_test_tools::atom;

fn record(alloc: Global, value: i128) -> Result<Term, AllocError> {
    let mut row = Vec::with_capacity(alloc, 3)?;
    row.push_reserved(Term::Atom(atom(alloc, "t")?));
    row.push_reserved(Term::Int(1));
    row.push_reserved(Term::Int(value));
    Ok(Term::Tuple(Terms::from_vec(row)))
}

fn update_to(alloc: Global, value: i128) -> Result<Update, AllocError> {
    Ok(Update::only(OnlyRecord::new(alloc, record(alloc, value)?)?))
}

fn update(alloc: Global, rows: &mut Rows, value: i128) -> Result<(), AllocError> {
    rows.update(alloc, &update_to(alloc, value)?, None)
}

/// The rows of a table to which two records are written, the second twice.
fn size_of(alloc: Global, kind: Kind) -> Result<usize, AllocError> {
    let mut rows = Rows::new(kind);
    for value in [1, 2, 2] {
        update(alloc, &mut rows, value)?;
    }
    Ok(rows.size())
}

/// The same by one call.
fn size_at_once<R: Wait>(rt: &R, alloc: Global, kind: Kind) -> Result<usize, AllocError> {
    let mut rows = Rows::new(kind);
    let mut updates = Vec::new(alloc);
    for value in [1, 2, 2] {
        updates.push(update_to(alloc, value)?)?;
    }
    rows.update_all(rt, alloc, updates.as_slice(), None)?;
    Ok(rows.size())
}

#[test]
fn several_updates_are_made_at_once(rt: HostRuntime) {
    assert!(rt; size_at_once(&rt, rt.alloc(), Kind::Set) == Ok(1));
    assert!(rt; size_at_once(&rt, rt.alloc(), Kind::Bag) == Ok(2));
}

#[test]
fn a_bag_keeps_what_a_set_replaces(rt: HostRuntime) {
    assert!(rt; size_of(rt.alloc(), Kind::Set) == Ok(1));
    assert!(rt; size_of(rt.alloc(), Kind::Bag) == Ok(2));
}
