//! Terms in few words.

use std::alloc::{AllocError, Global};
use tab_term::{Atom, Term, Terms};

/// A term as a table of tests has it.
pub enum Shape {
    Int(i128),
    /// At most 255 bytes.
    Atom(&'static str),
    Tuple(&'static [Shape]),
    List(&'static [Shape]),
}

/// The term of this shape.
#[cycle(build)]
pub fn build(alloc: Global, shape: &Shape) -> Result<Term, AllocError> {
    match shape {
        Shape::Int(number) => Ok(Term::Int(*number)),
        Shape::Atom(text) => Ok(Term::Atom(atom(alloc, text)?)),
        Shape::Tuple(shapes) => Ok(Term::Tuple(build_all(alloc, shapes)?)),
        Shape::List(shapes) => Ok(Term::List(build_all(alloc, shapes)?)),
    }
}

/// The terms of these shapes.
#[cycle(build)]
pub fn build_all(alloc: Global, shapes: &[Shape]) -> Result<Terms, AllocError> {
    let mut terms = Vec::new(alloc);
    for shape in shapes {
        terms.push(build(alloc, shape)?)?;
    }
    Ok(Terms::from_vec(terms))
}

/// The atom of a text of at most 255 bytes.
pub fn atom(alloc: Global, text: &str) -> Result<Atom, AllocError> {
    if text.len() > 255 {
        return Err(AllocError);
    }
    Atom::from_short_text(alloc, text)
}
