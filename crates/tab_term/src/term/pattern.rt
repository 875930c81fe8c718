//! Patterns of `match_object`, as the Mnesia Reference Manual has them: the atom `'_'` fits every term.

ghost use Rattle.std.specs.Prelude.{◌≡◌, IsTrue, IsFalse};
ghost use Rattle.tab_term.specs.Data.{atom};
ghost use Rattle.tab_term.specs.View.{term, terms};
ghost use Rattle.tab_term.specs.Pattern.{matches as matches_of, all_match as all_match_of, has_wildcard as has_wildcard_of, any_wildcard as any_wildcard_of, is_wildcard as is_wildcard_of};

use crate::atom::Atom;
use crate::term::{Term, Terms};

fn is_wildcard(name: &Atom) -> bool
    ensures { result ≡ is_wildcard_of name.now }
{
    matches!(name.as_str().as_bytes(), [b'_'])
}

/// Whether the term fits the pattern: the pattern is `'_'`; or both are tuples, or both are lists, of one length that
/// fit element by element; or both are equal. A `'_'` inside a map is an atom like any other.
#[inline(always)]
pub fn matches(pattern: &Term, subject: &Term) -> bool
    ensures { result ≡ matches_of (term pattern.now) (term subject.now) }
{
    if differ_at_end(pattern, subject) {
        return false;
    }
    fits(pattern, subject)
}

/// Whether the last elements tell that a tuple does not fit. Most records are passed over by that, so it stands in the caller's loop.
#[inline(always)]
fn differ_at_end(pattern: &Term, subject: &Term) -> bool
    ensures { IsTrue result → IsFalse (matches_of (term pattern.now) (term subject.now)) }
{
    let (Term::Tuple(patterns), Term::Tuple(subjects)) = (pattern, subject) else {
        return false;
    };
    differ_at(patterns, subjects, patterns.items.len().saturating_sub(1))
}

/// Whether the elements at this place tell it.
#[inline(always)]
fn differ_at(patterns: &Terms, subjects: &Terms, n: usize) -> bool
    ensures { IsTrue result → IsFalse (all_match_of patterns.now subjects.now) }
{
    let Some(pattern) = patterns.items.as_slice().get(n) else {
        return false;
    };
    let Some(subject) = subjects.items.as_slice().get(n) else {
        return false;
    };
    is_another(pattern, subject)
}

/// Whether the pattern is a number or a name, and the term another.
#[inline(always)]
fn is_another(pattern: &Term, subject: &Term) -> bool
    ensures { IsTrue result → IsFalse (matches_of (term pattern.now) (term subject.now)) }
{
    if let Term::Int(number) = pattern {
        return match subject {
            Term::Int(other) => *number != *other,
            _ => true,
        };
    }
    match pattern {
        Term::Atom(name) => is_another_than_name(name, subject),
        _ => false,
    }
}

/// Whether the name is no `'_'`, and the term another.
fn is_another_than_name(name: &Atom, subject: &Term) -> bool
    ensures { IsTrue result → IsFalse (matches_of (atom name.now) (term subject.now)) }
{
    if is_wildcard(name) {
        return false;
    }
    match subject {
        Term::Atom(other) => name != other,
        _ => true,
    }
}

#[cycle(matching)]
fn fits(pattern: &Term, subject: &Term) -> bool
    ensures { result ≡ matches_of (term pattern.now) (term subject.now) }
{
    match (pattern, subject) {
        (Term::Atom(name), other) => is_wildcard(name) || pattern == other,
        (Term::Tuple(patterns), Term::Tuple(subjects)) => all_match(patterns, subjects),
        (Term::List(patterns), Term::List(subjects)) => all_match(patterns, subjects),
        _ => pattern == subject,
    }
}

/// `matches` that makes no call for a number, which is what a pattern most often binds.
#[inline]
#[cycle(matching)]
fn element_matches(pattern: &Term, subject: &Term) -> bool
    ensures { result ≡ matches_of (term pattern.now) (term subject.now) }
{
    match (pattern, subject) {
        (Term::Int(x), Term::Int(y)) => *x == *y,
        _ => fits(pattern, subject),
    }
}

#[cycle(matching)]
fn all_match(patterns: &Terms, subjects: &Terms) -> bool
    ensures { result ≡ all_match_of patterns.now subjects.now }
{
    let (patterns, subjects) = (patterns.items.as_slice(), subjects.items.as_slice());
    if patterns.len() != subjects.len() {
        return false;
    }
    // Records of one table are the same in front, and so are its patterns.
    for i in (0..patterns.len()).rev() {
        if !element_matches(&patterns[i], &subjects[i]) {
            return false;
        }
    }
    true
}

/// Whether the atom `'_'` stands in the pattern at any depth, not looking into maps. Where it stands in the key of a
/// pattern, the pattern's lock is the whole table's.
#[cycle(wildcards)]
pub fn has_wildcard(pattern: &Term) -> bool
    ensures { result ≡ has_wildcard_of (term pattern.now) }
{
    match pattern {
        Term::Atom(name) => is_wildcard(name),
        Term::Tuple(elements) | Term::List(elements) => any_wildcard(elements),
        _ => false,
    }
}

#[cycle(wildcards)]
fn any_wildcard(elements: &Terms) -> bool
    ensures { result ≡ any_wildcard_of elements.now }
{
    for element in &elements.items {
        if has_wildcard(element) {
            return true;
        }
    }
    false
}
