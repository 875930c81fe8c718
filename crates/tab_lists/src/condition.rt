//! What a record has to meet to be found.

ghost use Rattle.std.specs.Prelude.{◌≡◌, ℕ, ◌-◌};
ghost use Rattle.tab_term.specs.Data.{list, none};
ghost use Rattle.tab_term.specs.Same.{same};
ghost use Rattle.tab_term.specs.View.{term, terms};
ghost use Rattle.tab_lists.specs.Conditions.{meets};
ghost use Rattle.tab_term.specs.Tuples.{nth, element};

use tab_term::{Term, matches};

/// A condition on records.
pub enum Condition {
    /// It fits the pattern, in which `'_'` stands for any term.
    Matches(Term),
    /// It has the value at the position, counted from 1.
    Has(u64, Term),
}

// A derived drop would be expanded, variant by variant, at each exit of each function that holds a condition.
impl Drop for Condition {
    fn drop(self) {
        match self {
            Condition::Matches(pattern) => drop(pattern),
            Condition::Has(_, value) => drop(value),
        }
    }
}

impl Condition {
    /// Whether the record meets it. A walk asks it of each record, so it stands in the walk's loop.
    #[inline(always)]
    pub(crate) fn is_met_by(&self, row: &Term) -> bool
        ensures { result ≡ meets self.now (term row.now) }
    {
        match self {
            Condition::Matches(pattern) => matches(pattern, row),
            Condition::Has(position, value) => has_value(row, *position, value),
        }
    }
}

fn has_value(row: &Term, position: u64, value: &Term) -> bool
    ensures { result ≡ same (element position (term row.now)) (term value.now) }
{
    match elements(row).get(position.saturating_sub(1) as usize) {
        Some(found) => found == value,
        None => is_nil(value),
    }
}

fn elements(row: &Term) -> &[Term]
    ensures { (position : ℕ)
        → nth (position - 1) (terms result.now) ≡ element position (term row.now) }
{
    match row {
        Term::Tuple(elements) => elements.as_slice(),
        _ => &[],
    }
}

fn is_nil(value: &Term) -> bool
    ensures { result ≡ same (list none) (term value.now) }
{
    match value {
        Term::List(items) => items.as_slice().is_empty(),
        _ => false,
    }
}
