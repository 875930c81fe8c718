//! The records of the key that a walk came to last.

ghost use Rattle.std.specs.Prelude.{◌≡◌, [], ◌∷◌, MatchOption};
ghost use Rattle.std.specs.Option.{option_copied};
ghost use Rattle.tab_term.specs.Data.{terms_list};
ghost use Rattle.tab_term.specs.View.{term};
ghost use Rattle.tab_lists.specs.Conditions.{chosen, is_chosen};
ghost use Rattle.tab_lists.specs.Lists.{near_of};

use crate::condition::Condition;
use tab_records::Records;
use tab_term::Term;

// The first of these terms that meets the condition, where there is one. Inlined, it would make a call of `next_near`, which
// mostly finds nothing near.
#[inline(never)]
fn next_chosen<'a>(
    near: &mut tab_records::Iter<'a>,
    condition: Option<&Condition>,
) -> Option<&'a Term>
    ensures { MatchOption result
        ((chosen (option_copied condition.entry) near.old ≡ []) × (near.new ≡ []))
        (λ first. chosen (option_copied condition.entry) near.old
        ≡ term first.now ∷ chosen (option_copied condition.entry) near.new) }
{
    let Some(condition) = condition else {
        return near.next();
    };
    while let Some(first) = near.next() {
        if condition.is_met_by(first) {
            return Some(first);
        }
    }
    None
}

/// The first of what is left near, if anything is.
pub fn next_near<'a>(
    near: &mut Option<tab_records::Iter<'a>>,
    condition: Option<&Condition>,
) -> Option<&'a Term>
    ensures { MatchOption result
        ((chosen (option_copied condition.entry) (near_of near.old) ≡ []) × (near_of near.new ≡ []))
        (λ first. chosen (option_copied condition.entry) (near_of near.old)
        ≡ term first.now ∷ chosen (option_copied condition.entry) (near_of near.new)) }
{
    next_chosen(near.as_mut()?, condition)
}

// Whether a walk gives the record.
#[inline(always)]
fn is_given(row: &Term, condition: Option<&Condition>) -> bool
    ensures { result ≡ is_chosen (option_copied condition.entry) (term row.now) }
{
    match condition {
        Some(condition) => condition.is_met_by(row),
        None => true,
    }
}

/// The first of one key's records that a walk gives. One alone, as a set has, is looked at where it stands, with no iterator;
/// of several the others stay near. It stands in the walk's loop, as `is_given` does.
#[inline(always)]
pub fn first_given<'a>(
    near: &mut Option<tab_records::Iter<'a>>,
    records: &'a Records,
    condition: Option<&Condition>,
) -> Option<&'a Term>
    requires { near_of near.old ≡ [] }
    ensures { MatchOption result
        ((chosen (option_copied condition.entry) (terms_list records.now) ≡ [])
        × (near_of near.new ≡ []))
        (λ first. chosen (option_copied condition.entry) (terms_list records.now)
        ≡ term first.now ∷ chosen (option_copied condition.entry) (near_of near.new)) }
{
    match records.single() {
        Some(row) if is_given(row, condition) => Some(row),
        Some(_) => None,
        None => first_of_several(near, records, condition),
    }
}

// Inlined, it would make a walk over keys of one record save registers for it.
#[inline(never)]
fn first_of_several<'a>(
    near: &mut Option<tab_records::Iter<'a>>,
    records: &'a Records,
    condition: Option<&Condition>,
) -> Option<&'a Term>
    ensures { MatchOption result
        ((chosen (option_copied condition.entry) (terms_list records.now) ≡ [])
        × (near_of near.new ≡ []))
        (λ first. chosen (option_copied condition.entry) (terms_list records.now)
        ≡ term first.now ∷ chosen (option_copied condition.entry) (near_of near.new)) }
{
    *near = Some(records.iter());
    next_near(near, condition)
}
