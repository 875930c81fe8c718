//! The entries of a table that a walk passes over.
//!
//! Most records of a table do not fit a query's pattern. Where it ends in a number, those of a row are passed over in one loop that asks for
//! the number alone: the fewer instructions stand between two records, the more of them the processor fetches at once.

ghost use Rattle.std.specs.Prelude.{◌≡◌, ◌≤◌, ◌<◌, [], ◌∷◌, IfSome, MatchOption, length, take};
ghost use Rattle.std.specs.List.{filter};
ghost use Rattle.std.specs.Option.{option_copied};
ghost use Rattle.tab_term.specs.Pattern.{matches};
ghost use Rattle.tab_lists.specs.ByKey.{joined};
ghost use Rattle.tab_lists.specs.Conditions.{AsksFor};

use crate::condition::Condition;
use tab_map::{Entry, Iter};
use tab_records::Records;
use tab_term::{LastNumber, Term};

/// What is asked of each record first, where the condition is a pattern that ends in a number.
pub fn last_number<'a>(condition: Option<&'a Condition>) -> Option<LastNumber<'a>>
    ensures { IfSome result (λ last. AsksFor (option_copied condition.entry) last) }
{
    match condition {
        Some(Condition::Matches(pattern)) => LastNumber::of(pattern),
        _ => None,
    }
}

/// An entry of these before which no record fits the pattern.
pub fn next_candidate<'a>(
    entries: &mut Iter<'a, Term, Records>,
    last: &LastNumber<'_>,
) -> Option<&'a Entry<Term, Records>>
    ensures { MatchOption result
        ((filter (matches last.now) (joined entries.old) ≡ []) × (entries.new ≡ []))
        (λ entry. (length entries.new < length entries.old)
        × (filter (matches last.now) (joined entries.old)
        ≡ filter (matches last.now) (joined (entry.now ∷ entries.new)))) }
{
    entries.nth(passed_over(entries.row(), last))
}

// How many entries of a row come before the first whose record may fit the pattern, or before the first with several records.
#[inline(never)]
fn passed_over(row: &[Entry<Term, Records>], last: &LastNumber<'_>) -> usize
    ensures within { result ≤ length row.now }
    ensures none { filter (matches last.now) (joined (take result row.now)) ≡ [] }
{
    for (n, entry) in row.iter().enumerate() {
        match entry.pair().1.single() {
            Some(record) if last.differs_in(record) => {}
            _ => return n,
        }
    }
    row.len()
}
