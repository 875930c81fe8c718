//! Patterns of records: the key that one has, and whether records fit it.

ghost use Rattle.std.specs.Prelude.{◌≡◌, option_map};
ghost use Rattle.std.specs.List.{list_all};
ghost use Rattle.std.specs.Option.{option_copied};
ghost use Rattle.tab_term.specs.Pattern.{matches as matches_of};
ghost use Rattle.tab_term.specs.View.{term};
ghost use Rattle.tab_model.specs.Names.{terms_list};
ghost use Rattle.tab_index.specs.BoundKey.{bound_key as bound_key_of};

use tab_map::Entry;
use tab_records::Records;
use tab_term::{Term, has_wildcard, matches};

/// Returns whether all records of a key's entry fit the pattern.
pub fn fits(entry: &Entry<Term, Records>, pattern: &Term) -> bool
    ensures { result ≡ list_all (matches_of (term pattern.now)) (terms_list entry.now.1) }
{
    for row in entry.pair().1.iter() {
        if !matches(pattern, row) {
            return false;
        }
    }
    true
}

/// The key of the pattern, if it has no `'_'` in it: a record that fits the pattern has that key.
pub fn bound_key(pattern: &Term) -> Option<&Term>
    ensures { option_map term (option_copied result) ≡ bound_key_of (term pattern.now) }
{
    let Term::Tuple(elements) = pattern else {
        return None;
    };
    match elements.as_slice() {
        [_, key, ..] if !has_wildcard(key) => Some(key),
        _ => None,
    }
}
