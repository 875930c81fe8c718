//! The markers that begin and end a subscription's events.

ghost use Rattle.std.specs.Prelude.{◌≡◌, option_map};
ghost use Rattle.std.specs.List.{list_all};
ghost use Rattle.std.specs.Option.{option_copied};
ghost use Rattle.tab_term.specs.View.{term, terms};
ghost use Rattle.tab_model.specs.Names.{terms_list};
ghost use Rattle.tab_events.specs.Marks.{is_row_of as is_row_of_table, is_level as is_level_of, is_ending as is_ending_of, is_named as is_named_of, is_commit as is_commit_of, rows_in as rows_in_term, dumped as dumped_of, is_overflow as is_overflow_of, is_end_mark as is_end_mark_of};

use tab_term::{Atom, Term};

/// The records of a dump marker of the table: `{mnesia_table_begin, Tab, Level, Records}`.
pub fn dumped<'a>(table: &Atom, told: &'a Term) -> Option<&'a [Term]>
    ensures { option_map (λ rs. terms_list (terms rs)) (option_copied result)
        ≡ dumped_of table.now (term told.now) }
{
    let Term::Tuple(parts) = told else {
        return None;
    };
    let [word, name, level, records] = parts.as_slice() else {
        return None;
    };
    if is_named("mnesia_table_begin", word) && is_named(table.as_str(), name) && is_level(level) {
        return rows_in(table, records);
    }
    None
}

/// `{mnesia_overflow, N}`.
pub fn is_overflow(told: &Term) -> bool
    ensures { result ≡ is_overflow_of (term told.now) }
{
    let Term::Tuple(parts) = told else {
        return false;
    };
    match parts.as_slice() {
        [word, commit] => is_named("mnesia_overflow", word) && is_commit(commit),
        _ => false,
    }
}

/// `{mnesia_table_end, Tab, Ending}`.
pub fn is_end_mark(table: &Atom, told: &Term) -> bool
    ensures { result ≡ is_end_mark_of table.now (term told.now) }
{
    let Term::Tuple(parts) = told else {
        return false;
    };
    match parts.as_slice() {
        [word, name, ending] => {
            is_named("mnesia_table_end", word)
                && is_named(table.as_str(), name)
                && is_ending(ending)
        }
        _ => false,
    }
}

fn rows_in<'a>(table: &Atom, records: &'a Term) -> Option<&'a [Term]>
    ensures { option_map (λ rs. terms_list (terms rs)) (option_copied result)
        ≡ rows_in_term table.now (term records.now) }
{
    let Term::List(records) = records else {
        return None;
    };
    let records = records.as_slice();
    if !are_rows_of(table, records) {
        return None;
    }
    Some(records)
}

fn are_rows_of(table: &Atom, records: &[Term]) -> bool
    ensures { result ≡ list_all (is_row_of_table table.now) (terms_list (terms records.now)) }
{
    for row in records {
        if !is_row_of(table, row) {
            return false;
        }
    }
    true
}

/// A tuple of arity 3 or more that begins with the table's name.
fn is_row_of(table: &Atom, row: &Term) -> bool
    ensures { result ≡ is_row_of_table table.now (term row.now) }
{
    let Term::Tuple(elements) = row else {
        return false;
    };
    match elements.as_slice() {
        [Term::Atom(name), _, _, ..] => name == table,
        _ => false,
    }
}

fn is_named(name: &str, held: &Term) -> bool
    ensures { result ≡ is_named_of name.now (term held.now) }
{
    match held {
        Term::Atom(word) => word.as_str() == name,
        _ => false,
    }
}

fn is_level(held: &Term) -> bool
    ensures { result ≡ is_level_of (term held.now) }
{
    is_named("simple", held) || is_named("detailed", held)
}

fn is_ending(held: &Term) -> bool
    ensures { result ≡ is_ending_of (term held.now) }
{
    is_named("unsubscribed", held) || is_named("deleted", held)
}

/// The number of a commit, from 1 on.
fn is_commit(held: &Term) -> bool
    ensures { result ≡ is_commit_of (term held.now) }
{
    match held {
        Term::Int(number) => *number >= 1,
        _ => false,
    }
}
