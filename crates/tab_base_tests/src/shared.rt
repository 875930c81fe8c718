//! Tests of tab_lists: a list of each form gives its terms, and stays as it was when the map that it was made of changes. And
//! of tab_map, whose maps share an entry.

use std::alloc::{AllocError, Global};
use tab_lists::{AtKeys, Condition, Scope, SharedTerms, Snapshot};
use tab_map::{Entry, Map, Set};
use tab_records::Records;
use tab_term::{Atom, Term, Terms};

/// The form of a list. Its terms are numbers.
enum Form {
    Own(&'static [i128]),
    Entry(i128),
    /// The keys that a transaction sees.
    Keys,
    Records,
    Found(At, Wanted),
}

/// The keys of a query, which searches records as a transaction sees them.
enum At {
    Key(i128),
    All,
    Keys(&'static [i128]),
}

/// The records that a query finds.
enum Wanted {
    Any,
    Number(i128),
    /// Those that have the empty list as their second element, as what is no tuple has.
    Nil,
    /// Those that have a number there.
    NumberThere,
}

/// The records, by key, of a map that has the keys from 1 to 99.
static BEFORE: [(i128, &[i128]); 2] = [(1, &[11, 12]), (3, &[31])];

/// The records that are inserted when it changes. Key 3 is removed.
static CHANGES: [(i128, &[i128]); 2] = [(1, &[19]), (2, &[21, 22])];

/// The records that a transaction left at the keys that it touched.
static OWN: [(i128, &[i128]); 3] = [(2, &[25]), (3, &[]), (100, &[71])];

/// Lists with what they give, and what one gives that is made when the map has changed.
static LISTS: [(Form, &[i128], &[i128]); 16] = [
    (Form::Own(&[3, 1, 2]), &[3, 1, 2], &[3, 1, 2]),
    (Form::Entry(1), &[11, 12], &[19]),
    (Form::Entry(2), &[], &[21, 22]),
    (Form::Entry(3), &[31], &[]),
    (Form::Keys, &[1, 2, 100], &[1, 2, 100]),
    (Form::Records, &[11, 12, 31], &[19, 21, 22]),
    (Form::Found(At::Key(1), Wanted::Any), &[11, 12], &[19]),
    (Form::Found(At::Key(1), Wanted::Number(12)), &[12], &[]),
    (Form::Found(At::Key(1), Wanted::Nil), &[11, 12], &[19]),
    (
        Form::Found(At::All, Wanted::Any),
        &[11, 12, 25, 71],
        &[19, 25, 71],
    ),
    (Form::Found(At::All, Wanted::Number(31)), &[], &[]),
    (Form::Found(At::All, Wanted::Number(25)), &[25], &[25]),
    (Form::Found(At::All, Wanted::NumberThere), &[], &[]),
    (
        Form::Found(At::Keys(&[1, 3, 5, 101]), Wanted::Any),
        &[11, 12, 25, 71],
        &[19, 25, 71],
    ),
    (
        Form::Found(At::Keys(&[5, 100]), Wanted::Any),
        &[25, 71],
        &[25, 71],
    ),
    (
        Form::Found(At::Keys(&[1, 2]), Wanted::Number(12)),
        &[12],
        &[],
    ),
];

fn numbers(alloc: Global, all: &[i128]) -> Result<Terms, AllocError> {
    let mut terms = Vec::new(alloc);
    for number in all {
        terms.push(Term::Int(*number))?;
    }
    Ok(Terms::from_vec(terms))
}

/// Records of these numbers, one after another. A single one is stored directly. Several share those of a `lender` of
/// the same.
fn records_of(alloc: Global, all: &[i128]) -> Result<Records, AllocError> {
    let lender = records_over(alloc, all, None)?;
    records_over(alloc, all, Some(&lender))
}

fn records_over(
    alloc: Global,
    all: &[i128],
    lender: Option<&Records>,
) -> Result<Records, AllocError> {
    let [first, rest @ ..] = all else {
        return Ok(Records::new());
    };
    let mut records = Records::only(Term::Int(*first));
    for number in rest {
        records.insert(alloc, &Term::Int(*number), lender)?;
    }
    Ok(records)
}

fn insert_all(
    alloc: Global,
    map: &mut Map<Term, Records>,
    entries: &[(i128, &[i128])],
) -> Result<(), AllocError> {
    for (key, records) in entries {
        map.insert(alloc, Term::Int(*key), records_of(alloc, records)?)?;
    }
    Ok(())
}

fn map_before(alloc: Global) -> Result<Map<Term, Records>, AllocError> {
    let mut map = Map::new();
    for key in 1..100u32 {
        map.insert(alloc, Term::Int(i128::from(key)), Records::new())?;
    }
    insert_all(alloc, &mut map, &BEFORE)?;
    Ok(map)
}

/// Takes the first record of key 1 away and adds one, in place, before it is inserted again.
fn revise(alloc: Global, map: &mut Map<Term, Records>) -> Result<(), AllocError> {
    let Some(records) = map.get(&Term::Int(1)) else {
        return Ok(());
    };
    let mut left = records.without(alloc, &Term::Int(11))?;
    left.insert(alloc, &Term::Int(17), Some(records))?;
    map.insert(alloc, Term::Int(1), left)
}

fn change(alloc: Global, map: &mut Map<Term, Records>) -> Result<(), AllocError> {
    revise(alloc, map)?;
    insert_all(alloc, map, &CHANGES)?;
    map.remove(alloc, &Term::Int(3))
}

/// The map as a transaction sees it.
fn snapshot(alloc: Global, map: &Map<Term, Records>) -> Result<Snapshot, AllocError> {
    let mut own = Map::new();
    insert_all(alloc, &mut own, &OWN)?;
    Ok(Snapshot::new(own, map.share()?))
}

fn condition(alloc: Global, wanted: &Wanted) -> Result<Condition, AllocError> {
    match wanted {
        Wanted::Any => {
            let wildcard = Atom::new(alloc, "_").map_err(|_| AllocError)?;
            Ok(Condition::Matches(Term::Atom(wildcard)))
        }
        Wanted::Number(number) => Ok(Condition::Matches(Term::Int(*number))),
        Wanted::Nil => Ok(Condition::Has(2, Term::List(numbers(alloc, &[])?))),
        Wanted::NumberThere => Ok(Condition::Has(2, Term::Int(1))),
    }
}

fn keys_of(alloc: Global, all: &[i128]) -> Result<Set<Term>, AllocError> {
    let mut keys = Set::new();
    for key in all {
        keys.insert(alloc, Term::Int(*key))?;
    }
    Ok(keys)
}

/// The entry of a key, if the map has it.
fn entry_of(
    map: &Map<Term, Records>,
    key: i128,
) -> Result<Option<Entry<Term, Records>>, AllocError> {
    match map.get_entry(&Term::Int(key)) {
        Some(entry) => Ok(Some(entry.try_clone()?)),
        None => Ok(None),
    }
}

fn at_keys(alloc: Global, map: &Map<Term, Records>, all: &[i128]) -> Result<Scope, AllocError> {
    let keys = keys_of(alloc, all)?;
    let snapshot = snapshot(alloc, map)?;
    Ok(Scope::Keys(AtKeys { keys, snapshot }))
}

/// The keys of a query; None if the map doesn't have the one key.
fn scope(alloc: Global, map: &Map<Term, Records>, at: &At) -> Result<Option<Scope>, AllocError> {
    match at {
        At::Key(key) => Ok(entry_of(map, *key)?.map(Scope::Key)),
        At::All => Ok(Some(Scope::All(snapshot(alloc, map)?))),
        At::Keys(all) => Ok(Some(at_keys(alloc, map, all)?)),
    }
}

fn own(alloc: Global, all: &[i128]) -> Result<SharedTerms, AllocError> {
    Ok(SharedTerms::from_terms(numbers(alloc, all)?))
}

fn found(
    alloc: Global,
    map: &Map<Term, Records>,
    at: &At,
    wanted: &Wanted,
) -> Result<SharedTerms, AllocError> {
    let condition = condition(alloc, wanted)?;
    match scope(alloc, map, at)? {
        Some(scope) => SharedTerms::from_query(alloc, scope, condition),
        None => own(alloc, &[]),
    }
}

fn entry(alloc: Global, map: &Map<Term, Records>, key: i128) -> Result<SharedTerms, AllocError> {
    match entry_of(map, key)? {
        Some(entry) => Ok(SharedTerms::from_entry(entry)),
        None => own(alloc, &[]),
    }
}

fn list_of(
    alloc: Global,
    map: &Map<Term, Records>,
    form: &Form,
) -> Result<SharedTerms, AllocError> {
    match form {
        Form::Own(all) => own(alloc, all),
        Form::Entry(key) => entry(alloc, map, *key),
        Form::Keys => Ok(SharedTerms::from_keys(snapshot(alloc, map)?)),
        Form::Records => Ok(SharedTerms::from_records(map.share()?)),
        Form::Found(at, wanted) => found(alloc, map, at, wanted),
    }
}

/// Returns whether the list gives these numbers, in this order, and no more.
fn gives(list: &SharedTerms, wanted: &[i128]) -> bool {
    let mut terms = list.iter();
    for number in wanted {
        match terms.next() {
            Some(Term::Int(given)) if *given == *number => {}
            _ => return false,
        }
    }
    terms.next().is_none()
}

/// Returns whether the same list gives these once more, and in memory of its own.
fn copy_gives(alloc: Global, list: &SharedTerms, wanted: &[i128]) -> Result<bool, AllocError> {
    let same = list.try_clone(alloc)?;
    let copy = list.to_terms(alloc)?;
    Ok(gives(&same, wanted) && gives(&SharedTerms::from_terms(copy), wanted))
}

/// Returns whether the list gives these, by itself and as its copies.
fn is_made(alloc: Global, list: SharedTerms, wanted: &[i128]) -> Result<bool, AllocError> {
    Ok(gives(&list, wanted) && copy_gives(alloc, &list, wanted)?)
}

/// Changes the map. Returns whether the list that was made of it before gives the same.
fn is_kept(
    alloc: Global,
    map: &mut Map<Term, Records>,
    list: &SharedTerms,
    before: &[i128],
) -> Result<bool, AllocError> {
    change(alloc, map)?;
    Ok(gives(list, before))
}

/// Returns whether a list of the map gives these.
fn is_new(
    alloc: Global,
    map: &Map<Term, Records>,
    form: &Form,
    after: &[i128],
) -> Result<bool, AllocError> {
    let list = list_of(alloc, map, form)?;
    copy_gives(alloc, &list, after)
}

/// Returns whether a list gives `before`: before the map changes, after that, and without the map. The last two are
/// those of the second of two owners, when the first is gone. A list that is made after the change gives `after`.
fn is_right(
    alloc: Global,
    form: &Form,
    before: &[i128],
    after: &[i128],
) -> Result<bool, AllocError> {
    let mut map = map_before(alloc)?;
    let (list, other) = list_of(alloc, &map, form)?.pair(alloc)?;
    let is_made = is_made(alloc, list, before) == Ok(true);
    let is_kept = is_kept(alloc, &mut map, &other, before) == Ok(true);
    let is_new = is_new(alloc, &map, form, after) == Ok(true);
    drop(map);
    Ok(is_made && is_kept && is_new && gives(&other, before))
}

#[test]
fn lists_stay_as_they_were(rt: HostRuntime) {
    for (line, (form, before, after)) in LISTS.iter().enumerate() {
        let right = is_right(rt.alloc(), form, before, after);
        assert!(rt; right == Ok(true), "line {line}");
    }
}

/// Puts the entries of keys 1 and 3 into another map.
fn lend(
    alloc: Global,
    map: &Map<Term, Records>,
    other: &mut Map<Term, Records>,
) -> Result<(), AllocError> {
    for key in [1, 3] {
        if let Some(entry) = map.get_entry(&Term::Int(key)) {
            other.insert_entry(alloc, entry.try_clone()?)?;
        }
    }
    Ok(())
}

fn has(map: &Map<Term, Records>, wanted: &[i128]) -> Result<bool, AllocError> {
    Ok(gives(&SharedTerms::from_records(map.share()?), wanted))
}

/// A map of keys 1 and 5, and of the entries of another map.
fn map_beside(alloc: Global, map: &Map<Term, Records>) -> Result<Map<Term, Records>, AllocError> {
    let mut other = Map::new();
    insert_all(alloc, &mut other, &[(1, &[15]), (5, &[51])])?;
    lend(alloc, map, &mut other)?;
    Ok(other)
}

/// Changes a map. Returns whether another that shares its entries is the same before and after it.
fn stays(
    alloc: Global,
    map: &Map<Term, Records>,
    other: &mut Map<Term, Records>,
) -> Result<bool, AllocError> {
    let is_whole = has(other, &[11, 12, 31, 51])?;
    insert_all(alloc, other, &[(3, &[39])])?;
    Ok(is_whole && has(map, &[11, 12, 31])?)
}

/// The same for the other one, after all of it when the first map is gone.
fn others_stay(
    alloc: Global,
    mut map: Map<Term, Records>,
    other: &Map<Term, Records>,
) -> Result<bool, AllocError> {
    change(alloc, &mut map)?;
    let right = has(&map, &[19, 21, 22])? && has(other, &[11, 12, 39, 51])?;
    drop(map);
    Ok(right && has(other, &[11, 12, 39, 51])?)
}

fn both_stay(alloc: Global) -> Result<bool, AllocError> {
    let map = map_before(alloc)?;
    let mut other = map_beside(alloc, &map)?;
    let right = stays(alloc, &map, &mut other) == Ok(true);
    Ok(right && others_stay(alloc, map, &other)?)
}

/// Either map keeps its records when the other changes, and when it is gone.
#[test]
fn an_entry_stands_in_two_maps(rt: HostRuntime) {
    assert!(rt; both_stay(rt.alloc()) == Ok(true));
}
