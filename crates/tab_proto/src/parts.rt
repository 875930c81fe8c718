//! The parts of a one-shot from the terms of its list.

ghost use Rattle.std.specs.Prelude.{◌≡◌, ◌++◌, ◌∷◌, [], OnOk, true, IsFalse};
ghost use Rattle.tab_term.specs.Data.{atom, none, one_more, pair};
ghost use Rattle.tab_term.specs.View.{term, terms};
ghost use Rattle.tab_proto.specs.FirstWords.{unary_text};
ghost use Rattle.tab_proto.specs.Commands.{is_part};
ghost use Rattle.tab_proto.specs.Reading.{is_unary_part, is_parts_list, is_part_term, are_parts, is_read_of, is_ternary, RefusesOnlyIf, SaysOperations, AddsParts};

use crate::arguments::elements_of;
use crate::call::{Arguments, Call, call_of};
use crate::fault::ProtoFault;
use crate::first_words::{Unary, unary_of};
use crate::operations::{index_operation, read_operation, unary_operation};
use tab_model::Part;
use tab_term::{Atom, Term, Terms};

/// Adds the parts that these terms say.
#[cycle(parts)]
#[tactic(auto, using(tab_term::proofs::Lists::weight_at))]
pub fn push_parts(members: Terms, parts: &mut Vec<Part>) -> Result<(), ProtoFault>
    ensures ok { OnOk result (AddsParts parts.old.items parts.new.items members) }
    ensures bad { RefusesOnlyIf (IsFalse (are_parts members)) result }
{
    for member in members.into_vec() {
        push_part(member, parts)?;
    }
    Ok(())
}

#[cycle(parts)]
fn push_part(member: Term, parts: &mut Vec<Part>) -> Result<(), ProtoFault>
    ensures ok { OnOk result
        (AddsParts parts.old.items parts.new.items (one_more (term member) none)) }
    ensures bad { RefusesOnlyIf (IsFalse (is_part_term (term member))) result }
{
    let Call { word, arguments } = call_of(member)?;
    match arguments {
        Arguments::One(argument) => push_unary(&word, argument, parts),
        Arguments::Two(table, key) => push(Part::Do(read_operation(&word, table, key)?), parts),
        Arguments::Three(table, value, attribute) => push(
            Part::Do(index_operation(word.as_str(), table, value, attribute)?),
            parts,
        ),
    }
}

#[cycle(parts)]
fn push_unary(word: &Atom, argument: Term, parts: &mut Vec<Part>) -> Result<(), ProtoFault>
    ensures ok { OnOk result
        (AddsParts parts.old.items parts.new.items
        (one_more (pair (atom word.now) (term argument)) none)) }
    ensures bad { RefusesOnlyIf
        (IsFalse (is_part_term (pair (atom word.now) (term argument)))) result }
{
    match unary_of(word.as_str()) {
        Some(Unary::Abort) => push(Part::Abort(argument), parts),
        Some(Unary::Transaction) => push_inner(argument, parts),
        Some(word) => push(Part::Do(unary_operation(word, argument)?), parts),
        None => Err(ProtoFault::BadCommand),
    }
}

/// An inner transaction.
#[cycle(parts)]
fn push_inner(argument: Term, parts: &mut Vec<Part>) -> Result<(), ProtoFault>
    ensures ok { OnOk result
        (AddsParts parts.old.items parts.new.items
        (one_more (pair (atom (unary_text Unary.Transaction)) (term argument)) none)) }
    ensures bad { RefusesOnlyIf (IsFalse (is_parts_list (term argument))) result }
{
    let members = elements_of(argument)?;
    push(Part::Open, parts)?;
    push_parts(members, parts)?;
    push(Part::Close, parts)
}

fn push(part: Part, parts: &mut Vec<Part>) -> Result<(), ProtoFault>
    ensures ok { OnOk result (parts.new.items ≡ parts.old.items ++ part ∷ []) }
    ensures memory { RefusesOnlyIf ⊥ result }
{
    parts.push(part)?;
    Ok(())
}
