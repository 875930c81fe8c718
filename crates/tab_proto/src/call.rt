//! A tuple that begins with a word, as the calls of the manuals do: the word, and the arguments after it.

ghost use Rattle.std.specs.Prelude.{◌≡◌, ◌<◌, ◌+◌, ◌-◌, IfOk, OnErr, IsFalse, slice_index_or, take};
ghost use Rattle.std.specs.Vec.{vec_len};
ghost use Rattle.tab_term.specs.Data.{atom, pair, is_atom};
ghost use Rattle.tab_term.specs.View.{term};
ghost use Rattle.tab_proto.specs.Reading.{call_term, is_call_term, is_pair};

use crate::fault::NoCommand;
use tab_term::{Atom, Term};

/// One to three arguments; no command has more.
#[derive(Drop)]
pub enum Arguments {
    One(Term),
    Two(Term, Term),
    Three(Term, Term, Term),
}

#[derive(Drop)]
pub struct Call {
    pub word: Atom,
    pub arguments: Arguments,
}

/// Takes a term apart, and copies nothing.
pub fn call_of(held: Term) -> Result<Call, NoCommand>
    ensures ok { IfOk result (λ call. term held ≡ call_term call) }
    ensures bad { OnErr result (IsFalse (is_call_term (term held))) }
{
    let Some(parts) = held.into_tuple() else {
        return Err(NoCommand);
    };
    let mut parts = parts.into_vec();
    match parts.len() {
        2 => {
            let argument = last(&mut parts);
            worded(last(&mut parts), Arguments::One(argument))
        }
        3 => {
            let second = last(&mut parts);
            let first = last(&mut parts);
            worded(last(&mut parts), Arguments::Two(first, second))
        }
        4 => {
            let third = last(&mut parts);
            let second = last(&mut parts);
            let first = last(&mut parts);
            worded(last(&mut parts), Arguments::Three(first, second, third))
        }
        _ => Err(NoCommand),
    }
}

/// Takes a pair apart.
pub fn pair_of(held: Term) -> Result<(Term, Term), NoCommand>
    ensures ok { IfOk result (λ p. term held ≡ pair (term p.0) (term p.1)) }
    ensures bad { OnErr result (IsFalse (is_pair (term held))) }
{
    let Some(parts) = held.into_tuple() else {
        return Err(NoCommand);
    };
    let mut parts = parts.into_vec();
    if parts.len() != 2 {
        return Err(NoCommand);
    }
    let second = last(&mut parts);
    Ok((last(&mut parts), second))
}

/// Takes the last element.
fn last(parts: &mut Vec<Term>) -> Term
    requires { 0 < vec_len parts.old }
    ensures value { result ≡ slice_index_or parts.old.items (vec_len parts.old - 1) result }
    ensures rest { parts.new.items ≡ take (vec_len parts.old - 1) parts.old.items }
    ensures len { vec_len parts.new + 1 ≡ vec_len parts.old }
{
    match parts.pop() {
        Some(part) => part,
        None => unreachable!(),
    }
}

fn worded(word: Term, arguments: Arguments) -> Result<Call, NoCommand>
    ensures ok { IfOk result (λ call. (term word ≡ atom call.word) × (call.arguments ≡ arguments)) }
    ensures bad { OnErr result (IsFalse (is_atom (term word))) }
{
    match word.into_atom() {
        Some(word) => Ok(Call { word, arguments }),
        None => Err(NoCommand),
    }
}
