//! Requests from terms.

ghost use Rattle.std.specs.Prelude.{◌≡◌, ◌≢◌, ℕ, pos, IfOk, IfSome, IfNone, IsFalse, OnErr, Err};
ghost use Rattle.tab_term.specs.Data.{atom};
ghost use Rattle.tab_term.specs.View.{term};
ghost use Rattle.tab_proto.specs.Requests.{Request, asked_term, request_term, IsSession, IsNumbered, HasNoNumber, IsRequest, is_asked, is_word_alone, ReadsAs, AsksOneShot};
ghost use Rattle.tab_proto.specs.declared.fault.ProtoFault.TheVariants.{BadCommand, NoMemory};

use crate::call::pair_of;
use crate::commands::read_command;
use crate::fault::{NoCommand, ProtoFault};
use std::alloc::Global;
use tab_model::{Ask, Command};
use tab_term::{Atom, Term};

/// A session's number and what it asks, from `{Session, X}`. Session numbers are 1 to 4,294,967,295. Every other term is
/// BadCommand. Records and keys are taken out of the term, and not copied; only the parts of a one-shot take memory.
#[inline(always)]
pub fn read_request(alloc: Global, held: Term) -> Result<(u32, Ask<()>), ProtoFault>
    ensures ok { IfOk result
        (λ r. (request_term r.0 r.1 ≡ term held) × IsSession r.0 × IsRequest r.1) }
    ensures memory { result ≡ Err NoMemory → AsksOneShot (term held) }
    ensures only { (session : ℕ) (r : Request) → IsSession session → IsRequest r
        → request_term session r ≡ term held → result ≢ Err BadCommand }
{
    let Some(session) = session_of(&held) else {
        return Err(ProtoFault::BadCommand);
    };
    let (_number, asked) = pair_of(held)?;
    Ok((session, read_asked(alloc, asked)?))
}

/// The number in `{Session, X}`, whatever X is. None if the term is no such pair, or the number is none of a session.
pub fn session_of(held: &Term) -> Option<u32>
    ensures some { IfSome result (λ n. IsNumbered (term held.now) n) }
    ensures none { IfNone result (HasNoNumber (term held.now)) }
{
    let Term::Tuple(parts) = held else {
        return None;
    };
    match parts.as_slice() {
        [Term::Int(number), _] => session_number(*number),
        _ => None,
    }
}

/// A session's number.
pub fn session_number(number: i128) -> Option<u32>
    ensures some { IfSome result (λ n. (number ≡ pos n) × IsSession n) }
    ensures none { IfNone result ((n : ℕ) → IsSession n → number ≢ pos n) }
{
    if number < 1 || number > 4_294_967_295 {
        return None;
    }
    Some(number as u32)
}

fn read_asked(alloc: Global, asked: Term) -> Result<Ask<()>, ProtoFault>
    ensures { ReadsAs (term asked) (is_asked (term asked)) result }
{
    if let Term::Atom(word) = &asked {
        return Ok(word_alone(word)?);
    }
    Ok(Ask::Do(read_command(alloc, asked)?))
}

/// The request of a single word.
fn word_alone(word: &Atom) -> Result<Ask<()>, NoCommand>
    ensures ok { IfOk result (λ r. (asked_term r ≡ atom word.now) × IsRequest r) }
    ensures bad { OnErr result (IsFalse (is_word_alone word.now)) }
{
    // The words of each transaction come first: a word is compared with each before its own.
    match word.as_str() {
        "begin" => Ok(Ask::Do(Command::Begin)),
        "commit" => Ok(Ask::Do(Command::Commit)),
        "join" => Ok(Ask::Join(())),
        "leave" => Ok(Ask::Leave),
        "retry" => Ok(Ask::Retry),
        "take" => Ok(Ask::Take),
        _ => Err(NoCommand),
    }
}
