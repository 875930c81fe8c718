//! Requests and commands read straight from a payload, with no term around their parts.
//!
//! None says that the payload is no such request, or that there is no memory for it: `decode` and `read_request` then say
//! which, and a fault's position.

ghost use Rattle.std.specs.Prelude.{◌≡◌, ◌<◌, ◌+◌, ◌-◌, Ok, IfSome, IsTrue};
ghost use Rattle.tab_model.specs.declared.ask.Ask.TheVariants.{Do};
ghost use Rattle.tab_etf.specs.Reading.{term_at, times, whole};
ghost use Rattle.tab_proto.specs.Commands.{term_of, is_command};
ghost use Rattle.tab_proto.specs.Reading.{argument_terms};
ghost use Rattle.tab_proto.specs.Requests.{request_term, IsSession, IsRequest};

use crate::call::Arguments;
use crate::commands::{command_of, one_word};
use crate::requests::session_number;
use std::alloc::Global;
use tab_etf::{read_part, read_tuple, read_word};
use tab_model::{Ask, Command};
use tab_term::Term;

/// The version of the external term format.
const VERSION: u8 = 131;

/// The levels below a payload's term, which has 64 at most.
const LEVELS: usize = 63;

/// The command of a payload.
#[tactic(auto, unfolding(tab_etf::specs::Reading::whole))]
pub fn command_in(alloc: Global, payload: &[u8]) -> Option<Command>
    ensures { IfSome result
        (λ c. (whole payload.now ≡ Ok (term_of c)) × IsTrue (is_command c)) }
{
    let [VERSION, bytes @ ..] = payload else {
        return None;
    };
    let (command, rest) = command_at(alloc, LEVELS, bytes)?;
    if !rest.is_empty() {
        return None;
    }
    Some(command)
}

/// The session's number and the request of a payload. None also for a word that is no command.
#[tactic(auto, unfolding(tab_etf::specs::Reading::whole))]
pub fn request_in(alloc: Global, payload: &[u8]) -> Option<(u32, Ask<()>)>
    ensures { IfSome result (λ r. (whole payload.now ≡ Ok (request_term r.0 r.1))
        × IsSession r.0 × IsRequest r.1) }
{
    let [VERSION, bytes @ ..] = payload else {
        return None;
    };
    let (session, command, rest) = numbered_at(alloc, bytes)?;
    if !rest.is_empty() {
        return None;
    }
    Some((session, Ask::Do(command)))
}

/// `{Session, Command}`, and the bytes after it.
#[tactic(auto, using(crate::proofs::DirectLemmas::pair_at))]
fn numbered_at(alloc: Global, bytes: &[u8]) -> Option<(u32, Command, &[u8])>
    ensures { IfSome result (λ x.
        (term_at 64 bytes.now ≡ Ok (request_term x.0 (Do x.1), x.2.now))
        × IsSession x.0 × IsTrue (is_command x.1)) }
{
    let (2, rest) = read_tuple(bytes)? else {
        return None;
    };
    let (number, rest) = read_part(alloc, LEVELS, rest)?;
    let Term::Int(number) = &number else {
        return None;
    };
    let session = session_number(*number)?;
    let (command, rest) = command_at(alloc, LEVELS - 1, rest)?;
    Some((session, command, rest))
}

/// A command, whose arguments have at most so many levels, and the bytes after it.
fn command_at(alloc: Global, levels: usize, bytes: &[u8]) -> Option<(Command, &[u8])>
    requires { 0 < levels }
    ensures { IfSome result (λ x.
        (term_at (levels + 1) bytes.now ≡ Ok (term_of x.0, x.1.now)) × IsTrue (is_command x.0)) }
{
    let Some((count, rest)) = read_tuple(bytes) else {
        let (word, rest) = read_word(bytes)?;
        let Ok(command) = one_word(word) else {
            return None;
        };
        return Some((command, rest));
    };
    let (word, rest) = read_word(rest)?;
    let (arguments, rest) = arguments_at(alloc, levels, count, rest)?;
    let Ok(command) = command_of(alloc, word, arguments) else {
        return None;
    };
    Some((command, rest))
}

/// The one to three arguments of a call, which is a tuple of so many elements, and the bytes after them.
#[tactic(auto, unfolding(tab_etf::specs::Reading::times))]
fn arguments_at(alloc: Global, levels: usize, count: u8, bytes: &[u8]) -> Option<(Arguments, &[u8])>
    ensures some { IfSome result (λ x. 0 < count) }
    ensures read { IfSome result
        (λ x. times (term_at levels) (count - 1) bytes.now ≡ Ok (argument_terms x.0, x.1.now)) }
{
    let (first, rest) = read_part(alloc, levels, bytes)?;
    if count == 2 {
        return Some((Arguments::One(first), rest));
    }
    let (second, rest) = read_part(alloc, levels, rest)?;
    if count == 3 {
        return Some((Arguments::Two(first, second), rest));
    }
    let (third, rest) = read_part(alloc, levels, rest)?;
    if count == 4 {
        return Some((Arguments::Three(first, second, third), rest));
    }
    None
}
