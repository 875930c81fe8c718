//! A term that is encoded and read back.

ghost use Rattle.std.specs.Prelude.{◌≡◌, ◌<◌, ◌≤◌, ◌∷◌, ◌↔◌, length, IfOk, IfErr, Err};
ghost use Rattle.tab_term.specs.Canon.{canon};
ghost use Rattle.tab_term.specs.Data.{depth};
ghost use Rattle.tab_term.specs.View.{term};
ghost use Rattle.tab_etf.specs.Spells.{Spells};
ghost use Rattle.tab_uses.specs.Faults.{IsOfMemory};

use std::alloc::Global;
use tab_etf::{EncodeFault, EtfFault, decode, encode, spellings_are_apart};
use tab_term::Term;
use thiserror::Error;

/// The reason that a term did not come back from its own encoding.
#[derive(Clone, Copy, Debug, PartialEq, Eq, Error)]
pub enum AgainFault {
    /// It is too long, or there is no memory.
    #[error("not encoded: {0}")]
    Encode(EncodeFault),
    /// It has more than 64 levels, or a map of it has a key twice; or there is no memory.
    #[error("not decoded: {0}")]
    Decode(EtfFault),
    /// A map of it was built with its keys out of order: they come back in order.
    #[error("another term comes back")]
    OtherTerm,
}

impl From<EncodeFault> for AgainFault {
    ghost use Rattle.tab_uses.specs.declared.spelling.AgainFault.TheVariants.{Encode};

    ghost from_gives = { λ e f. f ≡ Encode e };

    fn from(e: EncodeFault) -> AgainFault {
        AgainFault::Encode(e)
    }
}

impl From<EtfFault> for AgainFault {
    ghost use Rattle.tab_uses.specs.declared.spelling.AgainFault.TheVariants.{Decode};

    ghost from_gives = { λ e f. f ≡ Decode e };

    fn from(e: EtfFault) -> AgainFault {
        AgainFault::Decode(e)
    }
}

/// The term as it comes back from its own encoding, in memory of its own.
///
/// A term that was decoded, or whose maps were built with their keys in order, comes back up to 64 levels.
#[tactic(auto, using(crate::proofs::SpellingLemmas::one_term))]
pub fn term_again(alloc: Global, value: &Term) -> Result<Term, AgainFault>
    ensures same { IfOk result (λ t. term t ≡ term value.now) }
    ensures too_long { (result ≡ Err (AgainFault.Encode EncodeFault.TooLong))
        ↔ (4294967295 < length (131 ∷ canon (term value.now))) }

    // Any fault other than `NoMemory` comes only if the canonical encoding is one that can't be read.
    ensures comes_back { Spells (term value.now) (canon (term value.now))
        → depth (term value.now) ≤ 64 → IfErr result IsOfMemory }
{
    spellings_are_apart();
    let mut payload = Vec::new(alloc);
    encode(value, &mut payload)?;
    let again = decode(alloc, &payload)?;
    if again != *value {
        return Err(AgainFault::OtherTerm);
    }
    Ok(again)
}
