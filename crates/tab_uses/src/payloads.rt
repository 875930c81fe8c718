//! A payload that comes from outside, written again.

ghost use Rattle.std.specs.Prelude.{◌≡◌, OnOk, OnErr, IfErr};
ghost use Rattle.tab_uses.specs.Payloads.{AppendsCanonical, IsFaultOf};

use std::alloc::Global;
use tab_etf::{EncodeFault, EtfFault, decode, encode};
use thiserror::Error;

/// The reason that a payload was not written again.
#[derive(Clone, Copy, Debug, PartialEq, Eq, Error)]
pub enum PayloadFault {
    /// It is no term; or there is no memory.
    #[error("no term: {0}")]
    Decode(EtfFault),
    /// Its canonical encoding is too long; or there is no memory.
    #[error("not written: {0}")]
    Encode(EncodeFault),
}

impl From<EtfFault> for PayloadFault {
    ghost use Rattle.tab_uses.specs.declared.payloads.PayloadFault.TheVariants.{Decode};

    ghost from_gives = { λ e f. f ≡ Decode e };

    fn from(e: EtfFault) -> PayloadFault {
        PayloadFault::Decode(e)
    }
}

impl From<EncodeFault> for PayloadFault {
    ghost use Rattle.tab_uses.specs.declared.payloads.PayloadFault.TheVariants.{Encode};

    ghost from_gives = { λ e f. f ≡ Encode e };

    fn from(e: EncodeFault) -> PayloadFault {
        PayloadFault::Encode(e)
    }
}

/// Adds the canonical payload of the term that the payload is. A fault has its place: the byte of the payload, counted
/// from 0.
pub fn append_canonical(
    alloc: Global,
    payload: &[u8],
    out: &mut Vec<u8>,
) -> Result<(), PayloadFault>
    ensures ok { OnOk result (AppendsCanonical payload.now out.old.items out.new.items) }
    ensures fault { IfErr result (IsFaultOf payload.now) }
    ensures err { OnErr result (out.new.items ≡ out.old.items) }
{
    let value = decode(alloc, payload)?;
    encode(&value, out)?;
    Ok(())
}
