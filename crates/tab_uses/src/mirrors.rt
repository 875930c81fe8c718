//! A mirror that is fed all that its session received.

ghost use Rattle.std.specs.Prelude.{◌≡◌, ◌<◌, ℕ, length, take, OnOk, OnErr};
ghost use Rattle.tab_uses.specs.Mirrors.{rows_after};

use std::alloc::{AllocError, Global};
use tab_events::Mirror;
use tab_term::Term;

/// Takes in the terms, one after another. At the error the mirror has taken in those before the one for which memory
/// was refused. It does not report their number: a mirror that goes on from there needs a dump first.
#[tactic(auto, using(crate::proofs::MirrorsLemmas::rows_after_take))]
pub fn feed_all(mirror: &mut Mirror, alloc: Global, told: &[Term]) -> Result<(), AllocError>
    ensures stays { (mirror.new.table ≡ mirror.old.table) × (mirror.new.kind ≡ mirror.old.kind) }
    ensures ok { OnOk result (mirror.new.rows ≡ rows_after mirror.old told.now) }
    ensures err { OnErr result
        ((n : ℕ) × (n < length told.now)
        × (mirror.new.rows ≡ rows_after mirror.old (take n told.now))) }
{
    for item in told {
        mirror.feed(alloc, item)?;
    }
    Ok(())
}
