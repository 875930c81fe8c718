//! A run of steps on a core of its own.

ghost use Rattle.std.specs.Prelude.{◌≤◌, ℕ, List, IfOk};
ghost use Rattle.tab_model.specs.declared.data.Entry.{Entry as EntryOf};
ghost use Rattle.tab_model.specs.State.{new};
ghost use Rattle.tab_model.specs.Run.{IsTied};
ghost use Rattle.tab_core.specs.Runs.{asks_of, AllJoinEmpty, RunsTo, taken_in};

use std::alloc::{AllocError, Global};
use std::sync::Wait;
use tab_core::{Core, Step};
use tab_model::{Limits, SharedReply, steps_keep_what_holds};
use tab_outbox::Post;

/// A new core after these steps, and the reply to each. A step for which memory is refused has the reply `NoMemory`,
/// and the steps after it are made all the same; at the error none is made.
pub fn core_after<P: Post + Drop, R: Wait>(
    rt: &R,
    alloc: Global,
    limits: Limits,
    steps: Vec<(u32, Step<P>)>,
) -> Result<(Core<P>, Vec<SharedReply>), AllocError>
    requires sessions { limits.sessions ≤ 64 }
    requires empty { AllJoinEmpty (asks_of P.outbox steps.items) }

    // The log is legal, and the tables are those of its commits run serially.
    ensures { IfOk result
        (λ r. (log : List EntryOf)
        × RunsTo (new limits) (asks_of P.outbox steps.items) r.1.items log r.0
        × IsTied r.0 log (λ m. taken_in m (asks_of P.outbox steps.items) r.1.items)) }
{
    steps_keep_what_holds();
    let mut core = Core::new(alloc, limits);
    let replies = core.run_steps(rt, alloc, steps)?;
    Ok((core, replies))
}
