//! Wait-die: the answer to a request for a lock, and the transactions that wait.
//!
//! An older transaction waits for a younger one, and a younger one dies before an older. Queued requests count as
//! granted locks do. A retry never dies. So ages rise along every wait, and no chain of waits is a cycle.

#![tactic(auto)]

mod ages;
mod resting;
mod seen;
mod waiting;

pub use ages::{Ages, LockDecision, Retried, no_chain_of_waits_leads_back};
pub use resting::Rest;
