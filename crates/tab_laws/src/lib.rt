//! Laws of the definitions of `tab_model`, above it: its own laws (`tab_model/src/laws.rt`) do not need them.

#![tactic(auto)]

mod laws;

pub use laws::{all_transactions_can_end, the_only_transaction_is_granted, waits_lead_to_progress};
