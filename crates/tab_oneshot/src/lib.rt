//! The driver of a one-shot: a transaction that is sent as one command, run on a session from outside the core.

#![tactic(auto)]

mod answer;
mod asking;
mod attempt;
mod driver;
mod laws;
mod levels;
mod parts;
mod source;
mod steps;
mod turn;

pub use driver::one_shot;
pub use laws::attempts_are_limited;
pub use source::Source;
pub use steps::Steps;
