//! The replay: a stream of requests in, the stream of their replies out. Each request names its session, and all run on one
//! core.
#![tactic(auto)]

mod answered;
mod answering;
mod ended;
mod laws;
mod one_session;
mod payload;
mod replaying;
mod serving;

pub use answered::PayloadReply;
pub use answering::answer;
pub use ended::Ended;
pub use laws::{
    a_one_shot_is_told_what_it_did, a_one_shot_leaves_nothing_open, an_answer_follows,
    one_session_never_waits, runs_have_a_history,
};
pub use replaying::replay;
