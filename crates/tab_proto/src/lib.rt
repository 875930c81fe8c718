//! Commands as terms, and replies as terms: what a request asks, and how it is answered.

#![tactic(auto)]

mod arguments;
mod building;
mod call;
mod command_terms;
mod commands;
mod direct;
mod events;
mod fault;
mod first_words;
mod laws;
mod levels;
mod operations;
mod parts;
mod replying;
mod requests;
mod telling;

pub use command_terms::term_of;
pub use commands::{command, read_command};
pub use direct::{command_in, request_in};
pub use events::{Delivery, append_item, append_overflow, write_item};
pub use fault::ProtoFault;
pub use laws::requests_are_apart;
pub use replying::{append_reply, append_reply_within, write_reply};
pub use requests::{read_request, session_of};
pub use telling::answer_of;
