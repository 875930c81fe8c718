//! The server: connections over sockets of TCP or of Unix, each a session of a book that all share.
//!
//! Three threads serve a connection: one reads its requests and answers them, one sends its events if that may block, and
//! one watches its stream while a request waits for a lock. One thread of the server, the dispatcher, sends the other
//! events of all connections. The threads that send share the sink, whose lock is never taken while the book is locked.

#![tactic(auto)]

mod accepting;
mod answers;
mod connection;
mod dispatcher;
mod encoded;
mod events;
mod gate;
mod incoming;
mod line;
mod listener;
mod mail;
mod next;
mod outlet;
mod payload;
mod place;
mod puts;
mod requests;
mod server;
mod settings;
mod silence;
mod steps;
mod transactions;
mod troubles;
mod watch;

pub use events::event_loop;
pub use gate::{Count, Counts, Gate, Note, Notes, Open};
pub use listener::Listener;
pub use server::Server;
pub use settings::Settings;
pub use tab_proto::Delivery;
pub use tab_sink::{FrameSink, Sink};
