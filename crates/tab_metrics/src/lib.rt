//! What a server counts, as a page that Prometheus reads.

#![tactic(auto)]

mod closing;
mod meters;
mod page;
mod pages;
mod requests;
mod roster;
mod sessions;
mod tallies;
mod timed;

pub use closing::Closing;
pub use meters::{About, Meters};
pub use page::{Holdings, Paged, page_of};
pub use pages::serve_pages;
pub use roster::Roster;
pub use sessions::{sessions_of, transaction_text};
