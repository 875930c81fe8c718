//! A server.

use crate::settings::Settings;
use std::alloc::Global;
use tab_book::Shared;
use tab_post::Host;

/// What the threads of all connections share. Its methods `serve` and `serve_forever` accept the connections.
#[derive(Drop)]
pub struct Server<'a, H: Host, G> {
    pub host: &'a H,
    pub alloc: Global,
    /// The book of all sessions.
    pub shared: &'a Shared<H>,
    pub settings: Settings,
    /// The receiver of reports and counts.
    pub gate: &'a G,
}
