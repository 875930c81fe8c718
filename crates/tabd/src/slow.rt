//! Transactions that are open for long: reports of them, and the end of their sessions.

use crate::Ended;
use crate::draining::Drained;
use crate::ending::End;
use crate::serving::{Listening, serve_said};
use std::thread;
use std::thread::Threads;
use tab_book::Activity;
use tab_etf::Target;
use tab_metrics::Closing;
use tab_post::Host;
use tab_server::{Gate, Notes, Server};
use tab_words::Service;

/// Reports each transaction that is open for long, once, and ends the sessions of those that are open for too long.
pub trait Slow {
    /// Returns whether such a transaction is not reported yet.
    fn any_is_late(&self) -> bool;

    /// Reports the session's transaction with its locks, if it is open for long and not reported yet.
    fn report_late(&self, activity: &Activity);

    /// Ends the connection of each session whose transaction is open for too long.
    fn end_late(&self);
}

/// Serves clients, and looks for such transactions in a thread of its own.
pub fn serve_watched<H, W, G>(
    server: &Server<'_, H, G>,
    listening: &Listening<'_>,
    service: Service,
    output: &mut W,
) -> End
where
    H: Host + Threads + Send + Sync,
    W: Target,
    G: Gate + Notes + Drained + Slow + Sync,
{
    let closing = &Closing::new();
    thread::scope(thread::scope_env(), server.host, |scope| {
        let started = scope.spawn(move || watch(server, closing));
        if started.is_err() {
            return End::Stopped(Ended::NoMemory);
        }
        let end = serve_said(server, listening, service, output);
        closing.close();
        end
    })
}

/// Looks for such transactions until the server has ended. It locks the book only if it reports one.
fn watch<H: Host, G: Slow>(server: &Server<'_, H, G>, closing: &Closing) {
    for _ in server.host.forever() {
        if closing.is_over() {
            return;
        }
        if server.gate.any_is_late() {
            report(server);
        }
        server.gate.end_late();
        closing.pause(server.host);
    }
}

/// Reports such transactions. If memory is refused for the activities of the sessions, the next look reports them.
fn report<H: Host, G: Slow>(server: &Server<'_, H, G>) {
    let Ok(activities) = server.shared.hold(server.host).activities() else {
        return;
    };
    for activity in &activities {
        server.gate.report_late(activity);
    }
}
