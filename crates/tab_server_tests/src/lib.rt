//! Tests of the public calls of tab_server and tab_sink: connections whose calls are blocked, an event thread whose
//! writer is blocked, and a sink whose writer fails. All else that a client sees of a server is tried on the built
//! program.

#![tactic(auto)]

#[cfg(test)]
mod gates;
#[cfg(test)]
mod held;
#[cfg(test)]
mod sinks;
