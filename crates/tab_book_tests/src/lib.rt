//! Tests of the public calls of what several threads share: mailboxes and the book.

#![tactic(auto)]

#[cfg(test)]
mod clients;
#[cfg(test)]
mod commands;
#[cfg(test)]
mod counters;
#[cfg(test)]
mod folding;
#[cfg(test)]
mod mailboxes;
#[cfg(test)]
mod overflow;
#[cfg(test)]
mod refused;
#[cfg(test)]
mod waking;
