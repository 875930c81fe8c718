//! Each caller once, on bytes that were written by hand.

mod mailboxes;
mod mirrors;
mod outboxes;
mod spelling;
mod steps;
mod tables;
mod writes;
