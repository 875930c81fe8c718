//! The words of tabd's command line, and what they ask for.
//!
//! A crate of its own, since no crate can depend on a program: another program that starts servers reads their words by `words`.

#![tactic(auto)]

mod command_line;
mod parsing;
mod serving;

pub use command_line::VERSION;
pub use parsing::{Run, asked, words};
pub use serving::{Address, Log, Service, Sizes};
