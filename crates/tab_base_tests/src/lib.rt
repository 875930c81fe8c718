//! Tests of the public calls below the book, for what a stream of the built program can't show: terms and their bytes, maps,
//! requests, locks, devices that fail, mirrors, audits, records in entries of their own, and one-shots on a session that is
//! played.

#![tactic(auto)]

#[cfg(test)]
mod devices;
#[cfg(test)]
mod etf;
#[cfg(test)]
mod events;
#[cfg(test)]
mod journal;
#[cfg(test)]
mod map;
#[cfg(test)]
mod one_shots;
#[cfg(test)]
mod played;
#[cfg(test)]
mod proto;
#[cfg(test)]
mod rows;
#[cfg(test)]
mod shared;
#[cfg(test)]
mod waitdie;
