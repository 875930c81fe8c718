//! Tests of the public calls of `tab_term` and `tab_etf`: tables of bytes and of terms from outside, devices that fail, and that
//! calls succeed.

pub mod answers;
mod payloads;
mod streams;
mod terms;
