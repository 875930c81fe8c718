//! What tests of several crates need: bytes and terms written briefly, and devices that fail. No program stands on it.
#![tactic(auto)]

mod device;
mod hex;
mod shape;

pub use device::Device;
pub use hex::bytes;
pub use shape::{Shape, atom, build, build_all};
