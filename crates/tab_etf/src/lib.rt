//! The external term format over packets with a length of four bytes: terms as bytes, and bytes as terms.
#![tactic(auto)]

mod answers;
mod brief;
mod counted;
mod decoding;
mod device;
mod encoding;
mod events;
mod fault;
mod framing;
mod leaf;
mod listing;
mod measuring;
mod outline;
mod parts;
mod receiving;
mod run;
mod shared;
mod spelling;
mod splitting;
mod unmeasured;
mod writer;

pub use brief::{Brief, Token, append_brief};
pub use counted::Counted;
pub use decoding::{decode, spellings_are_apart};
pub use device::{Broken, Source, Target, give_all};
pub use encoding::{EncodeFault, append_frame, append_outline, encode, write_frame, write_outline};
pub use events::event_len;
pub use fault::{EtfFault, Fault};
pub use framing::{Frame, FrameFault};
pub use measuring::encoded_len;
pub use outline::{Body, Leaf, Outline};
pub use parts::{read_part, read_tuple, read_word};
pub use receiving::read_frame;
pub use splitting::{LIMIT, Splitter, payloads_are_framed};
pub use unmeasured::{Unmeasured, append_pair_within};
