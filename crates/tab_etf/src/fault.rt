//! Faults of bytes that are no term.

ghost use Rattle.std.specs.Prelude.{◌≡◌};
ghost use Rattle.tab_etf.specs.declared.fault.ReadError.TheVariants.{Memory};

use std::alloc::{AllocError, AllocFailed};
use thiserror::Error;

/// A fault of a payload: the first from left to right.
#[derive(Clone, Copy, Debug, PartialEq, Eq, Error)]
pub enum Fault {
    /// The first byte isn't 131.
    #[error("another version")]
    Version,
    /// A byte that is needed isn't there.
    #[error("truncated")]
    Truncated,
    /// This tag isn't read.
    #[error("tag {0}")]
    LeftOut(u8),
    /// A sign byte over 1, or a value outside 128 bits.
    #[error("no integer of 128 bits")]
    Integer,
    /// More than 64 levels.
    #[error("too deep")]
    Depth,
    /// More than 255 characters, or text that isn't UTF-8.
    #[error("no atom")]
    Atom,
    /// A list whose tail isn't the empty list.
    #[error("improper tail")]
    ImproperTail,
    /// A key that is equal to an earlier one of the same map. It is reported before a fault of the key's value.
    #[error("a key twice")]
    DuplicateKey,
    /// Bytes after the term.
    #[error("bytes after the term")]
    Trailing,
}

/// A fault, and the number of bytes left from its position on.
#[derive(Clone, Copy, Debug, PartialEq, Eq)]
pub struct Stop {
    pub fault: Fault,
    pub left: usize,
}

/// The reason that a payload wasn't decoded.
#[derive(Clone, Copy, Debug, PartialEq, Eq, Error)]
pub enum EtfFault {
    #[error("no memory")]
    NoMemory,
    /// The first fault, and its place: the byte of the payload, counted from 0.
    #[error("{0} at byte {1}")]
    At(Fault, usize),
}

/// The reason that a part of a payload wasn't read.
#[derive(Debug, Drop)]
pub enum ReadError {
    Memory,
    At(Stop),
}

impl From<AllocError> for ReadError {
    ghost from_gives = { λ _ e. e ≡ Memory };

    fn from(_e: AllocError) -> ReadError {
        ReadError::Memory
    }
}

impl<T: Drop> From<AllocFailed<T>> for ReadError {
    ghost from_gives = { λ _ e. e ≡ Memory };

    fn from(_e: AllocFailed<T>) -> ReadError {
        ReadError::Memory
    }
}
