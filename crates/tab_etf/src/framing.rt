//! Frames, and why there is none.

ghost use Rattle.std.specs.Prelude.{◌≡◌, IfOk};
ghost use Rattle.tab_etf.specs.declared.framing.FrameFault.TheVariants.{Device, NoMemory};
ghost use Rattle.tab_etf.specs.Frames.{payload_of, IsTold};

use crate::device::Broken;
use smallvec::SmallVec;
use std::alloc::{AllocError, AllocFailed, Global};
use thiserror::Error;

/// A payload of at most so many bytes takes no allocation.
pub(crate) const SHORT: usize = 96;

/// The contents of a frame.
#[derive(Debug, Drop)]
pub enum Frame {
    /// A payload of no bytes.
    Empty,
    /// A payload of at least one byte.
    Payload(SmallVec<u8, SHORT>),
}

/// The reason that a frame was not read or written.
#[derive(Clone, Copy, Debug, PartialEq, Eq, Error)]
pub enum FrameFault {
    /// The length of a payload that is too long: over 1,048,576 bytes at reading. At writing it is `u32::MAX` for a
    /// length that does not fit four bytes.
    #[error("a frame of {0} bytes")]
    FrameTooLong(u32),
    /// The stream ends inside a frame.
    #[error("the stream ends inside a frame")]
    CutOff,
    /// A read or a write failed.
    #[error("the device failed")]
    Device,
    #[error("no memory")]
    NoMemory,
}

impl From<AllocError> for FrameFault {
    ghost from_gives = { λ _ e. e ≡ NoMemory };

    fn from(_e: AllocError) -> FrameFault {
        FrameFault::NoMemory
    }
}

impl From<Broken> for FrameFault {
    ghost from_gives = { λ _ e. e ≡ Device };

    fn from(_e: Broken) -> FrameFault {
        FrameFault::Device
    }
}

impl Frame {
    /// The bytes of the payload.
    pub fn payload(&self) -> &[u8]
        ensures { result.now ≡ payload_of self.now }
    {
        match self {
            Frame::Empty => &[],
            Frame::Payload(payload) => payload.as_slice(),
        }
    }

    /// The frame of these bytes, which it keeps.
    pub(crate) fn from_vec(payload: SmallVec<u8, SHORT>) -> Frame
        ensures payload { payload_of result ≡ payload.items }
        ensures told { IsTold result }
    {
        if payload.is_empty() {
            return Frame::Empty;
        }
        Frame::Payload(payload)
    }

    /// The frame of these bytes.
    pub(crate) fn of(alloc: Global, payload: &[u8]) -> Result<Frame, AllocError>
        ensures payload { IfOk result (λ f. payload_of f ≡ payload.now) }
        ensures told { IfOk result IsTold }
    {
        if payload.is_empty() {
            return Ok(Frame::Empty);
        }
        Ok(Frame::Payload(SmallVec::from_slice(alloc, payload)?))
    }
}
