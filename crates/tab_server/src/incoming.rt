//! The frames of a connection's requests, from a stream that comes in pieces.

ghost use Rattle.std.specs.Prelude.{◌≡◌, ◌<◌, ◌≤◌, ◌++◌, ◌∷◌, [], ℕ, List, Some, IsFalse, IsTrue, IfErr, IfOk, length, take};
ghost use Rattle.tab_etf.specs.Frames.{contents};
ghost use Rattle.tab_etf.specs.Streams.{Stops};
ghost use Rattle.tab_model.specs.declared.data.Reply.TheVariants as reply;
ghost use Rattle.tab_book.specs.Logs.{Made};
ghost use Rattle.tab_server.specs.Streamed.{AnswersBytes, AnswersLast, Gives, IsIn, IsNotTaken, IsSkipped};

use crate::place::Place;
use std::alloc::Global;
use tab_etf::{Frame, FrameFault, Splitter};

/// The frames of a stream that comes in pieces. A frame for which there is no memory is skipped.
#[derive(Drop)]
pub struct Incoming {
    alloc: Global,
    splitter: Splitter,
    /// The position of the stream, and whether the frame there is skipped.
    place: Place,
    skips: bool,
}

impl Incoming {
    /// No byte has come.
    pub fn new(alloc: Global) -> Incoming
        ensures at { IsIn [] result }
        ensures skips { IsFalse result.skips }
    {
        Incoming {
            alloc,
            splitter: Splitter::new(alloc),
            place: Place::new(),
            skips: false,
        }
    }

    /// The position of the stream.
    pub fn place(&self) -> Place
        ensures { result ≡ self.now.place }
    {
        self.place
    }

    /// Returns whether the length of a frame that is skipped is over the limit.
    pub fn is_over(&self) -> bool
        ensures { IsTrue result → (n : ℕ) (seen : List Made) (bytes : List ℕ)
            → IsIn bytes self.now → AnswersLast n seen seen bytes self.now [] }
    {
        if !self.skips {
            return false;
        }
        self.place.is_over()
    }

    /// The frames before the length that was over the limit.
    pub fn before_fault(&self) -> &[Frame]
        ensures { contents result.now ≡ self.now.splitter.before }
    {
        self.splitter.before_fault()
    }

    /// Goes on over the bytes of a piece that belong to a frame that is skipped, and returns their number.
    pub fn skip(&mut self, piece: &[u8]) -> usize
        ensures within { result ≤ length piece.now }
        ensures skips { IsTrue self.new.skips → result ≡ length piece.now }
        ensures answer { (n : ℕ) (seen : List Made) (at : List ℕ) → IsIn at self.old
            → AnswersBytes n seen seen (at ++ take result piece.now) self.old self.new [] }
    {
        if !self.skips {
            return 0;
        }
        if piece.is_empty() {
            return 0;
        }
        let count = self.place.pass(piece);
        self.skips = !self.place.is_between();
        count
    }

    /// Takes a piece, and returns the frames that are whole now. It changes nothing if there is no memory.
    pub fn feed(&mut self, piece: &[u8]) -> Result<Vec<Frame>, FrameFault>
        ensures ok { IfOk result (λ frames. (at : List ℕ) → IsIn at self.old
            → IsFalse self.old.skips → Gives (at ++ piece.now) self.new (contents frames.items)) }
        ensures err { IfErr result (λ e. (at : List ℕ) → IsIn at self.old → IsFalse self.old.skips
            → IsNotTaken e (at ++ piece.now) self.old self.new) }
    {
        let frames = self.splitter.feed(piece)?;
        // No whole frame is left, so the position is that after the remaining bytes.
        let _end = self.splitter.finish();
        self.place.pass_all(piece);
        Ok(frames)
    }

    /// Takes the part of the current frame in a piece, and returns its number of bytes, and the frame if it is whole now.
    /// If there is no memory, the frame is skipped.
    pub fn feed_part(&mut self, piece: &[u8]) -> (usize, Result<Vec<Frame>, FrameFault>)
        ensures within { result.0 ≤ length piece.now }
        ensures skips { IsFalse self.old.skips → IsTrue self.new.skips
            → result.0 ≡ length piece.now }
        ensures ok { IfOk result.1 (λ frames. (at : List ℕ) → IsIn at self.old
            → IsFalse self.old.skips → 0 < length piece.now
            → Gives (at ++ take result.0 piece.now) self.new (contents frames.items)) }
        ensures err { IfErr result.1 (λ e. (at : List ℕ) → IsIn at self.old
            → IsFalse self.old.skips → 0 < length piece.now
            → IsSkipped e (at ++ take result.0 piece.now) self.old self.new) }
    {
        let count = self.place.pass(piece);
        match self.splitter.feed(&piece[..count]) {
            Ok(frames) => {
                let _end = self.splitter.finish();
                (count, Ok(frames))
            }
            Err(FrameFault::NoMemory) => {
                self.splitter = Splitter::new(self.alloc);
                self.skips = !self.place.is_between();
                (count, Err(FrameFault::NoMemory))
            }
            Err(fault) => (count, Err(fault)),
        }
    }
}
