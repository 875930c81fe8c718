//! Frames from a stream that comes in pieces.

ghost use Rattle.std.specs.Prelude.{◌≡◌, ◌≢◌, ◌≤◌, ◌<◌, ◌++◌, ◌∷◌, ◌+◌, [], List, ℕ, length, drop, OnOk, IfOk, IfErr, OnErr, MatchOption, IfSome, Some, None, ◌⊎◌};
ghost use Rattle.std.specs.List.{All};
ghost use Rattle.tab_etf.specs.declared.framing.FrameFault.TheVariants.{CutOff};
ghost use Rattle.tab_etf.specs.Feeding.{Held, IsGoing, IsStopped};
ghost use Rattle.tab_etf.specs.Fronts.{MatchFront};
ghost use Rattle.tab_etf.specs.Frames.{length_next, frames, IsOver, AreTold, contents};
ghost use Rattle.tab_etf.specs.Streams.{front, GoesOn, payloads, rest_of, AreWithin, AreFirstFrames};

use crate::framing::{Frame, FrameFault};
use std::alloc::{AllocError, Global};
use std::marker::Model;

/// The longest payload that is read, in bytes.
pub const LIMIT: u32 = 1_048_576;

/// The front of a stream.
#[derive(Clone, Copy)]
enum Front {
    /// A beginning of a frame, or nothing.
    Part,
    /// A length over the limit.
    Over(u32),
    /// A frame whose payload has so many bytes.
    Whole(usize),
}

/// The length that a frame begins with; None if there are fewer than four bytes.
#[tactic(auto, unfolding(crate::specs::Frames::length_next))]
pub fn length_at(bytes: &[u8]) -> Option<u32>
    ensures value { result ≡ length_next bytes.now }
    ensures long { IfSome result (λ _. 4 ≤ length bytes.now) }
{
    if bytes.len() < 4 {
        return None;
    }
    Some(u32::from_be_bytes([bytes[0], bytes[1], bytes[2], bytes[3]]))
}

fn front_of(bytes: &[u8]) -> Front
    ensures { MatchFront bytes.now result }
{
    let Some(count) = length_at(bytes) else {
        return Front::Part;
    };
    if count > LIMIT {
        return Front::Over(count);
    }
    if bytes.len() - 4 < count as usize {
        return Front::Part;
    }
    Front::Whole(count as usize)
}

/// The whole frames at the front, their length in bytes, and the length over the limit that comes next, if one does.
#[derive(Drop)]
struct Parts {
    frames: Vec<Frame>,
    used: usize,
    over: Option<u32>,
}

#[tactic(auto, using(crate::proofs::Cuts::goes_none))]
fn split(alloc: Global, bytes: &[u8]) -> Result<Parts, AllocError>
    ensures stream { IfOk result
        (λ x. GoesOn bytes.now (contents x.frames.items) (drop x.used bytes.now)) }
    ensures told { IfOk result (λ x. AreTold x.frames.items) }
    ensures within { IfOk result (λ x. x.used ≤ length bytes.now) }
    ensures over { IfOk result
        (λ x. MatchOption x.over (front (drop x.used bytes.now) ≡ None)
        (λ n. IsOver (length_next (drop x.used bytes.now)) n)) }
{
    let mut frames = Vec::new(alloc);
    let mut used = 0;
    loop {
        match front_of(&bytes[used..]) {
            Front::Whole(count) => {
                frames.push(Frame::of(alloc, &bytes[used + 4..used + 4 + count])?)?;
                used += 4 + count;
            }
            Front::Part => return Ok(Parts {
                frames,
                used,
                over: None,
            }),
            Front::Over(count) => return Ok(Parts {
                frames,
                used,
                over: Some(count),
            }),
        }
    }
}

/// The whole frames from the front, and the length over the limit that comes next, if one does.
#[derive(Drop)]
struct Found {
    frames: Vec<Frame>,
    over: Option<u32>,
}

/// Takes the whole frames from the front. An `Err` leaves the bytes as they were.
fn cut(alloc: Global, bytes: &mut Vec<u8>) -> Result<Found, AllocError>
    ensures stream { IfOk result
        (λ x. GoesOn bytes.old.items (contents x.frames.items) bytes.new.items) }
    ensures told { IfOk result (λ x. AreTold x.frames.items) }
    ensures over { IfOk result
        (λ x. MatchOption x.over (front bytes.new.items ≡ None)
        (λ n. IsOver (length_next bytes.new.items) n)) }
    ensures err { OnErr result (bytes.new.items ≡ bytes.old.items) }
{
    let Parts { frames, used, over } = split(alloc, bytes)?;
    if used > 0 {
        let rest = Vec::from_slice(alloc, &bytes[used..])?;
        *bytes = rest;
    }
    Ok(Found { frames, over })
}

/// Takes the whole frames from the front of the remaining bytes followed by the piece. An `Err` leaves the remaining
/// bytes as they were.
///
/// If none remain of the pieces before, as between two requests, this one is not copied.
fn cut_with(alloc: Global, rest: &mut Vec<u8>, piece: &[u8]) -> Result<Found, AllocError>
    ensures stream { IfOk result
        (λ x. GoesOn (rest.old.items ++ piece.now) (contents x.frames.items) rest.new.items) }
    ensures told { IfOk result (λ x. AreTold x.frames.items) }
    ensures over { IfOk result
        (λ x. MatchOption x.over (front rest.new.items ≡ None)
        (λ n. IsOver (length_next rest.new.items) n)) }
    ensures err { OnErr result (rest.new.items ≡ rest.old.items) }
{
    let held = rest.len();
    if held == 0 {
        return cut_alone(alloc, rest, piece);
    }
    rest.extend_from_slice(piece)?;
    let found = cut(alloc, rest);
    if found.is_err() {
        rest.truncate(held);
    }
    found
}

/// Takes the whole frames from the front of a piece with nothing before it, and keeps the remaining bytes.
fn cut_alone(alloc: Global, rest: &mut Vec<u8>, piece: &[u8]) -> Result<Found, AllocError>
    ensures stream { IfOk result
        (λ x. GoesOn piece.now (contents x.frames.items) rest.new.items) }
    ensures told { IfOk result (λ x. AreTold x.frames.items) }
    ensures over { IfOk result
        (λ x. MatchOption x.over (front rest.new.items ≡ None)
        (λ n. IsOver (length_next rest.new.items) n)) }
    ensures err { OnErr result (rest.new.items ≡ rest.old.items) }
{
    let Parts { frames, used, over } = split(alloc, piece)?;
    *rest = Vec::from_slice(alloc, &piece[used..])?;
    Ok(Found { frames, over })
}

/// Finds the frames of a stream that comes in pieces, cut anywhere.
#[derive(Drop)]
pub struct Splitter {
    alloc: Global,
    rest: Vec<u8>,
    over: Option<u32>,
    before: Vec<Frame>,
}

impl Model for Splitter {
    ghost use Rattle.tab_etf.specs.Feeding.{Held};
    ghost use Rattle.tab_etf.specs.Frames.{contents};

    ghost Value = { Held };

    ghost view = { λ a.
        record { rest = a.rest.items; over = a.over; before = contents a.before.items } };

    ghost use Rattle.std.specs.Prelude.{◌≡◌, None};
    ghost use Rattle.tab_etf.specs.Streams.{front};
    ghost use Rattle.tab_etf.specs.Frames.{AreTold};

    ghost invariant = { λ a. (a.over ≡ None → front a.rest.items ≡ None) × AreTold a.before.items };
}

impl Splitter {
    /// No byte has come.
    pub fn new(alloc: Global) -> Splitter
        ensures { result ≡ record { rest = []; over = None; before = [] } }
    {
        Splitter {
            alloc,
            rest: Vec::new(alloc),
            over: None,
            before: Vec::new(alloc),
        }
    }

    /// Takes the next piece of the stream, and returns the frames that are whole now.
    ///
    /// At a length over the limit it returns `FrameTooLong` with that length, then and at each later call;
    /// `before_fault` returns the frames before it in the same piece. `NoMemory` changes nothing: the same piece may be
    /// fed again.
    #[tactic(auto, using(crate::proofs::Cuts::stops_over))]
    pub fn feed(&mut self, piece: &[u8]) -> Result<Vec<Frame>, FrameFault>
        ensures ok { IfOk result
            (λ given. IsGoing self.old self.new piece.now (contents given.items)) }
        ensures told { IfOk result (λ given. AreTold given.items) }
        ensures err { IfErr result (λ e. IsStopped e self.old self.new piece.now) }
    {
        if let Some(count) = self.over {
            return Err(FrameFault::FrameTooLong(count));
        }
        let found = cut_with(self.alloc, &mut self.rest, piece)?;
        match found.over {
            None => Ok(found.frames),
            Some(count) => {
                self.before = found.frames;
                self.over = Some(count);
                Err(FrameFault::FrameTooLong(count))
            }
        }
    }

    /// The frames before the length that was over the limit.
    pub fn before_fault(&self) -> &[Frame]
        ensures payloads { contents result.now ≡ self.now.before }
        ensures told { AreTold result.now }
    {
        &self.before
    }

    /// Checks that the stream may end here: `CutOff` if it ends inside a frame, or after a length over the limit.
    pub fn finish(&self) -> Result<(), FrameFault>
        ensures found { self.now.over ≡ None → payloads self.now.rest ≡ [] }
        ensures ok { OnOk result ((self.now.over ≡ None) × (rest_of self.now.rest ≡ [])) }
        ensures err { IfErr result
            (λ e. (e ≡ CutOff) × (self.now.over ≡ None → rest_of self.now.rest ≢ [])) }
    {
        match self.over {
            Some(_) => Err(FrameFault::CutOff),
            None => end_of(&self.rest),
        }
    }
}

/// Checks that a stream may end with these remaining bytes.
#[tactic(auto, using(crate::proofs::Cuts::finished, crate::proofs::Cuts::not_empty_rest, crate::proofs::Cuts::empty_rest))]
fn end_of(rest: &[u8]) -> Result<(), FrameFault>
    requires { front rest.now ≡ None }
    ensures found { payloads rest.now ≡ [] }
    ensures ok { OnOk result (rest_of rest.now ≡ []) }
    ensures err { IfErr result (λ e. (e ≡ CutOff) × (rest_of rest.now ≢ [])) }
{
    match rest {
        [] => Ok(()),
        [_, ..] => Err(FrameFault::CutOff),
    }
}

/// A law: the payloads of a stream are those of its first frames, up to the first that is not whole.
pub fn payloads_are_framed()
    ensures first { (bytes : List ℕ) → All (λ b. b < 256) bytes → AreFirstFrames bytes }
    ensures only { (ps : List (List ℕ)) (rest : List ℕ) → AreWithin ps
        → (payloads (frames ps ++ rest) ≡ ps ++ payloads rest)
        × (rest_of (frames ps ++ rest) ≡ rest_of rest) }
{}
