//! The position of a stream in a frame, so that a frame for which there is no memory can be skipped.

ghost use Rattle.std.specs.Prelude.{◌≡◌, ◌<◌, ◌≤◌, ◌∷◌, ◌++◌, [], ℕ, List, false, true, length, take};
ghost use Rattle.tab_server.specs.declared.place.Place.TheVariants.{Payload};
ghost use Rattle.tab_server.specs.Placed.{GoesPast, IsAt, IsPassed, is_between as is_between_frames, is_over as is_over_limit};

use tab_etf::LIMIT;

/// The part of the current frame that has come.
#[derive(Clone, Copy, Debug, PartialEq, Eq)]
pub enum Place {
    /// The number of its length's bytes that have come, and these bytes.
    Length(u8, [u8; 4]),
    /// The number of its payload's bytes that are still to come.
    Payload(u32),
    /// Its length is over the limit.
    Over,
}

impl Place {
    /// Between two frames.
    pub fn new() -> Place
        ensures at { IsAt [] result }
        ensures between { is_between_frames result ≡ true }
    {
        Place::Length(0, [0; 4])
    }

    /// Returns whether it is between two frames.
    pub fn is_between(self) -> bool
        ensures { result ≡ is_between_frames self }
    {
        matches!(self, Place::Length(0, _))
    }

    /// Returns whether the length of the current frame is over the limit.
    pub fn is_over(self) -> bool
        ensures { result ≡ is_over_limit self }
    {
        matches!(self, Place::Over)
    }

    /// Goes on over the part of the current frame in a piece, and returns its number of bytes.
    pub fn pass(&mut self, piece: &[u8]) -> usize
        ensures within { result ≤ length piece.now }
        ensures passes { (at : List ℕ) → IsAt at self.old → 0 < length piece.now
            → IsPassed (at ++ take result piece.now) self.new }
        ensures all { is_between_frames self.new ≡ false → result ≡ length piece.now }
        ensures some { 0 < length piece.now → 0 < result }
    {
        let mut count = 0;
        while count < piece.len() {
            count += self.step(&piece[count..]);
            if self.is_between() {
                return count;
            }
        }
        count
    }

    /// Goes on over a piece.
    pub fn pass_all(&mut self, piece: &[u8])
        ensures { (at : List ℕ) → IsAt at self.old → GoesPast (at ++ piece.now) self.new }
    {
        let mut rest = piece;
        while !rest.is_empty() {
            rest = &rest[self.pass(rest)..];
        }
    }

    /// Goes on over the next byte of a length, or over the bytes of a payload.
    fn step(&mut self, piece: &[u8]) -> usize
        ensures within { result ≤ length piece.now }
        ensures some { 0 < length piece.now → 0 < result }
        ensures passes { (at : List ℕ) → IsAt at self.old → 0 < length piece.now
            → IsPassed (at ++ take result piece.now) self.new }
    {
        match *self {
            Place::Length(count, head) => {
                let [byte, ..] = piece else {
                    return 0;
                };
                *self = Place::after(count, head, *byte);
                1
            }
            Place::Payload(left) => self.pass_payload(left, piece),
            Place::Over => piece.len(),
        }
    }

    /// The position after the next byte of the length.
    fn after(count: u8, mut head: [u8; 4], byte: u8) -> Place
        ensures { count < 4 → IsPassed (take count head ++ byte ∷ []) result }
    {
        if count > 3 {
            return Place::Length(count, head);
        }
        head[usize::from(count)] = byte;
        if count < 3 {
            return Place::Length(count + 1, head);
        }
        let value = u32::from_be_bytes(head);
        if value == 0 {
            return Place::new();
        }
        if value > LIMIT {
            return Place::Over;
        }
        Place::Payload(value)
    }

    /// Goes on over bytes of the payload, of which so many are still to come.
    fn pass_payload(&mut self, left: u32, piece: &[u8]) -> usize
        ensures within { result ≤ length piece.now }
        ensures some { 0 < length piece.now → 0 < result }
        ensures passes { (at : List ℕ) → IsAt at (Payload left)
            → IsPassed (at ++ take result piece.now) self.new }
    {
        // It is not 0: after its last byte the next frame begins.
        if left == 0 {
            return piece.len();
        }
        if left as usize <= piece.len() {
            *self = Place::new();
            return left as usize;
        }
        *self = Place::Payload(left - piece.len() as u32);
        piece.len()
    }
}
