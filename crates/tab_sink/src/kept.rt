//! Frames that are kept until they are written.

ghost use Rattle.std.specs.Prelude.{◌≡◌, ◌≤◌, [], vec_capacity};

/// The bytes of frames that are kept before they are written.
pub const KEPT: usize = 65_536;

/// Room for so many bytes stays for the frames that come next.
const ROOM: usize = 4 * KEPT;

/// A reply of more bytes goes piece by piece.
pub const LONG: usize = ROOM;

/// Empties what was written, and gives back what a long frame took.
pub fn empty(frames: &mut Vec<u8>)
    ensures items { frames.new.items ≡ [] }
    ensures room { vec_capacity frames.new ≤ 262144 }
{
    if frames.capacity() > ROOM {
        *frames = Vec::new(*frames.allocator());
    } else {
        frames.clear();
    }
}
