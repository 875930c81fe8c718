//! Frames that are not written whole yet.

ghost use Rattle.std.specs.Prelude.{◌≡◌, ◌+◌, ◌≤◌, min, drop, length, OnOk, OnErr};
ghost use Rattle.tab_sink.specs.Sends.{Sends};

use tab_etf::{Broken, Target};

/// Frames whose bytes from index `from` on are not written yet.
#[derive(Drop)]
pub struct Rest {
    pub(crate) frames: Vec<u8>,
    pub(crate) from: usize,
    ghost within: { from ≤ length frames.items },
}

/// Writes the bytes from index `from` on. It moves `from` past those that are written, also if it fails.
pub(crate) fn give_from<T: Target>(
    target: &mut T,
    bytes: &[u8],
    from: &mut usize,
) -> Result<(), Broken>
    requires { from.old ≤ length bytes.now }
    ensures within { from.new ≤ length bytes.now }
    ensures sends { Sends (T.contents target.old) (drop from.old bytes.now)
        (T.contents target.new) (drop from.new bytes.now) }
    ensures all { OnOk result (from.new ≡ length bytes.now) }
    ensures same { OnOk result (T.faults target.new ≡ T.faults target.old) }
    ensures rose { OnErr result (T.faults target.new ≡ min (T.faults target.old + 1) u64.MAX) }
{
    while *from < bytes.len() {
        *from += target.give(&bytes[*from..])?;
    }
    Ok(())
}
