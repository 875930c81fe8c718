//! Abbreviated keys: a number of fixed size for each key of an ordered container.
//!
//! A search among keys that lie elsewhere in memory compares the numbers, which lie side by side, and looks at two
//! keys only where their numbers tie.
#![tactic(auto)]

ghost use Rattle.std.specs.Prelude.{◌≡◌, ◌<◌, ◌^◌, ℕ};
ghost use Rattle.tab_key.specs.Agree.{Agrees};
ghost use Rattle.tab_key.specs.Heads.{head as head_of};

#[cfg(test)]
mod tests;

/// A key with a number whose order agrees with the order of the keys, or ties.
///
/// Any constant meets the law, and gains nothing. The more keys have numbers of their own, the fewer keys are looked
/// at: good numbers are the key itself, or its first bytes.
pub trait Abbreviate: Ord {
    ghost abbreviation: { Self → ℕ };

    /// The key's number. It is worked out once for each call of a container, and kept beside each entry.
    fn abbreviated(&self) -> u64
        ensures { result ≡ abbreviation self.now };

    ghost agrees: { Agrees abbreviation Self.cmp };
}

impl Abbreviate for u64 {
    ghost use Rattle.tab_key.specs.Agree.{numbers_agree};

    ghost abbreviation = { λ n. n };

    ghost agrees = { numbers_agree };

    fn abbreviated(&self) -> u64 {
        *self
    }
}

impl Abbreviate for u32 {
    ghost use Rattle.tab_key.specs.Agree.{numbers_agree};

    ghost abbreviation = { λ n. n };

    ghost agrees = { numbers_agree };

    fn abbreviated(&self) -> u64 {
        u64::from(*self)
    }
}

/// The number of the first `count` bytes, the first the highest, which is below `room`, 256 to the power `count`. A byte
/// of 255 and what follows it stand for the greatest such number, since the law is to hold of all lists of numbers.
pub fn head(bytes: &[u8], count: u8, room: u64) -> u64
    requires room { room ≡ 256 ^ count }
    ensures head { result ≡ head_of count bytes.now }
    ensures below { result < room }
{
    let taken = bytes.len().min(count as usize);
    let mut number = 0;
    let mut place = room;
    for byte in &bytes[..taken] {
        if *byte == 255 {
            return number + (place - 1);
        }
        place >>= 8;
        number += u64::from(*byte) * place;
    }
    number
}

/// The first seven bytes. Strings that differ only later tie.
impl Abbreviate for String {
    ghost use Rattle.std.specs.Prelude.{string_bytes};
    ghost use Rattle.tab_key.specs.Heads.{head, head_less};

    ghost abbreviation = { λ text. head 7 (string_bytes text) };

    ghost agrees = { λ a b h. head_less 7 (string_bytes a) (string_bytes b) h };

    fn abbreviated(&self) -> u64 {
        head(self.as_bytes(), 7, 0x100_0000_0000_0000)
    }
}
