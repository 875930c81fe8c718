//! The text of an atom: a short one lies where the atom does, and takes no memory of its own.

ghost use Rattle.std.specs.Prelude.{◌≡◌, ◌≤◌, ◌<◌, length, IfOk, IsOk};
ghost use Rattle.tab_term.specs.Text.{text_bytes};

use std::alloc::{AllocError, Global};
use std::marker::Model;
use std::sync::Arc;

/// The most bytes of a short text. With its length and a tag they fill the three words that a term has beside its own tag.
const SHORT: usize = 22;

/// A text. Only a long one takes memory.
pub enum Text {
    Short(ShortText),
    Long(LongText),
}

// A derived drop would be expanded, variant by variant, at each exit of each function that holds an atom.
impl Drop for Text {
    fn drop(self) {
        match self {
            Text::Short(_) => {}
            Text::Long(text) => drop(text),
        }
    }
}

impl Text {
    /// The text of these characters. A short one takes no memory.
    pub fn new(alloc: Global, text: &str) -> Result<Text, AllocError>
        ensures ok { IfOk result (λ t. text_bytes t ≡ text.now) }
        ensures short { length text.now ≤ 22 → IsOk result }
    {
        if text.len() <= SHORT {
            return Ok(Text::Short(ShortText::new(text)));
        }
        Ok(Text::Long(LongText::new(alloc, text)?))
    }

    /// The characters.
    pub fn as_str(&self) -> &str
        ensures { result.now ≡ text_bytes self.now }
    {
        match self {
            Text::Short(text) => text.as_str(),
            Text::Long(text) => text.as_str(),
        }
    }

    /// The same text. A short one takes no memory, and a long one is shared.
    pub fn try_clone(&self) -> Result<Text, AllocError>
        ensures ok { IfOk result (λ t. text_bytes t ≡ text_bytes self.now) }
        ensures short { length (text_bytes self.now) ≤ 22 → IsOk result }
    {
        match self {
            Text::Short(text) => Ok(Text::Short(text.copy())),
            Text::Long(text) => Ok(Text::Long(text.try_clone()?)),
        }
    }
}

/// A text of at most 22 bytes.
#[derive(Drop)]
pub struct ShortText {
    len: u8,
    bytes: [u8; SHORT],
}

impl Model for ShortText {
    ghost use Rattle.std.specs.Prelude.{List, ℕ, take};

    ghost Value = { List ℕ };

    ghost view = { λ a. take a.len a.bytes };

    ghost use Rattle.std.specs.Prelude.{◌≤◌};
    ghost use Rattle.std.specs.Str.{IsUtf8};

    ghost invariant = { λ a. (a.len ≤ 22) × IsUtf8 (take a.len a.bytes) };
}

impl ShortText {
    fn new(text: &str) -> ShortText
        requires { length text.now ≤ 22 }
        ensures { result ≡ text.now }
    {
        let mut bytes = [0; SHORT];
        let len = text.len();
        bytes[..len].copy_from_slice(text.as_bytes());
        ShortText {
            len: len as u8,
            bytes,
        }
    }

    fn as_str(&self) -> &str
        ensures { result.now ≡ self.now }
    {
        let bytes = &self.bytes[..self.len as usize];
        // They are UTF-8, as the invariant says.
        unsafe { std::str::from_utf8_unchecked(bytes) }
    }

    fn copy(&self) -> ShortText
        ensures { result ≡ self.now }
    {
        ShortText {
            len: self.len,
            bytes: self.bytes,
        }
    }
}

/// A text of more than 22 bytes, which its copies share.
#[derive(Drop)]
pub struct LongText {
    text: Arc<String, Global>,
}

impl Model for LongText {
    ghost use Rattle.std.specs.Prelude.{List, ℕ, string_bytes};
    ghost use Rattle.std.specs.Arc.{arc_value};

    ghost Value = { List ℕ };

    ghost view = { λ a. string_bytes (arc_value a.text) };

    ghost use Rattle.std.specs.Prelude.{◌<◌, length};

    ghost invariant = { λ a. 22 < length (string_bytes (arc_value a.text)) };
}

impl LongText {
    fn new(alloc: Global, text: &str) -> Result<LongText, AllocError>
        requires { 22 < length text.now }
        ensures { IfOk result (λ t. t ≡ text.now) }
    {
        let text = String::from_str(alloc, text)?;
        Ok(LongText {
            text: Arc::new(alloc, text)?,
        })
    }

    fn as_str(&self) -> &str
        ensures { result.now ≡ self.now }
    {
        self.text.as_str()
    }

    fn try_clone(&self) -> Result<LongText, AllocError>
        ensures ok { IfOk result (λ t. t ≡ self.now) }
        ensures long { 22 < length self.now }
    {
        Ok(LongText {
            text: Arc::try_clone(&self.text)?,
        })
    }
}
