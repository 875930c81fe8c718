ghost use Rattle.std.specs.Prelude.{◌≡◌, ◌<◌, ◌≤◌, nat_lt, length, IfOk, IsOk, Err, ◌↔◌};
ghost use Rattle.std.specs.Str.{chars};
ghost use Rattle.tab_term.specs.declared.atom.TermFault.TheVariants.{TooLong, NoMemory};

use crate::text::Text;
use std::alloc::{AllocError, Global};
use std::cmp::Ordering;
use std::marker::Model;
use tab_key::{Abbreviate, head};
use thiserror::Error;

/// Why a text is no atom.
#[derive(Clone, Copy, Debug, PartialEq, Eq, Error)]
pub enum TermFault {
    /// The text has more than 255 characters, whatever their bytes are.
    #[error("an atom has at most 255 characters")]
    TooLong,
    #[error("no memory")]
    NoMemory,
}

impl From<AllocError> for TermFault {
    ghost from_gives = { λ _ e. e ≡ NoMemory };

    fn from(_e: AllocError) -> TermFault {
        TermFault::NoMemory
    }
}

/// A name: a text of at most 255 characters. One of at most 22 bytes takes no memory.
#[derive(Drop)]
pub struct Atom {
    text: Text,
}

impl Model for Atom {
    ghost use Rattle.std.specs.Prelude.{List, ℕ};
    ghost use Rattle.tab_term.specs.Text.{text_bytes};

    ghost Value = { List ℕ };

    ghost view = { λ a. text_bytes a.text };

    ghost use Rattle.std.specs.Prelude.{◌≤◌, length};
    ghost use Rattle.std.specs.Str.{chars};

    ghost invariant = { λ a. length (chars (text_bytes a.text)) ≤ 255 };
}

impl Atom {
    /// The atom of a text. A text of at most 255 bytes needs no count.
    #[tactic(auto, using(crate::proofs::Lists::chars_of_bytes))]
    pub fn new(alloc: Global, text: &str) -> Result<Atom, TermFault>
        ensures ok { IfOk result (λ a. a ≡ text.now) }
        ensures too_long { (result ≡ Err TooLong) ↔ (255 < length (chars text.now)) }
        ensures short { length text.now ≤ 22 → IsOk result }
    {
        if is_too_long(text) {
            return Err(TermFault::TooLong);
        }
        Ok(Atom {
            text: Text::new(alloc, text)?,
        })
    }

    /// The atom of a text that is known to be short, as of a word of a command.
    #[tactic(auto, using(crate::proofs::Lists::chars_of_bytes))]
    pub fn from_short_text(alloc: Global, text: &str) -> Result<Atom, AllocError>
        requires { length text.now ≤ 255 }
        ensures ok { IfOk result (λ a. a ≡ text.now) }
        ensures short { length text.now ≤ 22 → IsOk result }
    {
        Ok(Atom {
            text: Text::new(alloc, text)?,
        })
    }

    /// The text.
    #[tactic(auto, using(crate::proofs::Lists::bytes_of_chars))]
    pub fn as_str(&self) -> &str
        ensures text { result.now ≡ self.now }
        ensures short { length (chars self.now) ≤ 255 }
        ensures bytes { length self.now ≤ 1020 }
    {
        self.text.as_str()
    }

    /// The same atom. One of at most 22 bytes takes no memory, and copies of a longer one share it.
    pub fn try_clone(&self, _alloc: Global) -> Result<Atom, AllocError>
        ensures ok { IfOk result (λ a. a ≡ self.now) }
        ensures short { length self.now ≤ 22 → IsOk result }
    {
        Ok(Atom {
            text: self.text.try_clone()?,
        })
    }
}

#[tactic(auto, using(crate::proofs::Lists::chars_of_bytes))]
fn is_too_long(text: &str) -> bool
    ensures { result ≡ nat_lt 255 (length (chars text.now)) }
{
    if text.len() <= 255 {
        return false;
    }
    count_chars(text) > 255
}

fn count_chars(text: &str) -> usize
    ensures { result ≡ length (chars text.now) }
{
    text.chars().count()
}

impl PartialEq for Atom {
    ghost use Rattle.std.specs.Str.{bytes_eq};
    ghost use Rattle.tab_term.specs.Same.{bytes_equiv};
    ghost use Rattle.std.specs.Cmp.{partial_equiv_from_equiv};

    ghost eq = { bytes_eq };

    ghost laws = { partial_equiv_from_equiv bytes_equiv };

    fn eq(&self, other: &Atom) -> bool {
        self.as_str() == other.as_str()
    }
}

impl Eq for Atom {
    ghost use Rattle.tab_term.specs.Same.{bytes_equiv};

    ghost laws = { bytes_equiv };
}

/// Names in the order of their texts, byte by byte. (As keys of tables, atoms are terms, and ordered as such.)
impl Ord for Atom {
    ghost use Rattle.std.specs.Ordering.{nat_cmp};
    ghost use Rattle.std.specs.Cmp.Lexicographic.{slice_cmp};
    ghost use Rattle.std.proofs.Common.{rules};
    ghost use Rattle.std.specs.Cmp.Rules.{comparing};
    ghost use Rattle.std.proofs.lemmas.Cmp.{nat_list_cmp_total};
    ghost use Rattle.tab_term.specs.OrderLaws.{matches_bytes};

    ghost cmp = { slice_cmp nat_cmp };

    ghost total = { nat_list_cmp_total };

    ghost matches_partial_cmp = { Prim.search (comparing, rules) };

    ghost matches_eq = { matches_bytes };

    fn cmp(&self, other: &Atom) -> Ordering {
        self.as_str().cmp(other.as_str())
    }
}

impl PartialOrd for Atom {
    ghost use Rattle.std.specs.Ordering.{nat_cmp, as_partial_cmp};
    ghost use Rattle.std.specs.Cmp.Lexicographic.{slice_cmp};
    ghost use Rattle.std.specs.Cmp.{partial_order_from_own_ties, partial_order_from_total};
    ghost use Rattle.std.proofs.lemmas.Cmp.{nat_list_cmp_total};
    ghost use Rattle.tab_term.specs.OrderLaws.{matches_bytes};

    ghost partial_cmp = { as_partial_cmp (slice_cmp nat_cmp) };

    ghost laws = { partial_order_from_own_ties
        (partial_order_from_total nat_list_cmp_total) matches_bytes };

    fn partial_cmp(&self, other: &Atom) -> Option<Ordering> {
        Some(self.cmp(other))
    }
}

/// The first seven bytes. Atoms that differ only later tie.
impl Abbreviate for Atom {
    ghost use Rattle.tab_key.specs.Heads.{head, head_less};

    ghost abbreviation = { head 7 };

    ghost agrees = { head_less 7 };

    fn abbreviated(&self) -> u64 {
        head(self.as_str().as_bytes(), 7, 0x100_0000_0000_0000)
    }
}
