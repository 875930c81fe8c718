//! Lengths of what may be too long to be kept whole.

use crate::kept::KEPT;
use tab_etf::encoded_len;
use tab_term::Term;

/// Adds a term's length to a length, and returns whether that is more than `KEPT` now.
pub fn reaches(len: &mut u64, term: &Term) -> bool {
    passes(len, encoded_len(term).unwrap_or(u64::MAX))
}

/// Adds `more` bytes to a length, and returns whether that is more than `KEPT` now.
pub fn passes(len: &mut u64, more: u64) -> bool {
    *len = len.saturating_add(more);
    *len > KEPT as u64
}
