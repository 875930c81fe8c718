//! One more record of a key, unless an equal one is there, in place where no other table holds the key's records.
ghost use Rattle.std.specs.Prelude.{◌≡◌};
ghost use Rattle.tab_term.specs.View.{term};
ghost use Rattle.tab_records.specs.Forms.{with_one};

use std::alloc::{AllocError, Global};
use tab_map::Revise;
use tab_records::Records;
use tab_term::Term;

/// Puts a record after the others of its key, unless an equal one is among them.
#[derive(Drop)]
pub struct Append<'a> {
    pub row: &'a Term,
    /// Records of the key that are lent.
    pub lender: Option<&'a Records>,
}

impl<'a> Revise<Records> for Append<'a> {
    ghost becomes = { λ a records. with_one records (term a.row.now) };

    fn revise(self, alloc: Global, records: &mut Records) -> Result<(), AllocError> {
        records.insert(alloc, self.row, self.lender)
    }

    fn revised(self, alloc: Global, records: &Records) -> Result<Records, AllocError> {
        let mut all = records.try_clone(alloc)?;
        all.insert(alloc, self.row, self.lender)?;
        Ok(all)
    }
}
