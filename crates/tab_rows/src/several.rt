//! Several changes in place: all of them, or none.

ghost use Rattle.std.specs.Prelude.{◌≡◌, OnOk, OnErr};
ghost use Rattle.tab_model.specs.Tables.{apply, rows_after};
ghost use Rattle.tab_rows.specs.Former.{put_back, all_put_back};

use crate::former::Former;
use crate::rows::Rows;
use crate::update::Update;
use std::alloc::{AllocError, Global};
use std::sync::Wait;
use tab_map::Map;
use tab_records::Records;
use tab_term::Term;

impl Rows {
    /// Makes the changes, in turn and in place, each as `update` does. If memory for one is refused, the earlier ones
    /// are undone.
    pub fn update_all<R: Wait>(
        &mut self,
        rt: &R,
        alloc: Global,
        updates: &[Update],
        lender: Option<&Map<Term, Records>>,
    ) -> Result<(), AllocError>
        ensures ok { OnOk result
            (self.new ≡ (self.old.0, rows_after self.old.0 self.old.1 updates.now)) }
        ensures err { OnErr result (self.new ≡ self.old) }
    {
        let mut former = Vec::new(alloc);
        if self.make_all(alloc, updates, lender, &mut former).is_ok() {
            return Ok(());
        }
        self.undo_all(rt, alloc, former);
        Err(AllocError)
    }

    // Makes the changes in place, and keeps the former records of each. An error leaves the changes before it made.
    fn make_all(
        &mut self,
        alloc: Global,
        updates: &[Update],
        lender: Option<&Map<Term, Records>>,
        former: &mut Vec<Former>,
    ) -> Result<(), AllocError>
        ensures ok { OnOk result
            (self.new ≡ (self.old.0, rows_after self.old.0 self.old.1 updates.now)) }
        ensures kept { all_put_back self.new former.new.items
            ≡ all_put_back self.old former.old.items }
    {
        for update in updates {
            self.make(alloc, update, lender, former)?;
        }
        Ok(())
    }

    // Room is reserved first, so that the former records of a change that is made are always kept.
    fn make(
        &mut self,
        alloc: Global,
        update: &Update,
        lender: Option<&Map<Term, Records>>,
        former: &mut Vec<Former>,
    ) -> Result<(), AllocError>
        ensures ok { OnOk result
            (self.new ≡ (self.old.0, apply self.old.0 self.old.1 update.now)) }
        ensures kept { all_put_back self.new former.new.items
            ≡ all_put_back self.old former.old.items }
    {
        former.reserve(1)?;
        let before = self.exchange(alloc, update, lender)?;
        former.push_reserved(before);
        Ok(())
    }

    // The last first.
    fn undo_all<R: Wait>(&mut self, rt: &R, alloc: Global, mut former: Vec<Former>)
        ensures { self.new ≡ all_put_back self.old former.items }
    {
        while let Some(before) = former.pop() {
            self.undo(rt, alloc, &before);
        }
    }

    // The change copied what was shared, so this takes memory only if nodes were merged; it is repeated until it has that.
    fn undo<R: Wait>(&mut self, rt: &R, alloc: Global, before: &Former)
        ensures { self.new ≡ put_back self.old before.now }
    {
        for _ in rt.forever() {
            if self.restore(alloc, before).is_ok() {
                return;
            }
        }
        unreachable!()
    }
}
