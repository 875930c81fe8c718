ghost use Rattle.std.specs.Prelude.{◌≡◌, ◌||◌, List, Bool};
ghost use Rattle.std.specs.List.{list_any};
ghost use Rattle.tab_model.specs.Ages.{Owned};
ghost use Rattle.tab_locks.specs.Placed.{placed};

/// A law: a lock more is one member more of the list, at whatever index it is.
#[tactic(auto, using(crate::proofs::Listing::any_placed))]
pub fn a_lock_more_is_one_member_more()
    ensures { (p : Owned → Bool) (x : Owned) (held : List Owned)
        → list_any p (placed x held) ≡ (p x || list_any p held) }
{}
