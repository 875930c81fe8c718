ghost use Rattle.std.specs.Prelude.{◌≡◌, []};
ghost use Rattle.std.specs.BTreeMap.{is_at};
ghost use Rattle.std.specs.List.{cons_option};
ghost use Rattle.std.specs.Map.{lookup};
ghost use Rattle.std.specs.Option.{option_copied};

/// Returns the value of the entry before a map, if it has this key.
pub(crate) fn under<'a, K: Ord, V>(first: &'a Option<(K, V)>, key: &K) -> Option<&'a V>
    ensures { option_copied result ≡ lookup (is_at (K.cmp key.now)) (cons_option first.now []) }
{
    match first {
        Some(first) if *key == first.0 => Some(&first.1),
        _ => None,
    }
}
