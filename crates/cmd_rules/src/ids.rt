//! The ids that a command names.

ghost use Rattle.std.specs.Prelude.{◌≡◌};
ghost use Rattle.ev_rows.specs.KeyOrder.{KeyOrder};
ghost use Rattle.zr_types.specs.Commands.{distinct};

/// The ids without those that come again, rising. It takes no memory.
pub fn distinct<K: Ord + Drop>(mut ids: Vec<K>) -> Vec<K>
    requires { KeyOrder K.cmp }
    ensures { result.items ≡ distinct K.cmp ids.items }
{
    ids.sort_unstable();
    ids.dedup();
    ids
}
