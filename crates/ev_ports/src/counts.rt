//! Counts that stand still at the end of their type.

ghost use Rattle.std.specs.Prelude.{◌≡◌, ◌≤◌};
ghost use Rattle.ev_ports.specs.Ports.{one_more};

/// Counts one more. The count stands still at the end of its type.
pub fn raise(count: &mut u64)
    ensures more { count.new ≡ one_more count.old }
    ensures kept { count.old ≤ count.new }
{
    *count = count.saturating_add(1);
}
