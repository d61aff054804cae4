//! The rows whose keys begin with one number. They stand side by side, since rows rise by that number
//! first.

ghost use Rattle.std.specs.Prelude.{◌≡◌, ◌≤◌, ◌-◌, ℕ, drop, filter, length, take};
ghost use Rattle.std.specs.Ordering.{is_eq, nat_cmp};
ghost use Rattle.std.specs.List.Sorted.{IsNonDecreasingBy};

use ev_base::{MessageId, StreamId, Text, UserId};

/// A key that begins with a number.
pub trait FirstNumber {
    ghost number: { Self → ℕ };

    fn number(&self) -> u32
        ensures { result ≡ number self.now };
}

impl FirstNumber for (StreamId, UserId) {
    ghost number = { λ key. key.0.0 };

    fn number(&self) -> u32 {
        self.0.0
    }
}

impl FirstNumber for (MessageId, UserId, Text) {
    ghost number = { λ key. key.0.0 };

    fn number(&self) -> u32 {
        self.0.0
    }
}

/// The rows whose keys begin with this number.
pub fn rows_under<K: FirstNumber, V>(rows: &[(K, V)], number: u32) -> &[(K, V)]
    requires { IsNonDecreasingBy (λ row. K.number row.0) rows.now }
    ensures { result.now ≡ filter (λ row. is_eq (nat_cmp number (K.number row.0))) rows.now }
{
    let (start, end) = places_under(rows, number);
    &rows[start..end]
}

// From where to where they stand.
fn places_under<K: FirstNumber, V>(rows: &[(K, V)], number: u32) -> (usize, usize)
    requires { IsNonDecreasingBy (λ row. K.number row.0) rows.now }
    ensures order { result.0 ≤ result.1 }
    ensures within { result.1 ≤ length rows.now }
    ensures range { take (result.1 - result.0) (drop result.0 rows.now)
        ≡ filter (λ row. is_eq (nat_cmp number (K.number row.0))) rows.now }
{
    let start = rows.partition_point(|row| row.0.number() < number);
    let end = rows.partition_point(|row| row.0.number() <= number);
    (start, end)
}
