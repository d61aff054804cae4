//! The merge of many new rows among sorted ones.

ghost use Rattle.std.specs.Prelude.{◌≡◌, ◌+◌, ◌-◌, ◌<◌, ◌≤◌, slice_index_or, vec_len, vec_capacity};
ghost use Rattle.std.specs.VecDeque.{deque_len};
ghost use Rattle.ev_rows.specs.Rows.{SortedByKey, with_rows};

use std::cmp::Ordering;
use std::collections::VecDeque;

/// The rows with the new ones put among them, in one pass from the greatest key down.
///
/// The block of `rows` is a ring meanwhile. At its back are the rows that are left to pass, and each goes to its
/// front, where the merged rows gather.
pub fn merged<K: Ord + Drop, V: Drop>(rows: Vec<(K, V)>, mut new_rows: Vec<(K, V)>) -> Vec<(K, V)>
    requires rise { SortedByKey K.cmp rows.items }
    requires new_rise { SortedByKey K.cmp new_rows.items }
    requires room { vec_len rows + vec_len new_rows ≤ vec_capacity rows }
    ensures rows { result.items ≡ with_rows K.cmp rows.items new_rows.items }
    ensures len { vec_len result ≤ vec_len rows + vec_len new_rows }
    ensures capacity { vec_capacity result ≡ vec_capacity rows }
{
    let mut left = rows.len();
    let mut ring = VecDeque::from_vec(rows);
    while let Some((key, _)) = new_rows.last() {
        match order_to_last(&ring, left, key) {
            Ordering::Less => {
                ring.rotate_right(1);
                left -= 1;
            }
            Ordering::Equal => {
                let (old_key, _) = ring.pop_back().unwrap();
                let (_, value) = new_rows.pop().unwrap();
                ring.push_front_reserved((old_key, value));
                left -= 1;
            }
            Ordering::Greater => ring.push_front_reserved(new_rows.pop().unwrap()),
        }
    }
    ring.rotate_right(left);
    ring.into_vec()
}

// How the key compares to that of the last row in the ring, if any is left to pass.
fn order_to_last<K: Ord, V>(ring: &VecDeque<(K, V)>, left: usize, key: &K) -> Ordering
    requires { left ≤ deque_len ring.now }
    ensures none { left ≡ 0 → result ≡ Ordering.Greater }
    ensures last { (d : K × V) → 0 < left
        → result ≡ K.cmp key.now (slice_index_or ring.now.items (deque_len ring.now - 1) d).0 }
{
    match ring.back() {
        Some(row) if left > 0 => key.cmp(&row.0),
        _ => Ordering::Greater,
    }
}
