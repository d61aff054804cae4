//! Writes applied to the rows of a section.

ghost use Rattle.std.specs.Prelude.{◌≡◌, ◌+◌, ◌-◌, ◌≤◌, ◌∷◌, ◌++◌, [], not, false, filter, vec_len, vec_capacity};
ghost use Rattle.std.specs.List.Sorted.{IsSortedByKey};
ghost use Rattle.std.specs.Ordering.{is_lt};
ghost use Rattle.ev_rows.specs.KeyOrder.{KeyOrder};
ghost use Rattle.ev_rows.specs.Rows.{SortedByKey};
ghost use Rattle.ev_rows.proofs.RiseLemmas.{IsBelow};
ghost use Rattle.ev_types.specs.Writes.{after_write, after_writes};
ghost use Rattle.ev_apply.specs.Kinds.{covered, in_order, write_at, write_of};
ghost use Rattle.ev_apply.specs.Room.{put_count};
ghost use Rattle.ev_apply.specs.Walking.{order_to_last};

use crate::row_write::{Change, Field, KeyWrite, Prefix};
use crate::walk::Walk;
use ev_base::Keyed;
use std::collections::BTreeSet;
use std::mem;

// Drops the rows under these prefixes.
pub fn drop_covered<K: Ord + Drop, V: Drop, P: Prefix<K>>(
    rows: &mut Keyed<K, V>,
    prefixes: &BTreeSet<P>,
)
    ensures rows { rows.new.rows
        ≡ filter (λ row. not (covered P.is_under prefixes.now.keys row.0)) rows.old.rows }
    ensures room { rows.old.spare ≤ rows.new.spare }
{
    if !prefixes.is_empty() {
        rows.keep(|row| !P::cover(prefixes, &row.0));
    }
}

// Applies the writes, the last of the list first, in one walk.
pub fn apply_writes<K: Ord + Drop, V: Drop, F: Field<V>>(
    rows: &mut Keyed<K, V>,
    writes: Vec<KeyWrite<K, V, F>>,
)
    requires order { KeyOrder K.cmp }
    requires sorted { IsSortedByKey (λ write. write.key) K.cmp writes.items }
    requires room { put_count (in_order {P = Unit {0}} writes.items) ≤ rows.old.spare }
    ensures { rows.new.rows
        ≡ after_writes (record { cmp = K.cmp; set = F.set; is_under = λ (prefix : Unit {0}) key. false }) rows.old.rows (in_order writes.items) }
{
    let alloc = *writes.allocator();
    let old = mem::replace(rows, Keyed::new(alloc));
    *rows = Keyed::from_vec(walked(old.into_vec(), writes));
}

fn walked<K: Ord + Drop, V: Drop, F: Field<V>>(
    rows: Vec<(K, V)>,
    mut writes: Vec<KeyWrite<K, V, F>>,
) -> Vec<(K, V)>
    requires order { KeyOrder K.cmp }
    requires rise { SortedByKey K.cmp rows.items }
    requires sorted { IsSortedByKey (λ write. write.key) K.cmp writes.items }
    requires room { put_count (in_order {P = Unit {0}} writes.items) ≤ vec_capacity rows - vec_len rows }
    ensures rows { result.items
        ≡ after_writes (record { cmp = K.cmp; set = F.set; is_under = λ (prefix : Unit {0}) key. false }) rows.items (in_order writes.items) }
    ensures rise { SortedByKey K.cmp result.items }
{
    let mut walk = Walk::new(rows);
    while let Some(write) = writes.pop() {
        walk.pass_above(&write.key);
        edit(&mut walk, write);
    }
    walk.into_vec()
}

// Writes to the last row that is left, or behind it.
fn edit<K: Ord + Drop, V: Drop, F: Field<V>>(walk: &mut Walk<K, V>, write: KeyWrite<K, V, F>)
    requires order { KeyOrder K.cmp }
    requires rise { SortedByKey K.cmp walk.old.left }
    requires end { is_lt (order_to_last K.cmp write.key walk.old.left) ≡ false }
    requires below { IsBelow K.cmp write.key walk.old.passed }
    requires room { put_count (write_of {P = Unit {0}} write ∷ []) ≤ walk.old.room }
    ensures rows { walk.new.left ++ walk.new.passed
        ≡ after_write (record { cmp = K.cmp; set = F.set; is_under = λ (prefix : Unit {0}) key. false })
        (walk.old.left ++ walk.old.passed) (write_of write) }
    ensures passed { walk.new.passed ≡ walk.old.passed }
    ensures room { walk.old.room ≤ walk.new.room + put_count (write_of {P = Unit {0}} write ∷ []) }
{
    let KeyWrite { key, change } = write;
    match change {
        Change::Put(value) => match walk.take(&key) {
            Some((found, _)) => walk.push(found, value),
            None => walk.push(key, value),
        },
        Change::Patch(field) => {
            if let Some((found, mut value)) = walk.take(&key) {
                field.set(&mut value);
                walk.push(found, value);
            }
        }
        Change::DropRow => {
            walk.take(&key);
        }
    }
}
