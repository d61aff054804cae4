//! The writes to one section in the order of their keys.

ghost use Rattle.std.specs.Prelude.{◌≡◌, IfOk, OnOk};
ghost use Rattle.std.specs.List.Sorted.{IsPermutation, IsSortedByKey, IsStableByKey};
ghost use Rattle.ev_rows.specs.KeyOrder.{KeyOrder};
ghost use Rattle.ev_apply.specs.Lasts.{DoesWrites};
ghost use Rattle.ev_apply.specs.Room.{put_count};

use crate::lasting::Lasting;
use crate::row_write::{Field, KeyWrite, Prefix, RowWrite};
use ev_base::NoMemory;
use std::alloc::Global;

/// What is left to do for some writes, by key: to drop rows by their prefix first, and then a write after another.
#[derive(Drop)]
pub struct SortedWrites<K, V, F, P: Ord> {
    // How many rows the writes put.
    pub puts: usize,
    // The keys rise. Of the writes to one key the latest comes first.
    pub lasting: Lasting<K, V, F, P>,
}

impl<K: Ord + Drop, V: Drop, F: Field<V>, P: Prefix<K>> SortedWrites<K, V, F, P> {
    /// Sorts the writes. It takes all the memory that they need, but that for the rows that they put.
    pub fn of(
        alloc: Global,
        all: Vec<RowWrite<K, V, F, P>>,
    ) -> Result<SortedWrites<K, V, F, P>, NoMemory>
        ensures { KeyOrder K.cmp → IfOk result (λ sorted.
            DoesWrites (record { cmp = K.cmp; set = F.set; is_under = P.is_under }) sorted all.items) }
    {
        let puts = put_count(&all);
        let mut lasting = Lasting::of(alloc, all)?;
        sort(&mut lasting.writes)?;
        Ok(SortedWrites { puts, lasting })
    }
}

fn put_count<K, V, F, P>(writes: &[RowWrite<K, V, F, P>]) -> usize
    ensures { result ≡ put_count writes.now }
{
    writes.iter().filter(|write| write.is_put()).count()
}

// Sorts by key. The writes to one key stay in their order.
fn sort<K: Ord, V, F>(writes: &mut Vec<KeyWrite<K, V, F>>) -> Result<(), NoMemory>
    ensures permutation { IsPermutation writes.old.items writes.new.items }
    ensures sorted { OnOk result (IsSortedByKey (λ write. write.key) K.cmp writes.new.items) }
    ensures stable { IsStableByKey (λ write. write.key) K.cmp writes.old.items writes.new.items }
{
    Ok(writes.sort_by(|a, b| a.key.cmp(&b.key))?)
}
