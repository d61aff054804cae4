//! Rows sorted by key, with room that is made first.

ghost use Rattle.std.specs.Prelude.{◌≡◌, Bool, ◌-◌, ◌≤◌, ◌+◌, ◌↔◌, [], length, filter, if◌then◌else◌, is_some, IsTrue, IsNone, IsOk, OnOk, option_copied, vec_len, vec_capacity};
ghost use Rattle.std.specs.Option.{option_copied_mut};
ghost use Rattle.std.specs.Borrow.{sem};
ghost use Rattle.std.specs.Fn.{CalledAt, ComputesKey};
ghost use Rattle.std.specs.List.{remove_range};
ghost use Rattle.std.specs.List.Retain.{IsFiltered};
ghost use Rattle.std.specs.List.Sorted.{IsSearchInRange};
ghost use Rattle.std.specs.Map.{remove_entry};
ghost use Rattle.std.specs.BTreeMap.{insert_entry, is_at};
ghost use Rattle.ev_rows.specs.Rows.{SortedByKey, row_at, with_rows, is_outside};
ghost use Rattle.ev_rows.specs.Lent.{lends_value, lends_if_there};
ghost use Rattle.ev_rows.specs.Place.{IsFoundAt, IsPlace};

use crate::memory::NoMemory;
use crate::merge::merged;
use std::alloc::{AllocError, Global};
use std::marker::Model;
use std::mem;

/// Whether the rows are sorted by key, as `Keyed::from_vec` and `merge` ask.
pub fn rows_rise<K: Ord, V>(rows: &[(K, V)]) -> bool
    ensures { IsTrue result ↔ SortedByKey K.cmp rows.now }
{
    rows.is_sorted_by(|a, b| a.0.cmp(&b.0).is_lt())
}

/// Rows of a key and a value that are sorted by key, in one block of memory.
///
/// `reserve` makes room for more rows. Beside it only `clone` takes memory.
#[derive(Debug, Drop)]
pub struct Keyed<K: Ord, V> {
    rows: Vec<(K, V)>,
}

impl<K: Ord, V> Model for Keyed<K, V> {
    ghost use Rattle.std.specs.Prelude.{◌-◌, vec_len, vec_capacity};
    ghost use Rattle.ev_rows.specs.Rows.{Table, SortedByKey};

    ghost Value = { Table K V };

    ghost view = { λ it.
        record { rows = it.rows.items; spare = vec_capacity it.rows - vec_len it.rows } };

    ghost invariant = { λ it. SortedByKey K.cmp it.rows.items };
}

impl<K: Ord, V> Keyed<K, V> {
    /// No row. What is allocated later comes from `alloc`.
    pub fn new(alloc: Global) -> Self
        ensures { result.rows ≡ [] }
    {
        Keyed {
            rows: Vec::new(alloc),
        }
    }

    pub fn from_vec(rows: Vec<(K, V)>) -> Self
        requires { SortedByKey K.cmp rows.items }
        ensures rows { result.rows ≡ rows.items }
        ensures room { result.spare ≡ vec_capacity rows - vec_len rows }
    {
        Keyed { rows }
    }

    pub fn into_vec(self) -> Vec<(K, V)>
        ensures rows { result.items ≡ self.rows }
        ensures rise { SortedByKey K.cmp self.rows }
        ensures room { vec_capacity result - vec_len result ≡ self.spare }
    {
        let Keyed { rows } = self;
        rows
    }

    pub fn rows(&self) -> &[(K, V)]
        ensures all { result.now ≡ self.now.rows }
        ensures rise { SortedByKey K.cmp self.now.rows }
    {
        &self.rows
    }

    pub fn len(&self) -> usize
        ensures { result ≡ length self.now.rows }
    {
        self.rows.len()
    }

    pub fn is_empty(&self) -> bool
        ensures { IsTrue result ↔ (self.now.rows ≡ []) }
    {
        self.rows.is_empty()
    }

    /// Makes room for `more` rows that are not there yet.
    pub fn reserve(&mut self, more: usize) -> Result<(), NoMemory>
        ensures room { OnOk result (more ≤ self.new.spare) }
        ensures succeeds { more ≤ self.old.spare → IsOk result }
        ensures rows { self.new.rows ≡ self.old.rows }
        ensures spare { self.old.spare ≤ self.new.spare }
    {
        Ok(self.rows.reserve(more)?)
    }

    pub fn get(&self, key: &K) -> Option<&V>
        ensures { option_copied result ≡ row_at K.cmp self.now.rows key.now }
    {
        match self.place(key) {
            Ok(at) => Some(&self.rows[at].1),
            Err(_) => None,
        }
    }

    pub fn get_mut(&mut self, key: &K) -> Option<&mut V>
        ensures* writes_back { sem 𝓛 (lends_if_there K.row V.row K.Ord self.entry key.now result) }
        ensures value { option_copied_mut result ≡ row_at K.cmp self.old.rows key.now }
    {
        match self.place(key) {
            Ok(at) => Some(self.value_mut(key, at)),
            Err(_) => None,
        }
    }

    fn value_mut(&mut self, key: &K, at: usize) -> &mut V
        requires { IsFoundAt (K.cmp key.now) self.old.rows at }
        ensures* writes_back { sem 𝓛 (lends_value K.row V.row K.Ord self.entry key.now result) }
        ensures value { Some result.now ≡ row_at K.cmp self.old.rows key.now }
    {
        let found = &mut self.rows[at];
        &mut found.1
    }

    // Where the key's row stands, or where it would.
    fn place(&self, key: &K) -> Result<usize, usize>
        ensures place { IsPlace (K.cmp key.now) self.now.rows result }
        ensures within { IsSearchInRange result (length self.now.rows) }
        ensures rise { SortedByKey K.cmp self.now.rows }
    {
        self.rows.binary_search_by(|row| row.0.cmp(key))
    }

    // From the place of the first key that isn't below `low` to that of the first above `high`.
    fn places_between(&self, low: &K, high: &K) -> (usize, usize)
        ensures order { result.0 ≤ result.1 }
        ensures within { result.1 ≤ length self.now.rows }
        ensures outside { filter (λ row. is_outside K.cmp low.now high.now row.0) self.now.rows
            ≡ remove_range self.now.rows result.0 result.1 }
    {
        let start = self.rows.partition_point(|row| row.0.cmp(low).is_lt());
        let end = self.rows.partition_point(|row| row.0.cmp(high).is_le());
        (start, start.max(end))
    }
}

impl<K: Ord + Clone, V: Clone> Clone for Keyed<K, V> {
    ghost use Rattle.std.specs.Prelude.{◌≡◌};
    ghost use Rattle.ev_rows.specs.Clones.{ClonesAreSame};

    ghost is_clone = { λ s t.
        ClonesAreSame K.is_clone → ClonesAreSame V.is_clone → t.rows ≡ s.rows };

    // No law of `Clone` says that copies of keys stand in the keys' order. This fails where they don't.
    fn clone(&self) -> Result<Self, AllocError> {
        let rows = self.rows.clone()?;
        if !rows_rise(&rows) {
            return Err(AllocError);
        }
        Ok(Keyed { rows })
    }
}

impl<K: Ord + Drop, V: Drop> Keyed<K, V> {
    /// Writes the key's row, and answers the value that it had. A key that is there stays as it is.
    pub fn put(&mut self, key: K, value: V) -> Option<V>
        requires { IsNone (row_at K.cmp self.old.rows key) → 1 ≤ self.old.spare }
        ensures before { result ≡ row_at K.cmp self.old.rows key }
        ensures rows { self.new.rows ≡ insert_entry K.cmp self.old.rows key value }
        ensures room { self.old.spare ≤ self.new.spare + (if is_some result then 0 else 1) }
    {
        match self.place(&key) {
            Ok(at) => {
                let row = &mut self.rows[at];
                Some(mem::replace(&mut row.1, value))
            }
            Err(at) => {
                self.rows.insert(at, (key, value)).unwrap();
                None
            }
        }
    }

    /// Puts each of the new rows, all in one pass.
    pub fn merge(&mut self, new_rows: Vec<(K, V)>)
        requires rise { SortedByKey K.cmp new_rows.items }
        requires room { vec_len new_rows ≤ self.old.spare }
        ensures rows { self.new.rows ≡ with_rows K.cmp self.old.rows new_rows.items }
        ensures room { self.old.spare ≤ self.new.spare + vec_len new_rows }
    {
        let alloc = *self.rows.allocator();
        let rows = mem::replace(&mut self.rows, Vec::new(alloc));
        self.rows = merged(rows, new_rows);
    }

    /// Takes the key's row out, and answers its value.
    pub fn drop_key(&mut self, key: &K) -> Option<V>
        ensures before { result ≡ row_at K.cmp self.old.rows key.now }
        ensures rows { self.new.rows ≡ remove_entry (is_at (K.cmp key.now)) self.old.rows }
        ensures room { self.old.spare ≤ self.new.spare }
    {
        match self.place(key) {
            Ok(at) => Some(self.rows.remove(at).1),
            Err(_) => None,
        }
    }

    /// Takes out the rows whose keys are from `low` to `high`, both included, and answers how many.
    pub fn drop_between(&mut self, low: &K, high: &K) -> u64
        ensures rows { self.new.rows
            ≡ filter (λ row. is_outside K.cmp low.now high.now row.0) self.old.rows }
        ensures count { result + length self.new.rows ≡ length self.old.rows }
        ensures room { self.old.spare ≤ self.new.spare }
    {
        let (start, end) = self.places_between(low, high);
        self.drop_range(start, end);
        (end - start) as u64
    }

    /// Takes out the rows from the place `start` on, up to the place `end`.
    pub fn drop_range(&mut self, start: usize, end: usize)
        requires order { start ≤ end }
        requires within { end ≤ length self.old.rows }
        ensures rows { self.new.rows ≡ remove_range self.old.rows start end }
        ensures room { self.old.spare ≤ self.new.spare }
    {
        self.rows.drain(start..end);
    }

    /// Keeps the rows that pass the test.
    pub fn keep<F: FnMut(&(K, V)) -> bool>(&mut self, test: F)
        requires { F.IsAlwaysCallable test }
        ensures rows { (p : K × V → Bool) → ComputesKey F.FnMut p test
            → self.new.rows ≡ filter p self.old.rows }
        ensures calls { IsFiltered (CalledAt F.FnMut) test self.old.rows self.new.rows }
        ensures room { self.old.spare ≤ self.new.spare }
    {
        self.rows.retain(test);
    }
}
