//! Rows sorted by key, as a list and nothing else.

ghost use Rattle.std.specs.Prelude.{◌≡◌, ◌↔◌, [], length, IsTrue, option_copied};
ghost use Rattle.ev_rows.specs.Rows.{SortedByKey, row_at};

use crate::keyed::Keyed;
use std::alloc::AllocError;
use std::marker::Model;

/// Rows of a key and a value that are sorted by key, as a list and nothing else.
///
/// Where a `Keyed` also has room, two of these with the same rows are one value in a contract.
#[derive(Debug, Drop)]
pub struct RowList<K: Ord, V> {
    keyed: Keyed<K, V>,
}

impl<K: Ord, V> Model for RowList<K, V> {
    ghost use Rattle.std.specs.Prelude.{List};

    ghost Value = { List (K × V) };

    ghost view = { λ it. it.keyed.rows };
}

impl<K: Ord, V> RowList<K, V> {
    pub fn from_vec(rows: Vec<(K, V)>) -> Self
        requires { SortedByKey K.cmp rows.items }
        ensures { result ≡ rows.items }
    {
        RowList {
            keyed: Keyed::from_vec(rows),
        }
    }

    pub fn into_vec(self) -> Vec<(K, V)>
        ensures rows { result.items ≡ self }
        ensures rise { SortedByKey K.cmp self }
    {
        let RowList { keyed } = self;
        keyed.into_vec()
    }

    pub fn rows(&self) -> &[(K, V)]
        ensures all { result.now ≡ self.now }
        ensures rise { SortedByKey K.cmp self.now }
    {
        self.keyed.rows()
    }

    pub fn len(&self) -> usize
        ensures { result ≡ length self.now }
    {
        self.keyed.len()
    }

    pub fn is_empty(&self) -> bool
        ensures { IsTrue result ↔ (self.now ≡ []) }
    {
        self.keyed.is_empty()
    }

    pub fn get(&self, key: &K) -> Option<&V>
        ensures { option_copied result ≡ row_at K.cmp self.now key.now }
    {
        self.keyed.get(key)
    }
}

impl<K: Ord, V> From<Keyed<K, V>> for RowList<K, V> {
    ghost from_gives = { λ keyed list. list ≡ keyed.rows };

    fn from(keyed: Keyed<K, V>) -> Self {
        RowList { keyed }
    }
}

impl<K: Ord, V> From<RowList<K, V>> for Keyed<K, V> {
    ghost from_gives = { λ list keyed. keyed.rows ≡ list };

    fn from(list: RowList<K, V>) -> Self {
        let RowList { keyed } = list;
        keyed
    }
}

impl<K: Ord + Clone, V: Clone> Clone for RowList<K, V> {
    ghost use Rattle.std.specs.Prelude.{◌≡◌};
    ghost use Rattle.ev_rows.specs.Clones.{ClonesAreSame};

    ghost is_clone = { λ s t. ClonesAreSame K.is_clone → ClonesAreSame V.is_clone → t ≡ s };

    fn clone(&self) -> Result<Self, AllocError> {
        Ok(RowList {
            keyed: self.keyed.clone()?,
        })
    }
}

impl<K: Ord, V: PartialEq> PartialEq for RowList<K, V> {
    ghost use Rattle.std.specs.Prelude.{◌&&◌};
    ghost use Rattle.std.specs.Cmp.{and_per, on_per};
    ghost use Rattle.std.specs.Cmp.Lexicographic.{pointwise, lists_per};

    ghost eq = { pointwise (λ p q. K.eq p.0 q.0 && V.eq p.1 q.1) };

    ghost laws = { lists_per
        (and_per (on_per (λ row. row.0) K.PartialEq.laws) (on_per (λ row. row.1) V.laws)) };

    fn eq(&self, other: &Self) -> bool {
        self.rows() == other.rows()
    }
}
