//! Writes to the rows of a section.

ghost use Rattle.std.specs.Prelude.{◌≡◌, Bool};
ghost use Rattle.std.specs.declared.cmp.Ordering.TheVariants.{Equal};
ghost use Rattle.ev_apply.specs.Kinds.{covered};

use std::collections::BTreeSet;
use std::marker::Model;

/// A field of a row, with its new value.
pub trait Field<V>: Drop {
    ghost set: { Self → V → V };

    /// Sets the field in the row.
    fn set(self, row: &mut V)
        ensures { row.new ≡ set self row.old };
}

/// A prefix of keys, under which all rows are dropped at once.
pub trait Prefix<K>: Ord + Drop {
    ghost is_under: { Self → K → Bool };

    /// Whether the key begins with one of these prefixes.
    fn cover(prefixes: &BTreeSet<Self>, key: &K) -> bool
        ensures { result ≡ covered is_under prefixes.now.keys key.now };

    ghost alike: { (a b : Self) → Self.Ord.cmp a b ≡ Equal
        → (key : K) → is_under a key ≡ is_under b key };
}

/// What is written to the row of one key: it is put, a field of it is set, or it is dropped.
#[derive(Drop)]
pub enum Change<V, F> {
    Put(V),
    Patch(F),
    DropRow,
}

/// A write to the row of one key.
#[derive(Drop)]
pub struct KeyWrite<K, V, F> {
    pub key: K,
    pub change: Change<V, F>,
}

/// A write to the row of one key, or all rows under a prefix of their keys are dropped.
#[derive(Drop)]
pub struct RowWrite<K, V, F, P> {
    kind: WriteKind<K, V, F, P>,
}

// What the write does.
#[derive(Drop)]
pub enum WriteKind<K, V, F, P> {
    Row(KeyWrite<K, V, F>),
    DropUnder(P),
}

impl<K, V, F, P> Model for RowWrite<K, V, F, P> {
    ghost use Rattle.ev_types.specs.Writes.{Write};
    ghost use Rattle.ev_apply.specs.Kinds.{write_of_kind};

    ghost Value = { Write K V F P };

    ghost view = { λ it. write_of_kind it.kind };
}

impl<K, V, F, P> RowWrite<K, V, F, P> {
    ghost use Rattle.ev_types.specs.Writes.{drop_row, drop_under, patch, put};
    ghost use Rattle.ev_apply.specs.Kinds.{write_at, write_of_kind};
    ghost use Rattle.ev_apply.specs.Room.{is_put};

    pub fn put(key: K, value: V) -> Self
        ensures { result ≡ put key value }
    {
        RowWrite::at(key, Change::Put(value))
    }

    pub fn patch(key: K, field: F) -> Self
        ensures { result ≡ patch key field }
    {
        RowWrite::at(key, Change::Patch(field))
    }

    pub fn drop_row(key: K) -> Self
        ensures { result ≡ drop_row key }
    {
        RowWrite::at(key, Change::DropRow)
    }

    fn at(key: K, change: Change<V, F>) -> Self
        ensures { result ≡ write_at key change }
    {
        RowWrite {
            kind: WriteKind::Row(KeyWrite { key, change }),
        }
    }

    pub fn drop_under(prefix: P) -> Self
        ensures { result ≡ drop_under prefix }
    {
        RowWrite {
            kind: WriteKind::DropUnder(prefix),
        }
    }

    pub fn into_kind(self) -> WriteKind<K, V, F, P>
        ensures { write_of_kind result ≡ self }
    {
        let RowWrite { kind } = self;
        kind
    }

    /// Whether a row is put.
    pub fn is_put(&self) -> bool
        ensures { result ≡ is_put self.now }
    {
        match &self.kind {
            WriteKind::Row(write) => matches!(write.change, Change::Put(_)),
            WriteKind::DropUnder(_) => false,
        }
    }
}

/// Of a section whose rows have no field to set, or are never dropped by a prefix. No event makes a
/// write of it.
pub type NoField = ();
