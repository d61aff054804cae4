//! Writes made of events, and of what events hold.

ghost use Rattle.std.specs.Prelude.{◌≡◌, ◌++◌, List, flat_map, map, IfOk};
ghost use Rattle.ev_types.specs.Writes.{drop_row, drop_under, patch, put};
ghost use Rattle.ev_apply.specs.Makers.{Makes};

use crate::row_write::RowWrite;
use ev_base::{ExactClone, NoMemory};
use std::alloc::Global;

/// A write to the rows of one section, which is made of such a source, as an event.
pub trait MadeOf<S>: Sized {
    ghost made_of: { S → List Self };

    /// Adds what the source writes.
    fn push_writes(source: &S, writes: &mut Vec<Self>) -> Result<(), NoMemory>
        ensures { IfOk result (λ _. writes.new.items ≡ writes.old.items ++ made_of source.now) };
}

/// What these sources write.
pub fn writes_of<S, W: MadeOf<S> + Drop>(alloc: Global, sources: &[S]) -> Result<Vec<W>, NoMemory>
    ensures { IfOk result (λ writes. writes.items ≡ flat_map W.made_of sources.now) }
{
    let mut writes = Vec::new(alloc);
    push_all(sources, &mut writes)?;
    Ok(writes)
}

/// Adds what these sources write.
pub fn push_all<S, W: MadeOf<S> + Drop>(sources: &[S], writes: &mut Vec<W>) -> Result<(), NoMemory>
    ensures { IfOk result (λ _. writes.new.items
        ≡ writes.old.items ++ flat_map W.made_of sources.now) }
{
    for source in sources {
        W::push_writes(source, writes)?;
    }
    Ok(())
}

/// Adds a write for each item.
pub fn push_each<T, W: Drop, F: Fn(&T) -> Result<W, NoMemory>>(
    items: &[T],
    make: F,
    writes: &mut Vec<W>,
) -> Result<(), NoMemory>
    requires { F.IsAlwaysCallable make }
    ensures { (of : T → W) → Makes F.Fn make of
        → IfOk result (λ _. writes.new.items ≡ writes.old.items ++ map of items.now) }
{
    for item in items {
        writes.push(make(item)?)?;
    }
    Ok(())
}

/// Puts each of these rows.
pub fn push_puts<K: ExactClone + Drop, V: ExactClone + Drop, F: Drop, P: Drop>(
    rows: &[(K, V)],
    writes: &mut Vec<RowWrite<K, V, F, P>>,
) -> Result<(), NoMemory>
    ensures { IfOk result (λ _. writes.new.items
        ≡ writes.old.items ++ map (λ row. put row.0 row.1) rows.now) }
{
    push_each(rows, |row| put_copy(&row.0, &row.1), writes)
}

fn put_copy<K: ExactClone + Drop, V: ExactClone + Drop, F: Drop, P: Drop>(
    key: &K,
    value: &V,
) -> Result<RowWrite<K, V, F, P>, NoMemory>
    ensures { IfOk result (λ write. write ≡ put key.now value.now) }
{
    Ok(RowWrite::put(key.clone()?, value.clone()?))
}

/// Drops the row of each of these keys.
pub fn push_drops<K: ExactClone + Drop, V: Drop, F: Drop, P: Drop>(
    keys: &[K],
    writes: &mut Vec<RowWrite<K, V, F, P>>,
) -> Result<(), NoMemory>
    ensures { IfOk result (λ _. writes.new.items ≡ writes.old.items ++ map drop_row keys.now) }
{
    push_each(keys, |key| Ok(RowWrite::drop_row(key.clone()?)), writes)
}

/// Drops the rows under each of these prefixes.
pub fn push_drops_under<K: Drop, V: Drop, F: Drop, P: ExactClone + Drop>(
    prefixes: &[P],
    writes: &mut Vec<RowWrite<K, V, F, P>>,
) -> Result<(), NoMemory>
    ensures { IfOk result (λ _. writes.new.items ≡ writes.old.items ++ map drop_under prefixes.now) }
{
    push_each(
        prefixes,
        |prefix| Ok(RowWrite::drop_under(prefix.clone()?)),
        writes,
    )
}

/// Sets the same field in the row of each of these keys.
pub fn push_patches<K: ExactClone + Drop, V: Drop, F: ExactClone + Drop, P: Drop>(
    keys: &[K],
    field: &F,
    writes: &mut Vec<RowWrite<K, V, F, P>>,
) -> Result<(), NoMemory>
    ensures { IfOk result (λ _. writes.new.items
        ≡ writes.old.items ++ map (λ key. patch key field.now) keys.now) }
{
    push_each(keys, |key| patch_copy(key, field), writes)
}

fn patch_copy<K: ExactClone + Drop, V: Drop, F: ExactClone + Drop, P: Drop>(
    key: &K,
    field: &F,
) -> Result<RowWrite<K, V, F, P>, NoMemory>
    ensures { IfOk result (λ write. write ≡ patch key.now field.now) }
{
    Ok(RowWrite::patch(key.clone()?, field.clone()?))
}
