//! What differs between two lists of rows, or between two values of a row.

ghost use Rattle.std.specs.Prelude.{◌≡◌, List, [], ◌∷◌, ◌++◌, flat_map, map, IfOk};
ghost use Rattle.ev_rows.specs.Rows.{gained, kept, keys_of, one_of};
ghost use Rattle.ev_types.specs.declared.event.Event.{Event};
ghost use Rattle.ev_types.specs.Changes.{unless};

use ev_base::{ExactClone, Keyed, Listed, NoMemory};
use ev_types::Event;
use std::alloc::Global;

/// A row whose changed fields events tell one by one.
pub trait Changing<K>: Sized {
    ghost changes: { K × (Self × Self) → List Event };

    /// Adds the events that tell what differs between two values of a key's row.
    fn push_changes(
        key: K,
        before: &Self,
        after: &Self,
        events: &mut Vec<Event>,
    ) -> Result<(), NoMemory>
        ensures { IfOk result (λ _. events.new.items
            ≡ events.old.items ++ changes (key, (before.now, after.now))) };
}

/// Adds the event made of the new value of a field, where the field changed.
pub fn push_change<T: ExactClone + PartialEq, F: FnOnce(T) -> Event>(
    events: &mut Vec<Event>,
    before: &T,
    after: &T,
    make: F,
) -> Result<(), NoMemory>
    requires { F.IsAlwaysCallable make }
    ensures { (event : T → Event) → ((value : T) (made : Event) → F.post make value made → made ≡ event value)
        → IfOk result (λ _. events.new.items
        ≡ events.old.items ++ unless (T.eq before.now after.now) (event after.now)) }
{
    if before != after {
        events.push(make(after.clone()?))?;
    }
    Ok(())
}

/// The rows afterwards whose keys had no row before.
pub fn gained_rows<K: Ord + ExactClone, V: ExactClone>(
    alloc: Global,
    before: &Keyed<K, V>,
    after: &Keyed<K, V>,
) -> Result<Vec<(K, V)>, NoMemory>
    ensures { IfOk result (λ rows. rows.items ≡ gained K.cmp before.now.rows after.now.rows) }
{
    let mut rows = Vec::new(alloc);
    for row in after.rows() {
        if before.get(&row.0).is_none() {
            rows.push(row.clone()?)?;
        }
    }
    Ok(rows)
}

/// The keys of the rows afterwards that had no row before.
pub fn gained_keys<K: Ord + Copy, V>(
    alloc: Global,
    before: &Keyed<K, V>,
    after: &Keyed<K, V>,
) -> Result<Vec<K>, NoMemory>
    ensures { IfOk result (λ keys. keys.items ≡ keys_of (gained K.cmp before.now.rows after.now.rows)) }
{
    let mut keys = Vec::new(alloc);
    for row in after.rows() {
        if before.get(&row.0).is_none() {
            keys.push(row.0)?;
        }
    }
    Ok(keys)
}

/// Adds what changed in the rows whose keys have a row in both.
pub fn push_kept<K: Ord + Copy, V: Changing<K>>(
    before: &Keyed<K, V>,
    after: &Keyed<K, V>,
    events: &mut Vec<Event>,
) -> Result<(), NoMemory>
    ensures { IfOk result (λ _. events.new.items
        ≡ events.old.items ++ flat_map V.changes (kept K.cmp before.now.rows after.now.rows)) }
{
    for row in after.rows() {
        push_if_kept(before, row, events)?;
    }
    Ok(())
}

fn push_if_kept<K: Ord + Copy, V: Changing<K>>(
    before: &Keyed<K, V>,
    row: &(K, V),
    events: &mut Vec<Event>,
) -> Result<(), NoMemory>
    ensures { IfOk result (λ _. events.new.items
        ≡ events.old.items ++ flat_map V.changes (kept K.cmp before.now.rows (row.now ∷ []))) }
{
    match before.get(&row.0) {
        Some(old) => V::push_changes(row.0, old, &row.1, events),
        None => Ok(()),
    }
}

/// Adds one event made of a list, where the list isn't empty.
pub fn push_one_of<T: Drop, F: FnOnce(Listed<T>) -> Event>(
    events: &mut Vec<Event>,
    items: Vec<T>,
    make: F,
) -> Result<(), NoMemory>
    requires { F.IsAlwaysCallable make }
    ensures { (event : List T → Event) → ((list : List T) (made : Event) → F.post make list made → made ≡ event list)
        → IfOk result (λ _. events.new.items ≡ events.old.items ++ one_of event items.items) }
{
    if !items.is_empty() {
        events.push(make(Listed::from_vec(items)))?;
    }
    Ok(())
}

/// Adds an event for each item.
pub fn push_each<T: Drop, F: Fn(T) -> Event>(
    events: &mut Vec<Event>,
    items: Vec<T>,
    make: F,
) -> Result<(), NoMemory>
    requires { F.IsAlwaysCallable make }
    ensures { (event : T → Event) → ((item : T) (made : Event) → F.post make item made → made ≡ event item)
        → IfOk result (λ _. events.new.items ≡ events.old.items ++ map event items.items) }
{
    for item in items {
        events.push(make(item))?;
    }
    Ok(())
}
