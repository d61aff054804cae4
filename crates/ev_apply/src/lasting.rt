//! The writes that last: those whose row is not dropped by its prefix later.

ghost use Rattle.std.specs.Prelude.{◌≡◌, ◌∷◌, IfOk, OnOk};
ghost use Rattle.ev_rows.specs.KeyOrder.{KeyOrder};
ghost use Rattle.ev_apply.specs.Lasts.{Lasts};

use crate::row_write::{Field, KeyWrite, Prefix, RowWrite, WriteKind};
use ev_base::NoMemory;
use std::alloc::Global;
use std::collections::BTreeSet;

// All prefixes under which rows are dropped, and the writes that no later one of them undoes. Done after
// all those drops they leave what the writes leave in their own order.
#[derive(Drop)]
pub struct Lasting<K, V, F, P: Ord> {
    pub dropped: BTreeSet<P>,
    // The latest comes first.
    pub writes: Vec<KeyWrite<K, V, F>>,
}

impl<K: Ord + Drop, V: Drop, F: Field<V>, P: Prefix<K>> Lasting<K, V, F, P> {
    // What lasts of these writes.
    pub fn of(
        alloc: Global,
        mut all: Vec<RowWrite<K, V, F, P>>,
    ) -> Result<Lasting<K, V, F, P>, NoMemory>
        ensures { KeyOrder K.cmp → IfOk result (λ lasting. Lasts (record { cmp = K.cmp; set = F.set; is_under = P.is_under })
            lasting.dropped.keys lasting.writes.items all.items) }
    {
        let mut lasting = Lasting {
            dropped: BTreeSet::new(alloc),
            writes: Vec::new(alloc),
        };
        while let Some(write) = all.pop() {
            lasting.take(write)?;
        }
        Ok(lasting)
    }

    // Takes in the write that comes before all those that it has.
    fn take(&mut self, write: RowWrite<K, V, F, P>) -> Result<(), NoMemory>
        ensures { KeyOrder K.cmp → (later : _)
            → Lasts (record { cmp = K.cmp; set = F.set; is_under = P.is_under })
            self.old.dropped.keys self.old.writes.items later
            → OnOk result (Lasts (record { cmp = K.cmp; set = F.set; is_under = P.is_under })
            self.new.dropped.keys self.new.writes.items (write ∷ later)) }
    {
        match write.into_kind() {
            WriteKind::DropUnder(prefix) => {
                self.dropped.insert(prefix)?;
            }
            WriteKind::Row(write) => {
                if !P::cover(&self.dropped, &write.key) {
                    self.writes.push(write)?;
                }
            }
        }
        Ok(())
    }
}
