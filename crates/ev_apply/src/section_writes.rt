//! The writes to one section of a state, which is present or not.

ghost use Rattle.std.specs.Prelude.{◌≡◌, IsOk, None, OnOk, option_map};
ghost use Rattle.ev_types.specs.Sections.{rows_in};
ghost use Rattle.ev_types.specs.Writes.{after_writes};
ghost use Rattle.ev_apply.specs.Lasts.{CanApply, DoesWrites};
ghost use Rattle.ev_apply.specs.Room.{HasRoom};

use crate::lasting::Lasting;
use crate::row_write::{Field, Prefix};
use crate::rows::{apply_writes, drop_covered};
use crate::sorted_writes::SortedWrites;
use ev_base::{Keyed, NoMemory};

/// Makes room for this many rows, where the section is present.
pub fn reserve_in<K: Ord, V>(section: &mut Option<Keyed<K, V>>, puts: usize) -> Result<(), NoMemory>
    ensures rows { rows_in section.new ≡ rows_in section.old }
    ensures room { OnOk result (HasRoom puts section.new) }
    ensures absent { rows_in section.old ≡ None → IsOk result }
{
    match section {
        Some(rows) => rows.reserve(puts),
        None => Ok(()),
    }
}

/// Applies these writes, where the section is present.
pub fn apply_in<K: Ord + Drop, V: Drop, F: Field<V>, P: Prefix<K>>(
    section: &mut Option<Keyed<K, V>>,
    sorted: SortedWrites<K, V, F, P>,
)
    requires { CanApply K.cmp sorted section.old }
    ensures { (all : _) → DoesWrites (record { cmp = K.cmp; set = F.set; is_under = P.is_under }) sorted all
        → rows_in section.new ≡ option_map
        (λ rows. after_writes (record { cmp = K.cmp; set = F.set; is_under = P.is_under }) rows all)
        (rows_in section.old) }
{
    if let Some(rows) = section {
        let Lasting { dropped, writes } = sorted.lasting;
        rows.rows();
        drop_covered(rows, &dropped);
        apply_writes(rows, writes);
    }
}
