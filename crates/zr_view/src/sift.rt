//! Of each row of a table, a row of its own key, or none.

ghost use Rattle.std.specs.Prelude.{◌≡◌, Option, IfOk};
ghost use Rattle.std.specs.Fn.{FnReturnsAt};
ghost use Rattle.ev_rows.specs.Rows.{SortedByKey, sift};
ghost use Rattle.zr_view.specs.Makers.{Makes};

use ev_base::{ExactClone, Keyed, NoMemory};
use std::alloc::Global;

/// What `make` makes of each row, under the row's key.
pub fn sifted<
    K: Ord + ExactClone + Drop,
    V,
    W: Drop,
    F: Fn(&(K, V)) -> Result<Option<W>, NoMemory>,
>(alloc: Global, rows: &[(K, V)], make: F) -> Result<Keyed<K, W>, NoMemory>
    requires rise { SortedByKey K.cmp rows.now }
    requires calls { F.IsAlwaysCallable make }
    ensures { (of : K × V → Option W) → Makes F.Fn make of
        → IfOk result (λ made. made.rows ≡ sift of rows.now) }
{
    let mut made = Vec::new(alloc);
    for row in rows {
        if let Some(value) = make(row)? {
            made.push((row.0.clone()?, value))?;
        }
    }
    Ok(Keyed::from_vec(made))
}
