//! Lists of rows, a key and a value each, that are sorted by key.
#![tactic(auto)]

mod keyed;
mod memory;
mod merge;
mod row_list;

pub use keyed::{Keyed, rows_rise};
pub use memory::NoMemory;
pub use row_list::RowList;
