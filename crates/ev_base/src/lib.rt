//! The base of every other crate: ids, texts, small enums and small lists, and the orders of keys.
#![tactic(auto)]

mod exact_clone;
mod expired;
mod ids;
mod kinds;
mod listed;
mod orders;
mod place;
mod plain_text;
mod text;

pub use ev_rows::{Keyed, NoMemory, RowList, rows_rise};
pub use exact_clone::ExactClone;
pub use expired::Expired;
pub use ids::{
    MessageId, QueueId, StreamId, UserId, queue_texts_have_36_bytes, queue_texts_read_back,
};
pub use kinds::{Flag, Privacy, Role, role_numbers_read_back};
pub use listed::Listed;
pub use orders::{code_compares_keys_in_their_order, keys_are_in_order};
pub use place::Place;
pub use plain_text::PlainText;
pub use text::{Text, TextFault, TextKind, texts_are_descriptions_or_contents};
