//! The words of a script's lines: names, numbers, texts, lists and references to streams.
#![tactic(auto)]

mod fault;
mod lists;
mod names;
mod numbers;
mod stream_refs;
mod texts;

pub use fault::LineFault;
pub use lists::{fetch_of, is_fetch, is_ids, is_types, read_messages, types_of, users_of};
pub use names::{CommandName, LineName, Named, Operation, SubProperty, read_name};
pub use numbers::{
    read_event_number, read_message, read_moment, read_notice_number, read_queue, read_role,
    read_shard, read_shard_count, read_stream, read_user,
};
pub use stream_refs::{is_stream_ref, stream_ref_of};
pub use texts::{is_text, read_text, text_of};
