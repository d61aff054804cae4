//! Parts of notices: who hears them, and what they tell of streams and messages that come.
#![tactic(auto)]

mod audiences;
mod receipts;
mod sight;

pub use audiences::{
    keys, peers, push_to_everyone, push_to_one, push_to_users, push_to_viewers, viewers,
};
pub use receipts::{push_to_readers, readers};
pub use sight::{push_arrived, push_subscribers, push_subscribers_of, sees_by};
