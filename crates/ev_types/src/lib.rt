//! Views by their sections, the events that tell of changes to them, and notices: events with those
//! who hear them.
#![tactic(auto)]

mod event;
mod kind;
pub mod laws;
mod notice;
mod rows;
mod section;
mod state;

pub use event::{
    Event, FlagChange, FullMessage, Item, RealmField, StreamField, SubscriptionField, UserField,
};
pub use kind::{EventKind, Types};
pub use notice::{Audience, Notice, Part};
pub use rows::{MessageFlags, ShownMessage, ShownRealm, ShownStream, ShownSubscription, ShownUser};
pub use section::Section;
pub use state::{Rows, State};
