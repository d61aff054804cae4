//! What a realm is made of: the rows of its tables, the commands that change them, and why these are
//! refused. The definitions say what a user sees, which commands are refused, and what the others
//! change.
#![tactic(auto)]

mod command;
mod people;
mod posts;
mod streams;

pub use command::{
    Change, Command, CommitFault, Committed, MarkCommand, Mode, NameField, PeopleCommand,
    PostCommand, Refusal, StreamCommand, StreamRef, SubField,
};
pub use people::{RealmRow, User};
pub use posts::{Message, Receipt};
pub use streams::{Stream, Subscription};
