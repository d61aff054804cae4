//! The room that rows to come need.

ghost use Rattle.std.specs.Prelude.{◌≡◌, length};
ghost use Rattle.zr_realm.specs.Room.{no_rows, new_rows};

use zr_types::{Change, Command, MarkCommand, PeopleCommand, PostCommand, StreamCommand};

/// Numbers of rows of each kind: as many as there is room for, or as many as are to come.
#[derive(Clone, Copy, Debug)]
pub struct Rooms {
    pub users: usize,
    pub streams: usize,
    pub subscriptions: usize,
    pub messages: usize,
    pub receipts: usize,
    pub reactions: usize,
    /// Receipts that come by one merge.
    pub merged: usize,
}

fn no_rows() -> Rooms
    ensures { result ≡ no_rows }
{
    Rooms {
        users: 0,
        streams: 0,
        subscriptions: 0,
        messages: 0,
        receipts: 0,
        reactions: 0,
        merged: 0,
    }
}

/// The new rows of a change.
pub fn new_rows(change: &Change) -> Rooms
    ensures { result ≡ new_rows change.now.command (length change.now.ids) }
{
    match &change.command {
        Command::People(PeopleCommand::UserAdd { .. }) => Rooms {
            users: 1,
            ..no_rows()
        },
        Command::Streams(StreamCommand::Create { .. }) => Rooms {
            streams: 1,
            subscriptions: 1,
            ..no_rows()
        },
        Command::Streams(StreamCommand::Subscribe { .. }) => Rooms {
            subscriptions: 1,
            ..no_rows()
        },
        Command::Posts(PostCommand::SendStream { .. } | PostCommand::SendDm { .. }) => {
            let receipts = change.ids.len();
            Rooms {
                messages: 1,
                receipts,
                merged: receipts,
                ..no_rows()
            }
        }
        Command::Marks(MarkCommand::ReactionAdd { .. }) => Rooms {
            reactions: 1,
            ..no_rows()
        },
        _ => no_rows(),
    }
}
