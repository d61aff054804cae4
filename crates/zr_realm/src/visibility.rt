//! Who sees which streams and messages.

ghost use Rattle.std.specs.Prelude.{◌≡◌, ◌||◌, is_some, not};
ghost use Rattle.zr_types.specs.Tables.{receipt_of};
ghost use Rattle.zr_types.specs.Visibility.{has_protected_history, is_among, is_guest, is_protected, is_public, sees_at, sees_message, sees_stream};

use crate::realm::Realm;
use ev_base::{MessageId, Place, Privacy, Role, StreamId, UserId};
use zr_types::Message;

fn is_guest(role: Role) -> bool
    ensures { result ≡ is_guest role }
{
    matches!(role, Role::Guest)
}

fn is_public(privacy: Privacy) -> bool
    ensures { result ≡ is_public privacy }
{
    matches!(privacy, Privacy::Public)
}

fn is_protected(privacy: Privacy) -> bool
    ensures { result ≡ is_protected privacy }
{
    matches!(privacy, Privacy::Protected)
}

fn is_among(user: UserId, users: &[UserId]) -> bool
    ensures { result ≡ is_among user users.now }
{
    users.iter().any(|other| user.0 == other.0)
}

impl Realm {
    pub fn sees_stream(&self, user: UserId, stream: StreamId) -> bool
        ensures { result ≡ sees_stream self.now.state.tables user stream }
    {
        let Some(person) = self.user(user) else {
            return false;
        };
        let Some(row) = self.stream(stream) else {
            return false;
        };
        let is_open = is_public(row.privacy) && !is_guest(person.role);
        !row.archived && (self.is_subscribed(user, stream) || is_open)
    }

    pub fn sees_message(&self, user: UserId, message: MessageId) -> bool
        ensures { result ≡ sees_message self.now.state.tables user message }
    {
        let Some(row) = self.message(message) else {
            return false;
        };
        self.sees_row(user, message, row)
    }

    fn sees_row(&self, user: UserId, message: MessageId, row: &Message) -> bool
        ensures { result ≡ sees_at self.now.state.tables user message row.now.sender row.now.place }
    {
        match &row.place {
            Place::Stream { stream, .. } => {
                self.sees_stream(user, *stream) && self.sees_history(user, message, *stream)
            }
            Place::Direct { recipients } => {
                self.is_user(user)
                    && (user.0 == row.sender.0 || is_among(user, recipients.as_slice()))
            }
        }
    }

    // A protected history is seen by those who got the message.
    fn sees_history(&self, user: UserId, message: MessageId, stream: StreamId) -> bool
        ensures { result ≡ (not (has_protected_history self.now.state.tables user stream)
            || is_some (receipt_of self.now.state.tables user message)) }
    {
        let is_protected = self
            .stream(stream)
            .is_some_and(|row| is_protected(row.privacy));
        !is_protected || self.has_receipt(user, message)
    }
}
