//! The commands of calls.

ghost use Rattle.std.specs.Prelude.{◌≡◌};
ghost use Rattle.sv_answers.specs.Commands.{for_user, made_by};

use ev_base::UserId;
use zr_types::{Command, MarkCommand, PeopleCommand, PostCommand, StreamCommand};

/// What the answer to an accepted command tells.
#[derive(Clone, Copy, Debug, PartialEq, Eq)]
pub enum Made {
    Message,
    User,
    Stream,
    Flags,
    Nothing,
}

/// What a command makes, if it is accepted.
pub fn made_by(command: &Command) -> Made
    ensures { result ≡ made_by command.now }
{
    match command {
        Command::Posts(PostCommand::SendStream { .. } | PostCommand::SendDm { .. }) => {
            Made::Message
        }
        Command::People(PeopleCommand::UserAdd { .. }) => Made::User,
        Command::Streams(StreamCommand::Create { .. }) => Made::Stream,
        Command::Marks(MarkCommand::Flags { .. }) => Made::Flags,
        _ => Made::Nothing,
    }
}

/// The command, where the subscription that it makes or ends is this user's.
pub fn for_user(command: Command, user: UserId) -> Command
    ensures { result ≡ for_user command user }
{
    match command {
        Command::Streams(StreamCommand::Subscribe { stream, .. }) => {
            Command::Streams(StreamCommand::Subscribe { stream, user })
        }
        Command::Streams(StreamCommand::Unsubscribe { stream, .. }) => {
            Command::Streams(StreamCommand::Unsubscribe { stream, user })
        }
        other => other,
    }
}
