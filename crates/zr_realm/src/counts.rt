//! What a realm counts, and what a commit adds to it.

ghost use Rattle.std.specs.Prelude.{◌≡◌, ◌<◌, ◌^◌, length};
ghost use Rattle.zr_types.specs.declared.command.Command.{Command};
ghost use Rattle.zr_types.specs.Commands.{bytes_of};
ghost use Rattle.zr_types.specs.Effects.{sends};
ghost use Rattle.zr_types.specs.Tables.{opening_tables};

use ev_base::PlainText;
use zr_types::{Command, MarkCommand, PeopleCommand, PostCommand, StreamCommand, SubField};

/// What a realm counts: its commits, the messages that were ever sent, and the bytes of the texts that
/// accepted commands carried.
#[derive(Clone, Copy, Debug)]
pub struct Counts {
    pub commits: u64,
    pub sent: u64,
    pub text_bytes: u64,
}

/// How many messages the command sends.
pub fn messages_sent(command: &Command) -> u64
    ensures { result ≡ sends command.now }
{
    match command {
        Command::Posts(PostCommand::SendStream { .. } | PostCommand::SendDm { .. }) => 1,
        _ => 0,
    }
}

/// The bytes of the texts that the command carries.
pub fn text_bytes(command: &Command) -> u64
    requires { bytes_of opening_tables command.now < 2 ^ 64 }
    ensures { result ≡ bytes_of opening_tables command.now }
{
    match command {
        Command::People(command) => people_bytes(command),
        Command::Streams(command) => stream_bytes(command),
        Command::Posts(command) => post_bytes(command),
        Command::Marks(command) => mark_bytes(command),
    }
}

fn len(text: &PlainText) -> u64
    ensures { result ≡ length text.now }
{
    text.as_str().len() as u64
}

fn people_bytes(command: &PeopleCommand) -> u64
    requires { bytes_of opening_tables (Command.People command.now) < 2 ^ 64 }
    ensures { result ≡ bytes_of opening_tables (Command.People command.now) }
{
    match command {
        PeopleCommand::RealmUpdate { value, .. } => len(value),
        PeopleCommand::UserAdd {
            email,
            full_name,
            key,
            ..
        } => len(email) + len(full_name) + len(key),
        PeopleCommand::UserUpdate { full_name, .. } => len(full_name),
        _ => 0,
    }
}

fn stream_bytes(command: &StreamCommand) -> u64
    requires { bytes_of opening_tables (Command.Streams command.now) < 2 ^ 64 }
    ensures { result ≡ bytes_of opening_tables (Command.Streams command.now) }
{
    match command {
        StreamCommand::Create {
            name,
            description,
            ..
        } => len(name) + len(description),
        StreamCommand::Update { value, .. } => len(value),
        StreamCommand::SubProperty {
            value: SubField::Color(color),
            ..
        } => len(color),
        _ => 0,
    }
}

fn post_bytes(command: &PostCommand) -> u64
    requires { bytes_of opening_tables (Command.Posts command.now) < 2 ^ 64 }
    ensures { result ≡ bytes_of opening_tables (Command.Posts command.now) }
{
    match command {
        PostCommand::SendStream { topic, content, .. } => len(topic) + len(content),
        PostCommand::SendDm { content, .. } | PostCommand::EditContent { content, .. } => {
            len(content)
        }
        PostCommand::Move {
            topic: Some(topic),
            ..
        } => len(topic),
        _ => 0,
    }
}

fn mark_bytes(command: &MarkCommand) -> u64
    requires { bytes_of opening_tables (Command.Marks command.now) < 2 ^ 64 }
    ensures { result ≡ bytes_of opening_tables (Command.Marks command.now) }
{
    match command {
        MarkCommand::ReactionAdd { emoji, .. } | MarkCommand::ReactionRemove { emoji, .. } => {
            len(emoji)
        }
        MarkCommand::Flags { .. } => 0,
    }
}
