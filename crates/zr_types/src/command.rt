//! The commands that change a realm, and what may come of them.

use ev_base::{
    Flag, Listed, MessageId, NoMemory, PlainText, Privacy, Role, StreamId, Text, UserId,
};

/// A field of the realm or of a stream.
#[derive(Clone, Copy, Debug, PartialEq, Eq)]
pub enum NameField {
    Name,
    Description,
}

/// A field of a subscription, with its new value.
#[derive(Debug, Drop)]
pub enum SubField {
    Color(PlainText),
    IsMuted(bool),
    PinToTop(bool),
}

/// A stream by its number, or by its name among the streams that the actor sees.
#[derive(Debug, Drop)]
pub enum StreamRef {
    Id(StreamId),
    Name(PlainText),
}

/// Which messages move: one, those of its stream and topic from it on, or all of these.
#[derive(Clone, Copy, Debug, PartialEq, Eq)]
pub enum Mode {
    One,
    Later,
    All,
}

/// What an actor asks for. Texts are kept as given.
#[derive(Debug, Drop)]
pub enum Command {
    People(PeopleCommand),
    Streams(StreamCommand),
    Posts(PostCommand),
    Marks(MarkCommand),
}

/// Changes to the realm's own row and to users.
#[derive(Debug, Drop)]
pub enum PeopleCommand {
    RealmUpdate {
        property: NameField,
        value: PlainText,
    },
    UserAdd {
        email: PlainText,
        full_name: PlainText,
        role: Role,
        key: PlainText,
    },
    UserUpdate {
        user: UserId,
        full_name: PlainText,
    },
    UserRole {
        user: UserId,
        role: Role,
    },
    UserDeactivate {
        user: UserId,
    },
    UserReactivate {
        user: UserId,
    },
}

/// Changes to streams and subscriptions.
#[derive(Debug, Drop)]
pub enum StreamCommand {
    Create {
        name: PlainText,
        description: PlainText,
        privacy: Privacy,
    },
    Update {
        stream: StreamId,
        property: NameField,
        value: PlainText,
    },
    SetPrivacy {
        stream: StreamId,
        privacy: Privacy,
    },
    Archive {
        stream: StreamId,
    },
    Subscribe {
        stream: StreamId,
        user: UserId,
    },
    Unsubscribe {
        stream: StreamId,
        user: UserId,
    },
    SubProperty {
        stream: StreamId,
        value: SubField,
    },
}

/// Changes to messages.
#[derive(Debug, Drop)]
pub enum PostCommand {
    SendStream {
        to: StreamRef,
        topic: PlainText,
        content: PlainText,
    },
    SendDm {
        users: Listed<UserId>,
        content: PlainText,
    },
    EditContent {
        message: MessageId,
        content: PlainText,
    },
    /// A part of the new place that isn't given stays as it is.
    Move {
        message: MessageId,
        stream: Option<StreamId>,
        topic: Option<PlainText>,
        mode: Mode,
    },
    Delete {
        message: MessageId,
    },
}

/// Changes to what users marked messages with.
#[derive(Debug, Drop)]
pub enum MarkCommand {
    Flags {
        add: bool,
        flag: Flag,
        messages: Listed<MessageId>,
    },
    ReactionAdd {
        message: MessageId,
        emoji: PlainText,
    },
    ReactionRemove {
        message: MessageId,
        emoji: PlainText,
    },
}

/// A command that a check accepted, with all that its effect needs. A stream's name is replaced by
/// its number, the users of a direct message by its recipients, and both parts of a move's place are
/// given.
#[derive(Debug, Drop)]
pub struct Change {
    pub actor: UserId,
    pub moment: u64,
    pub command: Command,
    /// The texts to be stored, in the order of the command's arguments.
    pub texts: Listed<Text>,
    /// The users who get a receipt, the messages that move, or those whose flag differs. They rise.
    pub ids: Listed<u32>,
}

/// Why a command is refused, in the order in which the reasons are tried.
#[derive(Clone, Copy, Debug, PartialEq, Eq)]
pub enum Refusal {
    ActorUnknown,
    NotPermitted,
    NoSuchUser,
    NoSuchStream,
    NoSuchMessage,
    NameTaken,
    AlreadySo,
    NotSo,
    BadText,
    LimitReached,
    LogFull,
}

/// An accepted command: the commit's number, the number of the new user, stream or message, and the
/// messages whose flags it changed.
#[derive(Debug, Drop)]
pub struct Committed {
    pub number: u64,
    pub id: Option<u32>,
    pub changed: Listed<u32>,
}

/// Why a command was not committed.
#[derive(Clone, Copy, Debug, PartialEq, Eq)]
pub enum CommitFault {
    Refused(Refusal),
    NoMemory,
}

impl From<NoMemory> for CommitFault {
    ghost use Rattle.std.specs.Prelude.{◌≡◌};
    ghost use Rattle.zr_types.specs.declared.command.CommitFault.{CommitFault};

    ghost from_gives = { λ _ fault. fault ≡ CommitFault.NoMemory };

    fn from(_: NoMemory) -> Self {
        CommitFault::NoMemory
    }
}
