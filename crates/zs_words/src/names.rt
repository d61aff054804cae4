//! The names that words are taken from: of lines, properties, privacies, truth values, flags and what
//! is done with them, modes of a move, and kinds of events.

ghost use Rattle.std.specs.Prelude.{◌≡◌, List, ℕ, bytes_eq, codes, find, [], ◌∷◌};
ghost use Rattle.ev_types.specs.Feeders.{kind_name};
ghost use Rattle.zs_words.specs.Names as names;
ghost use Rattle.zs_words.specs.Names.{adds, command_name, field_name, flag_name, line_name, mode_name, operation_name, privacy_name, section_name, sub_name, truth_name};

use ev_base::{Flag, Privacy};
use ev_types::{EventKind, Section};
use zr_types::{Mode, NameField};

/// The names of the commands.
#[derive(Clone, Copy, Debug, PartialEq, Eq)]
pub enum CommandName {
    RealmUpdate,
    UserAdd,
    UserUpdate,
    UserRole,
    UserDeactivate,
    UserReactivate,
    StreamCreate,
    StreamUpdate,
    StreamPrivacy,
    StreamArchive,
    Subscribe,
    Unsubscribe,
    SubProperty,
    SendStream,
    SendDm,
    EditContent,
    Move,
    Delete,
    Flags,
    ReactionAdd,
    ReactionRemove,
}

/// The names of the lines, each of which is the line's first word.
#[derive(Clone, Copy, Debug, PartialEq, Eq)]
pub enum LineName {
    Command(CommandName),
    Shards,
    Notice,
    Push,
    Open,
    Fetch,
    Finish,
    Register,
    Poll,
    Beat,
    DeleteQueue,
    Tick,
    Where,
    View,
}

/// The properties of a subscription.
#[derive(Clone, Copy, Debug, PartialEq, Eq)]
pub enum SubProperty {
    Color,
    IsMuted,
    PinToTop,
}

/// What is done with a flag.
#[derive(Clone, Copy, Debug, PartialEq, Eq)]
pub enum Operation {
    Add,
    Remove,
}

/// A type of a few values, each with a name.
pub trait Named: Copy + 'static {
    ghost values: { List Self };

    ghost name_of: { Self → List ℕ };

    fn values() -> &'static [Self]
        ensures { result.now ≡ values };

    fn name(self) -> &'static str
        ensures { result.now ≡ name_of self };
}

/// The value whose name this word is.
pub fn read_name<T: Named>(word: &[u8]) -> Option<T>
    ensures { result ≡ find (λ value. bytes_eq (T.name_of value) word.now) T.values }
{
    T::values()
        .iter()
        .copied()
        .find(|value| value.name().as_bytes() == word)
}

impl CommandName {
    fn command_name(self) -> &'static str
        ensures { result.now ≡ command_name self }
    {
        match self {
            CommandName::RealmUpdate => "realm_update",
            CommandName::UserAdd => "user_add",
            CommandName::UserUpdate => "user_update",
            CommandName::UserRole => "user_role",
            CommandName::UserDeactivate => "user_deactivate",
            CommandName::UserReactivate => "user_reactivate",
            CommandName::StreamCreate => "stream_create",
            CommandName::StreamUpdate => "stream_update",
            CommandName::StreamPrivacy => "stream_privacy",
            CommandName::StreamArchive => "stream_archive",
            CommandName::Subscribe => "subscribe",
            CommandName::Unsubscribe => "unsubscribe",
            CommandName::SubProperty => "sub_property",
            CommandName::SendStream => "send_stream",
            CommandName::SendDm => "send_dm",
            CommandName::EditContent => "edit_content",
            CommandName::Move => "move",
            CommandName::Delete => "delete",
            CommandName::Flags => "flags",
            CommandName::ReactionAdd => "reaction_add",
            CommandName::ReactionRemove => "reaction_remove",
        }
    }
}

impl Operation {
    /// Whether the flag is set; else it is cleared.
    pub fn adds(self) -> bool
        ensures { result ≡ adds self }
    {
        self == Operation::Add
    }
}

impl Named for LineName {
    ghost values = { names.lines };

    ghost name_of = { line_name };

    fn values() -> &'static [LineName] {
        &[
            LineName::Command(CommandName::RealmUpdate),
            LineName::Command(CommandName::UserAdd),
            LineName::Command(CommandName::UserUpdate),
            LineName::Command(CommandName::UserRole),
            LineName::Command(CommandName::UserDeactivate),
            LineName::Command(CommandName::UserReactivate),
            LineName::Command(CommandName::StreamCreate),
            LineName::Command(CommandName::StreamUpdate),
            LineName::Command(CommandName::StreamPrivacy),
            LineName::Command(CommandName::StreamArchive),
            LineName::Command(CommandName::Subscribe),
            LineName::Command(CommandName::Unsubscribe),
            LineName::Command(CommandName::SubProperty),
            LineName::Command(CommandName::SendStream),
            LineName::Command(CommandName::SendDm),
            LineName::Command(CommandName::EditContent),
            LineName::Command(CommandName::Move),
            LineName::Command(CommandName::Delete),
            LineName::Command(CommandName::Flags),
            LineName::Command(CommandName::ReactionAdd),
            LineName::Command(CommandName::ReactionRemove),
            LineName::Shards,
            LineName::Notice,
            LineName::Push,
            LineName::Open,
            LineName::Fetch,
            LineName::Finish,
            LineName::Register,
            LineName::Poll,
            LineName::Beat,
            LineName::DeleteQueue,
            LineName::Tick,
            LineName::Where,
            LineName::View,
        ]
    }

    fn name(self) -> &'static str {
        match self {
            LineName::Command(command) => command.command_name(),
            LineName::Shards => "shards",
            LineName::Notice => "notice",
            LineName::Push => "push",
            LineName::Open => "open",
            LineName::Fetch => "fetch",
            LineName::Finish => "finish",
            LineName::Register => "register",
            LineName::Poll => "poll",
            LineName::Beat => "beat",
            LineName::DeleteQueue => "delete_queue",
            LineName::Tick => "tick",
            LineName::Where => "where",
            LineName::View => "view",
        }
    }
}

impl Named for SubProperty {
    ghost values = { names.sub_properties };

    ghost name_of = { sub_name };

    fn values() -> &'static [SubProperty] {
        &[
            SubProperty::Color,
            SubProperty::IsMuted,
            SubProperty::PinToTop,
        ]
    }

    fn name(self) -> &'static str {
        match self {
            SubProperty::Color => "color",
            SubProperty::IsMuted => "is_muted",
            SubProperty::PinToTop => "pin_to_top",
        }
    }
}

impl Named for NameField {
    ghost values = { names.name_fields };

    ghost name_of = { field_name };

    fn values() -> &'static [NameField] {
        &[NameField::Name, NameField::Description]
    }

    fn name(self) -> &'static str {
        match self {
            NameField::Name => "name",
            NameField::Description => "description",
        }
    }
}

impl Named for Privacy {
    ghost values = { names.privacies };

    ghost name_of = { privacy_name };

    fn values() -> &'static [Privacy] {
        &[Privacy::Public, Privacy::Shared, Privacy::Protected]
    }

    fn name(self) -> &'static str {
        match self {
            Privacy::Public => "public",
            Privacy::Shared => "shared",
            Privacy::Protected => "protected",
        }
    }
}

impl Named for Mode {
    ghost values = { names.modes };

    ghost name_of = { mode_name };

    fn values() -> &'static [Mode] {
        &[Mode::One, Mode::Later, Mode::All]
    }

    fn name(self) -> &'static str {
        match self {
            Mode::One => "one",
            Mode::Later => "later",
            Mode::All => "all",
        }
    }
}

impl Named for Operation {
    ghost values = { names.operations };

    ghost name_of = { operation_name };

    fn values() -> &'static [Operation] {
        &[Operation::Add, Operation::Remove]
    }

    fn name(self) -> &'static str {
        match self {
            Operation::Add => "add",
            Operation::Remove => "remove",
        }
    }
}

impl Named for Flag {
    ghost values = { names.flags };

    ghost name_of = { flag_name };

    fn values() -> &'static [Flag] {
        &[Flag::Read, Flag::Starred, Flag::Collapsed]
    }

    fn name(self) -> &'static str {
        match self {
            Flag::Read => "read",
            Flag::Starred => "starred",
            Flag::Collapsed => "collapsed",
        }
    }
}

impl Named for bool {
    ghost values = { names.truth_values };

    ghost name_of = { truth_name };

    fn values() -> &'static [bool] {
        &[false, true]
    }

    fn name(self) -> &'static str {
        if self { "true" } else { "false" }
    }
}

impl Named for EventKind {
    ghost values = { names.kinds };

    ghost name_of = { kind_name };

    fn values() -> &'static [EventKind] {
        &[
            EventKind::Realm,
            EventKind::RealmUser,
            EventKind::Stream,
            EventKind::Subscription,
            EventKind::Message,
            EventKind::MessagesRestored,
            EventKind::UpdateMessage,
            EventKind::UpdateMessageFlags,
            EventKind::DeleteMessage,
            EventKind::Reaction,
            EventKind::Heartbeat,
        ]
    }

    fn name(self) -> &'static str {
        EventKind::name(self)
    }
}

impl Named for Section {
    ghost values = { names.all_sections };

    ghost name_of = { section_name };

    fn values() -> &'static [Section] {
        &[
            Section::Realm,
            Section::RealmUsers,
            Section::Streams,
            Section::Subscriptions,
            Section::Subscribers,
            Section::Messages,
            Section::Reactions,
            Section::StarredMessages,
            Section::UnreadMessages,
        ]
    }

    fn name(self) -> &'static str {
        match self {
            Section::Realm => "realm",
            Section::RealmUsers => "realm_users",
            Section::Streams => "streams",
            Section::Subscriptions => "subscriptions",
            Section::Subscribers => "subscribers",
            Section::Messages => "messages",
            Section::Reactions => "reactions",
            Section::StarredMessages => "starred_messages",
            Section::UnreadMessages => "unread_msgs",
        }
    }
}
