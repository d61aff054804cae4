//! The names of parameters.

ghost use Rattle.std.specs.Prelude.{◌≡◌};
ghost use Rattle.hw_values.specs.Params.{param_name};

/// A parameter of a request, in its path, its query or its body.
#[derive(Clone, Copy, Debug, PartialEq, Eq)]
pub enum Param {
    AllPublicStreams,
    ApiKey,
    ApplyMarkdown,
    Content,
    Description,
    DontBlock,
    Email,
    EmojiName,
    EventTypes,
    FetchEventTypes,
    Flag,
    FullName,
    HistoryPublic,
    Id,
    InviteOnly,
    IsPrivate,
    LastEventId,
    Messages,
    Name,
    Narrow,
    NewName,
    Operation,
    PropagateMode,
    Property,
    QueueId,
    Role,
    StreamId,
    To,
    Topic,
    Type,
    UserId,
    Value,
}

impl Param {
    /// The name by which a request gives it.
    pub fn name(self) -> &'static str
        ensures { result.now ≡ param_name self }
    {
        match self {
            Param::AllPublicStreams => "all_public_streams",
            Param::ApiKey => "api_key",
            Param::ApplyMarkdown => "apply_markdown",
            Param::Content => "content",
            Param::Description => "description",
            Param::DontBlock => "dont_block",
            Param::Email => "email",
            Param::EmojiName => "emoji_name",
            Param::EventTypes => "event_types",
            Param::FetchEventTypes => "fetch_event_types",
            Param::Flag => "flag",
            Param::FullName => "full_name",
            Param::HistoryPublic => "history_public_to_subscribers",
            Param::Id => "id",
            Param::InviteOnly => "invite_only",
            Param::IsPrivate => "is_private",
            Param::LastEventId => "last_event_id",
            Param::Messages => "messages",
            Param::Name => "name",
            Param::Narrow => "narrow",
            Param::NewName => "new_name",
            Param::Operation => "op",
            Param::PropagateMode => "propagate_mode",
            Param::Property => "property",
            Param::QueueId => "queue_id",
            Param::Role => "role",
            Param::StreamId => "stream_id",
            Param::To => "to",
            Param::Topic => "topic",
            Param::Type => "type",
            Param::UserId => "user_id",
            Param::Value => "value",
        }
    }
}
