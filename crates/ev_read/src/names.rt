//! The names that texts of rows and events are.

ghost use Rattle.std.specs.Prelude.{◌≡◌};
ghost use Rattle.ev_read.specs.Names as spec;

use ev_base::Flag;
use ev_types::EventKind;

/// What a message stands in: a stream, or the messages between some users.
#[derive(Clone, Copy)]
pub enum PlaceKind {
    InStream,
    ToUsers,
}

/// Whether something is added or removed.
#[derive(Clone, Copy)]
pub enum AddOrRemove {
    Add,
    Remove,
}

/// What an event of a user tells.
#[derive(Clone, Copy)]
pub enum UserOperation {
    Add,
    Update,
}

/// What an event of streams tells.
#[derive(Clone, Copy)]
pub enum StreamOperation {
    Create,
    Update,
    Delete,
}

/// What an event of subscriptions tells.
#[derive(Clone, Copy)]
pub enum SubOperation {
    Add,
    Update,
    Remove,
    PeerAdd,
    PeerRemove,
}

/// A field of the realm.
#[derive(Clone, Copy)]
pub enum RealmProperty {
    Name,
    Description,
}

/// A field of a stream.
#[derive(Clone, Copy)]
pub enum StreamProperty {
    Name,
    Description,
    InviteOnly,
    HistoryPublicToSubscribers,
}

/// A field of a subscription.
#[derive(Clone, Copy)]
pub enum SubProperty {
    Color,
    IsMuted,
    PinToTop,
}

/// The flag of this name.
pub fn flag_named(name: &str) -> Option<Flag>
    ensures { result ≡ spec.flag_named name.now }
{
    match name {
        "collapsed" => Some(Flag::Collapsed),
        "read" => Some(Flag::Read),
        "starred" => Some(Flag::Starred),
        _ => None,
    }
}

/// The kind of place of this name.
pub fn place_named(name: &str) -> Option<PlaceKind>
    ensures { result ≡ spec.place_named name.now }
{
    match name {
        "stream" => Some(PlaceKind::InStream),
        "private" => Some(PlaceKind::ToUsers),
        _ => None,
    }
}

/// The kind of events whose type is this.
pub fn kind_named(name: &str) -> Option<EventKind>
    ensures { result ≡ spec.kind_named name.now }
{
    match name {
        "realm" => Some(EventKind::Realm),
        "realm_user" => Some(EventKind::RealmUser),
        "stream" => Some(EventKind::Stream),
        "subscription" => Some(EventKind::Subscription),
        "message" => Some(EventKind::Message),
        "messages_restored" => Some(EventKind::MessagesRestored),
        "update_message" => Some(EventKind::UpdateMessage),
        "update_message_flags" => Some(EventKind::UpdateMessageFlags),
        "delete_message" => Some(EventKind::DeleteMessage),
        "reaction" => Some(EventKind::Reaction),
        "heartbeat" => Some(EventKind::Heartbeat),
        _ => None,
    }
}

pub fn add_or_remove(name: &str) -> Option<AddOrRemove>
    ensures { result ≡ spec.add_or_remove name.now }
{
    match name {
        "add" => Some(AddOrRemove::Add),
        "remove" => Some(AddOrRemove::Remove),
        _ => None,
    }
}

pub fn user_operation(name: &str) -> Option<UserOperation>
    ensures { result ≡ spec.user_operation name.now }
{
    match name {
        "add" => Some(UserOperation::Add),
        "update" => Some(UserOperation::Update),
        _ => None,
    }
}

pub fn stream_operation(name: &str) -> Option<StreamOperation>
    ensures { result ≡ spec.stream_operation name.now }
{
    match name {
        "create" => Some(StreamOperation::Create),
        "update" => Some(StreamOperation::Update),
        "delete" => Some(StreamOperation::Delete),
        _ => None,
    }
}

pub fn sub_operation(name: &str) -> Option<SubOperation>
    ensures { result ≡ spec.sub_operation name.now }
{
    match name {
        "add" => Some(SubOperation::Add),
        "update" => Some(SubOperation::Update),
        "remove" => Some(SubOperation::Remove),
        "peer_add" => Some(SubOperation::PeerAdd),
        "peer_remove" => Some(SubOperation::PeerRemove),
        _ => None,
    }
}

pub fn realm_property(name: &str) -> Option<RealmProperty>
    ensures { result ≡ spec.realm_property name.now }
{
    match name {
        "name" => Some(RealmProperty::Name),
        "description" => Some(RealmProperty::Description),
        _ => None,
    }
}

pub fn stream_property(name: &str) -> Option<StreamProperty>
    ensures { result ≡ spec.stream_property name.now }
{
    match name {
        "name" => Some(StreamProperty::Name),
        "description" => Some(StreamProperty::Description),
        "invite_only" => Some(StreamProperty::InviteOnly),
        "history_public_to_subscribers" => Some(StreamProperty::HistoryPublicToSubscribers),
        _ => None,
    }
}

pub fn sub_property(name: &str) -> Option<SubProperty>
    ensures { result ≡ spec.sub_property name.now }
{
    match name {
        "color" => Some(SubProperty::Color),
        "is_muted" => Some(SubProperty::IsMuted),
        "pin_to_top" => Some(SubProperty::PinToTop),
        _ => None,
    }
}
