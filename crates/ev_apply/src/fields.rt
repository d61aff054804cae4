//! What setting a field makes of the rows of each section, and which keys are under a prefix.

ghost use Rattle.std.specs.Prelude.{◌≡◌};
ghost use Rattle.ev_types.specs.EventWrites.{flags_with};

use crate::message_field::{MessageField, MessageFieldKind};
use crate::row_write::{Field, NoField, Prefix};
use ev_base::{Flag, MessageId, Place, StreamId, Text, UserId};
use ev_types::{
    MessageFlags, ShownMessage, ShownStream, ShownSubscription, ShownUser, StreamField,
    SubscriptionField, UserField,
};
use std::collections::BTreeSet;

impl Field<ShownUser> for UserField {
    ghost use Rattle.ev_types.specs.EventWrites.{user_with};

    ghost set = { user_with };

    fn set(self, row: &mut ShownUser) {
        match self {
            UserField::FullName(full_name) => row.full_name = full_name,
            UserField::Role(role) => row.role = role,
            UserField::IsActive(is_active) => row.is_active = is_active,
        }
    }
}

impl Field<ShownStream> for StreamField {
    ghost use Rattle.ev_types.specs.EventWrites.{stream_with};

    ghost set = { stream_with };

    fn set(self, row: &mut ShownStream) {
        match self {
            StreamField::Name(name) => row.name = name,
            StreamField::Description(description) => row.description = description,
            StreamField::InviteOnly(invite_only) => row.invite_only = invite_only,
            StreamField::HistoryPublicToSubscribers(public) => row.history_public_to_subscribers =
                public,
        }
    }
}

impl Field<ShownSubscription> for SubscriptionField {
    ghost use Rattle.ev_types.specs.EventWrites.{subscription_with};

    ghost set = { subscription_with };

    fn set(self, row: &mut ShownSubscription) {
        match self {
            SubscriptionField::Color(color) => row.color = color,
            SubscriptionField::IsMuted(is_muted) => row.is_muted = is_muted,
            SubscriptionField::PinToTop(pin_to_top) => row.pin_to_top = pin_to_top,
        }
    }
}

impl Field<ShownMessage> for MessageField {
    ghost use Rattle.ev_types.specs.EventWrites.{message_with};

    ghost set = { message_with };

    fn set(self, row: &mut ShownMessage) {
        match self.into_kind() {
            MessageFieldKind::Place(place) => row.place = place,
            MessageFieldKind::Content(content) => row.content = content,
            MessageFieldKind::Flag(flag, value) => set_flag(flag, value, &mut row.flags),
        }
    }
}

fn set_flag(flag: Flag, value: bool, flags: &mut MessageFlags)
    ensures { flags.new ≡ flags_with flag value flags.old }
{
    match flag {
        Flag::Read => flags.read = value,
        Flag::Starred => flags.starred = value,
        Flag::Collapsed => flags.collapsed = value,
    }
}

// The one field of an unread message is its place.
impl Field<Place> for Place {
    ghost set = { λ place row. place };

    fn set(self, row: &mut Place) {
        *row = self;
    }
}

impl Field<()> for NoField {
    ghost set = { λ field row. row };

    fn set(self, _row: &mut ()) {}
}

impl<K> Prefix<K> for NoField {
    ghost use Rattle.std.specs.Prelude.{false, refl};

    ghost is_under = { λ prefix key. false };

    ghost alike = { λ a b same key. refl };

    fn cover(_prefixes: &BTreeSet<NoField>, _key: &K) -> bool {
        false
    }
}

impl Prefix<(StreamId, UserId)> for StreamId {
    ghost use Rattle.std.proofs.Common.{ap};
    ghost use Rattle.std.proofs.lemmas.Map.Lookups.{exact_unsigned};
    ghost use Rattle.std.specs.Prelude.{◌==◌};

    ghost is_under = { λ stream key. key.0.0 == stream.0 };

    ghost alike = { λ a b same key. ap (λ number. key.0.0 == number) (exact_unsigned a.0 b.0 same) };

    fn cover(prefixes: &BTreeSet<StreamId>, key: &(StreamId, UserId)) -> bool {
        prefixes.contains(&key.0)
    }
}

impl Prefix<(MessageId, UserId, Text)> for MessageId {
    ghost use Rattle.std.proofs.Common.{ap};
    ghost use Rattle.std.proofs.lemmas.Map.Lookups.{exact_unsigned};
    ghost use Rattle.std.specs.Prelude.{◌==◌};

    ghost is_under = { λ message key. key.0.0 == message.0 };

    ghost alike = { λ a b same key. ap (λ number. key.0.0 == number) (exact_unsigned a.0 b.0 same) };

    fn cover(prefixes: &BTreeSet<MessageId>, key: &(MessageId, UserId, Text)) -> bool {
        prefixes.contains(&key.0)
    }
}
