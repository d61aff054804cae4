//! The rows of the realm, of users, streams and subscriptions.

ghost use Rattle.std.specs.Prelude.{◌≡◌};
ghost use Rattle.serde_json.specs.View.{view};
ghost use Rattle.ev_base.specs.Orders.{stream_cmp, stream_user_cmp, user_cmp};
ghost use Rattle.ev_read.specs.Lists.{below_by_key};
ghost use Rattle.ev_read.specs.Reading.{Reads};
ghost use Rattle.ev_read.specs.Rows as spec;

use crate::fault::Unread;
use crate::lists::FromJson;
use crate::values::{bool_field, id_field, role_field, text_field};
use ev_base::{StreamId, UserId};
use ev_types::{ShownRealm, ShownStream, ShownSubscription, ShownUser};
use serde_json::Value;
use std::alloc::Global;

/// The realm's row.
#[tactic(auto, unfolding(crate::specs::Rows::realm_row))]
pub fn realm_row(alloc: Global, value: &Value) -> Result<ShownRealm, Unread>
    ensures { Reads (λ row. row) result (spec.realm_row (view value.now)) }
{
    let description = text_field(alloc, value, "description")?;
    let name = text_field(alloc, value, "name")?;
    Ok(ShownRealm { name, description })
}

impl FromJson for (UserId, ShownUser) {
    ghost reads = { spec.user_row };

    ghost is_below = { below_by_key user_cmp };

    #[tactic(auto, unfolding(crate::specs::Rows::user_row))]
    fn from_json(alloc: Global, value: &Value) -> Result<(UserId, ShownUser), Unread> {
        let email = text_field(alloc, value, "email")?;
        let full_name = text_field(alloc, value, "full_name")?;
        let is_active = bool_field(value, "is_active")?;
        let role = role_field(value, "role")?;
        let user = id_field(value, "user_id")?;
        let row = ShownUser {
            email,
            full_name,
            role,
            is_active,
        };
        Ok((UserId(user), row))
    }

    fn is_below(&self, other: &(UserId, ShownUser)) -> bool {
        self.0.cmp(&other.0).is_lt()
    }
}

impl FromJson for (StreamId, ShownStream) {
    ghost reads = { spec.stream_row };

    ghost is_below = { below_by_key stream_cmp };

    #[tactic(auto, unfolding(crate::specs::Rows::stream_row))]
    fn from_json(alloc: Global, value: &Value) -> Result<(StreamId, ShownStream), Unread> {
        let description = text_field(alloc, value, "description")?;
        let history_public_to_subscribers = bool_field(value, "history_public_to_subscribers")?;
        let invite_only = bool_field(value, "invite_only")?;
        let name = text_field(alloc, value, "name")?;
        let stream = id_field(value, "stream_id")?;
        let row = ShownStream {
            name,
            description,
            invite_only,
            history_public_to_subscribers,
        };
        Ok((StreamId(stream), row))
    }

    fn is_below(&self, other: &(StreamId, ShownStream)) -> bool {
        self.0.cmp(&other.0).is_lt()
    }
}

impl FromJson for (StreamId, ShownSubscription) {
    ghost reads = { spec.subscription_row };

    ghost is_below = { below_by_key stream_cmp };

    #[tactic(auto, unfolding(crate::specs::Rows::subscription_row))]
    fn from_json(alloc: Global, value: &Value) -> Result<(StreamId, ShownSubscription), Unread> {
        let color = text_field(alloc, value, "color")?;
        let is_muted = bool_field(value, "is_muted")?;
        let pin_to_top = bool_field(value, "pin_to_top")?;
        let stream = id_field(value, "stream_id")?;
        let row = ShownSubscription {
            color,
            is_muted,
            pin_to_top,
        };
        Ok((StreamId(stream), row))
    }

    fn is_below(&self, other: &(StreamId, ShownSubscription)) -> bool {
        self.0.cmp(&other.0).is_lt()
    }
}

impl FromJson for ((StreamId, UserId), ()) {
    ghost reads = { spec.subscriber_row };

    ghost is_below = { below_by_key stream_user_cmp };

    #[tactic(auto, unfolding(crate::specs::Rows::subscriber_row))]
    fn from_json(_alloc: Global, value: &Value) -> Result<((StreamId, UserId), ()), Unread> {
        let stream = id_field(value, "stream_id")?;
        let user = id_field(value, "user_id")?;
        Ok(((StreamId(stream), UserId(user)), ()))
    }

    fn is_below(&self, other: &((StreamId, UserId), ())) -> bool {
        self.0.cmp(&other.0).is_lt()
    }
}
