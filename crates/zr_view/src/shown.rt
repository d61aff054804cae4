//! Rows as a view shows them.

ghost use Rattle.std.specs.Prelude.{◌≡◌, IfOk};
ghost use Rattle.zw_views.specs.Views.{shown_flags, shown_message, shown_realm, shown_stream, shown_subscription, shown_user};

use ev_base::{NoMemory, Privacy};
use ev_types::{MessageFlags, ShownMessage, ShownRealm, ShownStream, ShownSubscription, ShownUser};
use zr_types::{Message, RealmRow, Receipt, Stream, Subscription, User};

pub fn shown_realm(row: &RealmRow) -> Result<ShownRealm, NoMemory>
    ensures { IfOk result (λ shown. shown ≡ shown_realm row.now) }
{
    Ok(ShownRealm {
        name: row.name.clone()?,
        description: row.description.clone()?,
    })
}

pub fn shown_user(row: &User) -> Result<ShownUser, NoMemory>
    ensures { IfOk result (λ shown. shown ≡ shown_user row.now) }
{
    Ok(ShownUser {
        email: row.email.clone()?,
        full_name: row.full_name.clone()?,
        role: row.role,
        is_active: row.is_active,
    })
}

pub fn shown_stream(row: &Stream) -> Result<ShownStream, NoMemory>
    ensures { IfOk result (λ shown. shown ≡ shown_stream row.now) }
{
    Ok(ShownStream {
        name: row.name.clone()?,
        description: row.description.clone()?,
        invite_only: !matches!(row.privacy, Privacy::Public),
        history_public_to_subscribers: !matches!(row.privacy, Privacy::Protected),
    })
}

pub fn shown_subscription(row: &Subscription) -> Result<ShownSubscription, NoMemory>
    ensures { IfOk result (λ shown. shown ≡ shown_subscription row.now) }
{
    Ok(ShownSubscription {
        color: row.color.clone()?,
        is_muted: row.is_muted,
        pin_to_top: row.pin_to_top,
    })
}

pub fn shown_message(row: &Message, receipt: &Receipt) -> Result<ShownMessage, NoMemory>
    ensures { IfOk result (λ shown. shown ≡ shown_message row.now receipt.now) }
{
    Ok(ShownMessage {
        sender: row.sender,
        place: row.place.clone()?,
        content: row.content.clone()?,
        timestamp: row.timestamp,
        flags: shown_flags(receipt),
    })
}

fn shown_flags(receipt: &Receipt) -> MessageFlags
    ensures { result ≡ shown_flags receipt.now }
{
    MessageFlags {
        read: receipt.read,
        starred: receipt.starred,
        collapsed: receipt.collapsed,
    }
}
