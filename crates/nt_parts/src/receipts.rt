//! The users who have a message.

ghost use Rattle.std.specs.Prelude.{◌≡◌, [], ◌∷◌, ◌++◌, filter, map, IfOk};
ghost use Rattle.ev_rows.specs.Rows.{keys_of};
ghost use Rattle.ev_types.specs.declared.notice.Audience.{Audience};
ghost use Rattle.nt_rules.specs.Parts.{readers, to};
ghost use Rattle.zr_types.specs.Visibility.{sees_message};

use crate::audiences::push_to_users;
use ev_base::{MessageId, NoMemory, UserId};
use ev_types::{Event, Part};
use std::alloc::Global;
use zr_realm::Realm;
use zr_types::Receipt;

type ReceiptRow = ((MessageId, UserId), Receipt);

/// Adds a part that those hear who see a message and have a receipt for it.
pub fn push_to_readers(
    realm: &Realm,
    message: MessageId,
    event: Event,
    parts: &mut Vec<Part>,
) -> Result<(), NoMemory>
    ensures { IfOk result (λ _. parts.new.items ≡ parts.old.items
        ++ to (Audience.Only (keys_of (readers realm.now.state.tables message))) (event ∷ [])) }
{
    let users = readers(*parts.allocator(), realm, message)?;
    push_to_users(parts, users, event)
}

/// The users who see a message and have a receipt for it.
pub fn readers(alloc: Global, realm: &Realm, message: MessageId) -> Result<Vec<UserId>, NoMemory>
    ensures { IfOk result
        (λ users. users.items ≡ keys_of (readers realm.now.state.tables message)) }
{
    readers_among(alloc, realm, message, realm.posts().receipts_of(&message))
}

fn readers_among(
    alloc: Global,
    realm: &Realm,
    message: MessageId,
    receipts: &[ReceiptRow],
) -> Result<Vec<UserId>, NoMemory>
    ensures { IfOk result (λ users. users.items ≡ filter
        (λ user. sees_message realm.now.state.tables user message) (map (λ row. row.0.1) receipts.now)) }
{
    let users = receipts.iter().map(|row| row.0.1);
    Ok(
        users
            .filter(|user| realm.sees_message(*user, message))
            .collect(alloc)?,
    )
}
