//! Reactions by the emoji as a command gives it, which no memory is taken for.

ghost use Rattle.std.specs.Prelude.{◌≡◌, length, is_some, IfSome};
ghost use Rattle.std.specs.List.Sorted.{IsSearchInRange};
ghost use Rattle.ev_rows.specs.Place.{IsPlace};
ghost use Rattle.ev_rows.specs.Rows.{SortedByKey};
ghost use Rattle.ev_base.specs.Orders.{reaction_cmp};
ghost use Rattle.zr_types.specs.Tables.{reaction_of};

use ev_base::{MessageId, Text, UserId};
use std::cmp::Ordering;
use zr_realm::Realm;

type ReactionRow = ((MessageId, UserId, Text), ());

/// The emoji of the user's reaction to the message, as the table has it.
pub fn reaction_emoji<'a>(
    realm: &'a Realm,
    user: UserId,
    message: MessageId,
    emoji: &str,
) -> Option<&'a Text>
    ensures there { is_some result
        ≡ is_some (reaction_of realm.now.state.tables user message emoji.now) }
    ensures same { IfSome result (λ text. text.now ≡ emoji.now) }
{
    let rows = realm.marks().reactions_rows();
    match place(rows, user, message, emoji) {
        Ok(at) => Some(&rows[at].0.2),
        Err(_) => None,
    }
}

// Where the reaction stands, or where it would.
fn place(
    rows: &[ReactionRow],
    user: UserId,
    message: MessageId,
    emoji: &str,
) -> Result<usize, usize>
    requires { SortedByKey reaction_cmp rows.now }
    ensures place { IsPlace (reaction_cmp (message, user, emoji.now)) rows.now result }
    ensures within { IsSearchInRange result (length rows.now) }
{
    rows.binary_search_by(|row| compared(row, user, message, emoji))
}

fn compared(row: &ReactionRow, user: UserId, message: MessageId, emoji: &str) -> Ordering
    ensures { result ≡ reaction_cmp row.now.0 (message, user, emoji.now) }
{
    let by_ids = row.0.0.cmp(&message).then(row.0.1.cmp(&user));
    by_ids.then(row.0.2.as_str().cmp(emoji))
}
