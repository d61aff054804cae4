//! The laws of the orders of keys.

ghost use Rattle.std.specs.Prelude.{◌≡◌};
ghost use Rattle.ev_rows.specs.KeyOrder.{KeyOrder};
ghost use Rattle.ev_base.specs.Orders.{message_cmp, reaction_cmp, stream_cmp, stream_user_cmp, text_cmp, user_cmp, message_user_cmp, user_stream_cmp};

use crate::ids::{MessageId, StreamId, UserId};
use crate::text::Text;

/// The order of each key is total, and tells keys that differ apart.
pub fn keys_are_in_order()
    ensures users { KeyOrder user_cmp }
    ensures streams { KeyOrder stream_cmp }
    ensures messages { KeyOrder message_cmp }
    ensures texts { KeyOrder text_cmp }
    ensures user_streams { KeyOrder user_stream_cmp }
    ensures message_users { KeyOrder message_user_cmp }
    ensures stream_users { KeyOrder stream_user_cmp }
    ensures reactions { KeyOrder reaction_cmp }
{}

/// Code compares keys in these orders.
pub fn code_compares_keys_in_their_order()
    ensures users { ⟦<UserId as Ord>⟧.cmp ≡ user_cmp }
    ensures streams { ⟦<StreamId as Ord>⟧.cmp ≡ stream_cmp }
    ensures messages { ⟦<MessageId as Ord>⟧.cmp ≡ message_cmp }
    ensures texts { ⟦<Text as Ord>⟧.cmp ≡ text_cmp }
    ensures user_streams { ⟦<(UserId, StreamId) as Ord>⟧.cmp ≡ user_stream_cmp }
    ensures message_users { ⟦<(MessageId, UserId) as Ord>⟧.cmp ≡ message_user_cmp }
    ensures stream_users { ⟦<(StreamId, UserId) as Ord>⟧.cmp ≡ stream_user_cmp }
    ensures reactions { ⟦<(MessageId, UserId, Text) as Ord>⟧.cmp ≡ reaction_cmp }
{}
