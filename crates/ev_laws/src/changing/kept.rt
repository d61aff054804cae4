//! The messages that stand in both views.

ghost use Rattle.std.specs.Prelude.{◌≡◌, map, IfOk};
ghost use Rattle.ev_rows.specs.Rows.{kept};
ghost use Rattle.ev_base.specs.Orders.{message_cmp};
ghost use Rattle.ev_laws.specs.Kept.{kept_row};

use ev_base::{Keyed, MessageId, NoMemory};
use ev_types::ShownMessage;
use std::alloc::Global;

/// A message that stands in both views, as it was and as it is.
#[derive(Clone, Copy)]
pub struct KeptMessage<'a> {
    pub message: MessageId,
    pub before: &'a ShownMessage,
    pub after: &'a ShownMessage,
}

/// The messages that stand in both views.
pub fn kept_messages<'a>(
    alloc: Global,
    before: &'a Keyed<MessageId, ShownMessage>,
    after: &'a Keyed<MessageId, ShownMessage>,
) -> Result<Vec<KeptMessage<'a>>, NoMemory>
    ensures { IfOk result (λ rows. map kept_row rows.items
        ≡ kept message_cmp before.now.rows after.now.rows) }
{
    let mut rows = Vec::new(alloc);
    for (message, after) in after.rows() {
        if let Some(before) = before.get(message) {
            rows.push(KeptMessage {
                message: *message,
                before,
                after,
            })?;
        }
    }
    Ok(rows)
}
