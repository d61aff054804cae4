//! The fields of a message that events set.

use ev_base::{Flag, Place, Text};
use std::marker::Model;

// A field of a message, with its new value.
#[derive(Drop)]
pub struct MessageField {
    kind: MessageFieldKind,
}

// Which field it is.
#[derive(Drop)]
pub enum MessageFieldKind {
    Place(Place),
    Content(Text),
    Flag(Flag, bool),
}

impl Model for MessageField {
    ghost use Rattle.ev_types.specs.EventWrites.{MessageField as Target};
    ghost use Rattle.ev_apply.specs.Kinds.{field_of_kind};

    ghost Value = { Target };

    ghost view = { λ it. field_of_kind it.kind };
}

impl MessageField {
    ghost use Rattle.std.specs.Prelude.{◌≡◌};
    ghost use Rattle.ev_apply.specs.Kinds.{field_of_kind};

    pub fn new(kind: MessageFieldKind) -> MessageField
        ensures { result ≡ field_of_kind kind }
    {
        MessageField { kind }
    }

    pub fn into_kind(self) -> MessageFieldKind
        ensures { field_of_kind result ≡ self }
    {
        let MessageField { kind } = self;
        kind
    }
}
