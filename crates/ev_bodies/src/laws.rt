//! Bodies that were written are read back.

ghost use Rattle.std.specs.Prelude.{◌≡◌, List, Ok, map};
ghost use Rattle.std.specs.List.{AllByRecursion};
ghost use Rattle.ev_base.specs.QueueIds.{FitsItsBits};
ghost use Rattle.ev_base.specs.declared.ids.QueueId.{QueueId};
ghost use Rattle.ev_types.specs.declared.event.Item.{Item};
ghost use Rattle.ev_wire.specs.Bodies.{events_text, register_text};
ghost use Rattle.ev_bodies.specs.Bodies as of_text;
ghost use Rattle.ev_bodies.specs.Bodies.{Register, as_read, events_in, register_in};
ghost use Rattle.ev_bodies.specs.Fits.{FitsItem, FitsRegister};

/// The text of a register body is read as that body.
pub fn registers_read_back()
    ensures { (body : Register) → FitsRegister body
        → register_in (register_text body.queue body.last_event_id body.sections) ≡ Ok body }
{}

/// The text of an events body is read as its events, in order.
pub fn events_read_back()
    ensures { (queue : QueueId) (items : List Item)
        → FitsItsBits queue → AllByRecursion FitsItem items
        → events_in (events_text queue items) ≡ Ok (of_text.items (map as_read items)) }
{}
