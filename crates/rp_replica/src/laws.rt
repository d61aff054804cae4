//! What a client makes of bodies that were written for it.

ghost use Rattle.std.specs.Prelude.{◌≡◌, List, [], ◌∷◌, ◌++◌, Ok, length};
ghost use Rattle.std.specs.List.{AllByRecursion};
ghost use Rattle.ev_base.specs.QueueIds.{FitsItsBits};
ghost use Rattle.ev_base.specs.declared.ids.QueueId.{QueueId};
ghost use Rattle.ev_types.specs.declared.event.Item.{Item};
ghost use Rattle.ev_wire.specs.Bodies.{events_text, register_text};
ghost use Rattle.ev_bodies.specs.Bodies.{Register};
ghost use Rattle.ev_bodies.specs.Fits.{FitsItem, FitsRegister};
ghost use Rattle.rp_replica.specs.Held.{Held};
ghost use Rattle.rp_replica.specs.Replicas.{after_bodies, started, taken};
ghost use Rattle.rp_replica.specs.Written.{IdsRise, with_items};

/// A client begins with the sections and the last id that its register body tells.
pub fn written_registers_are_started()
    ensures { (body : Register) → FitsRegister body
        → started (register_text body.queue body.last_event_id body.sections)
        ≡ Ok (record { sections = body.sections; last = body.last_event_id }) }
{}

/// A client applies the events that the body of an answer tells, each once and in order.
pub fn written_answers_are_taken()
    ensures { (held : Held) (queue : QueueId) (items : List Item)
        → FitsItsBits queue → AllByRecursion FitsItem items → IdsRise held.last items
        → taken held (events_text queue items) ≡ Ok (with_items held items, length items) }
{}

/// It makes no difference whether items come in one answer or in two.
pub fn answers_may_be_split()
    ensures { (held : Held) (queue : QueueId) (items later : List Item)
        → FitsItsBits queue → AllByRecursion FitsItem items → AllByRecursion FitsItem later
        → IdsRise held.last (items ++ later)
        → after_bodies held (events_text queue items ∷ events_text queue later ∷ [])
        ≡ after_bodies held (events_text queue (items ++ later) ∷ []) }
{}
