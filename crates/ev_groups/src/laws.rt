//! The law on grouped events, the contract of a function that does nothing.

ghost use Rattle.ev_groups.specs.Laws.{GroupedEventsDoTheSame};

/// Applying grouped events does what applying the events does.
pub fn grouped_events_do_the_same()
    ensures { GroupedEventsDoTheSame }
{}
