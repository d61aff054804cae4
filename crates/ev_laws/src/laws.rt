//! The laws on changes, each the contract of a function that does nothing.

ghost use Rattle.ev_laws.specs.Laws.{ChangesLeadToTheView, ChangesSettle};

/// Applying what changed between two views to the first gives the second.
pub fn changes_lead_to_the_view()
    ensures { ChangesLeadToTheView }
{}

/// Applying what changed between two views again changes nothing.
pub fn changes_settle()
    ensures { ChangesSettle }
{}
