//! The laws of a registration's flow, each the contract of a function that does nothing.

ghost use Rattle.rg_flow.specs.Laws.{FinishedFlowsLackNothing, PutPartsAreFound};

/// A section that was put is there, and the other sections are as before.
pub fn put_parts_are_found()
    ensures { PutPartsAreFound }
{}

/// A flow that needs nothing more lacks no section, and its shard is pushed as far as each section
/// was fetched and as its user has seen.
pub fn finished_flows_lack_nothing()
    ensures { FinishedFlowsLackNothing }
{}
