//! The laws of what passes have seen, each the contract of a function that does nothing.

ghost use Rattle.zw_backend.specs.SeenLaws.{CallsAreTheOwnSteps, CallsStayAllowed};
ghost use Rattle.zw_backend.specs.SeenLaws.{JoinedStepsAddUp, LaterCallsExtend};

/// A call is the one step that the pass made more.
pub fn calls_are_the_own_steps()
    ensures { CallsAreTheOwnSteps }
{}

/// A joined pass made the steps of both.
pub fn joined_steps_add_up()
    ensures { JoinedStepsAddUp }
{}

/// What was allowed is still allowed after steps of others.
pub fn calls_stay_allowed()
    ensures { CallsStayAllowed }
{}

/// Steps of others, and then a call, are that call.
pub fn later_calls_extend()
    ensures { LaterCallsExtend }
{}
