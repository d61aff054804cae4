//! The laws of readings, each the contract of a function that does nothing.

ghost use Rattle.hw_wire.specs.Laws.{FrontsDecide, HeadsDecide};

/// A head decides the answer: the request that the bytes spell is the only one that a reading may
/// find, in whatever pieces they come.
pub fn heads_decide()
    ensures { HeadsDecide }
{}

/// Where no head that is short enough begins the bytes, the first 16,384 of them decide.
pub fn fronts_decide()
    ensures { FrontsDecide }
{}
