//! The laws of writes, of applying events, and of feeders, each the contract of a function that
//! does nothing.

ghost use Rattle.ev_types.specs.Laws.{CoveredSectionsMissNothing, EventsSettle, OnlyFeedersWrite, OverlapsSettle, RowsAreTheirCells, WritesChangeCells, WritesSettle};

/// Writes change the row of each key by itself.
pub fn writes_change_cells<K, V, F, P>()
    ensures { WritesChangeCells K V F P }
{}

/// Rows are determined by the row of each key.
pub fn rows_are_their_cells<K, V>()
    ensures { RowsAreTheirCells K V }
{}

/// The same writes done again change nothing.
pub fn writes_settle<K, V, F, P>()
    ensures { WritesSettle K V F P }
{}

/// The same events applied again change nothing.
pub fn events_settle()
    ensures { EventsSettle }
{}

/// Events that overlap with what a view holds change nothing.
pub fn overlaps_settle()
    ensures { OverlapsSettle }
{}

/// An event writes only in the sections that its kind feeds.
pub fn only_feeders_write()
    ensures { OnlyFeedersWrite }
{}

/// What a queue doesn't receive writes nothing in the sections that its types cover.
pub fn covered_sections_miss_nothing()
    ensures { CoveredSectionsMissNothing }
{}
