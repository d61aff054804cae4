//! The laws of views, each the contract of a function that does nothing.

ghost use Rattle.zw_views.specs.Laws.{SuccessiveViewsAreComparable, TablesAreCounted, ViewsAreSorted};

/// Tables are numbered and sorted at the opening, and stay so after every command.
pub fn tables_are_counted()
    ensures { TablesAreCounted }
{}

/// The rows of every section of a view are sorted by key.
pub fn views_are_sorted()
    ensures { ViewsAreSorted }
{}

/// Events can tell what differs between a user's views before and after a command.
pub fn successive_views_are_comparable()
    ensures { SuccessiveViewsAreComparable }
{}
