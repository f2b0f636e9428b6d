//! What a list in order is, as the contract of a function that does nothing.
ghost use Rattle.jwalk_sort_by.specs.SortBy.{OrderedIsTheOne};

/// The list in order is the one that has the same items, ascends, and keeps the order of what ties.
pub fn ordered_is_the_one<X, F>()
    ensures { OrderedIsTheOne X F }
{}
