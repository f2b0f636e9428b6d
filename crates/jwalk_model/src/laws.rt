//! The laws on the definitions, each as the contract of a function that does nothing.
ghost use Rattle.jwalk_model.specs.Job.{ReadingsAreLawful};
ghost use Rattle.jwalk_model.specs.Sorting.{OrdersAreArranged};

/// Every list of items has just one stable order.
pub fn one_stable_order<R, E>()
    ensures { OrdersAreArranged R E }
{}

/// Every reading is lawful. Its entries are one below its directory, so that whatever is to be read below it has fewer
/// levels left. At the greatest depth there are none.
pub fn readings_are_lawful<R, E>()
    ensures { ReadingsAreLawful R E }
{}
