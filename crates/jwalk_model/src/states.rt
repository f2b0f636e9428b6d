//! The law on callbacks that change states alone, as the contract of a function that does nothing.
ghost use Rattle.jwalk_model.specs.States.{StatesChangeNothingElse};

/// A callback that changes states alone changes nothing else: readings, root lists and whole walks are those without
/// it, item for item, once states are left aside.
pub fn states_change_nothing_else<R, E>()
    ensures { StatesChangeNothingElse R E }
{}
