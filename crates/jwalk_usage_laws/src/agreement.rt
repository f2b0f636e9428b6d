//! The laws on file systems whose listings agree with what asking returns, each as the contract of a function that does
//! nothing.
ghost use Rattle.jwalk_usage_laws.specs.Agreement.{KeptIsWhatAskingReturns, OwnRootsAreAskedAlike};

/// Over a file system that agrees with itself, the metadata that an entry of a walk keeps are what asking for them
/// returns. The root's text must be asked like its entry's path.
pub fn kept_is_what_asking_returns()
    ensures { KeptIsWhatAskingReturns }
{}

/// A root is asked like its entry's path where these are one text, as `/t/a` and `a`, but not `/t/`.
pub fn own_roots_are_asked_alike()
    ensures { OwnRootsAreAskedAlike }
{}
