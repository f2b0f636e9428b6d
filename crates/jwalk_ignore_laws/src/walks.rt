//! The laws on what walks yield below a directory, each as the contract of a function that does nothing.
ghost use Rattle.jwalk_ignore_laws.specs.Walks.{DepthsMayBeTheSame, WalksAreTheSame};

/// Where a walk that honours ignore files comes to a directory, it yields below it what a walk yields that starts
/// there, deeper by the directory's depth. The greatest depth of that walk is less by as much.
pub fn walks_are_the_same()
    ensures { WalksAreTheSame }
{}

/// Both walks may have the same greatest depth, if nothing that the second yields would be at it in the first.
pub fn depths_may_be_the_same()
    ensures { DepthsMayBeTheSame }
{}
