//! What callbacks make, as the contract of a function that does nothing.
ghost use Rattle.jwalk_callbacks.specs.Both.{ChainsKeepDepths};

/// If two functions keep the depths of every list, so does one after the other.
pub fn chains_keep_depths<R, E>()
    ensures { ChainsKeepDepths R E }
{}
