//! The laws on a reading, each as the contract of a function that does nothing.
ghost use Rattle.jwalk_job.specs.Plan.{TreesAreWalked};

/// The readings of a job's plan in preorder are those that a walk by the job goes over, in its order.
pub fn trees_are_walked<R, E>()
    ensures { TreesAreWalked R E }
{}
