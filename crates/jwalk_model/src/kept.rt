//! The laws on metadata that entries keep, each as the contract of a function that does nothing.
ghost use Rattle.jwalk_model.specs.Kept.{MetadataChangesNothingElse, StatelessJobsIgnoreMetadata};

/// Where the callback ignores metadata, keeping it changes nothing else: readings, root lists and whole walks are those
/// that keep none, item for item, once metadata is forgotten.
pub fn metadata_changes_nothing_else<R, E>()
    ensures { MetadataChangesNothingElse R E }
{}

/// A walk with no callback is of that kind: nothing is made of its lists that metadata could change.
pub fn stateless_jobs_ignore_metadata()
    ensures { StatelessJobsIgnoreMetadata }
{}
