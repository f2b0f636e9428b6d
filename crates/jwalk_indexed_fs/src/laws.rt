//! The laws on records and on walks over them, each as the contract of a function that does nothing.
ghost use Rattle.jwalk_indexed_fs.specs.Index.{RecordsVouch};
ghost use Rattle.jwalk_indexed_fs.specs.Walks.{AskingIsEnough, TypesAreEnough};

/// Records of an earlier state of a file system vouch for a later one, if the stamps of directories that had settled
/// tell when a list changes.
pub fn records_vouch()
    ensures { RecordsVouch }
{}

/// A sorted walk that follows no links, and may leave its file system, yields the same over listings that say types
/// alone, in the order of names, as where it keeps no metadata. What a filter finds that asks for metadata is the same.
pub fn types_are_enough<R, E>()
    ensures { TypesAreEnough R E }
{}

/// Such a walk yields the same over listings that say types alone, metadata included, if their names are asked for where
/// it keeps metadata, and the listings themselves say what asking returns.
pub fn asking_is_enough<R, E>()
    ensures { AskingIsEnough R E }
{}
