//! The law on records that are added, as the contract of a function that does nothing.
ghost use Rattle.jwalk_indexed_fs_laws.specs.Records.{RecordsAddUp};

/// Records are of what a file system returned, if they are added one after another to an index that had none, each of
/// one of its listings.
pub fn records_add_up()
    ensures { RecordsAddUp }
{}
