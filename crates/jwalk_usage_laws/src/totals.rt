//! The laws on totals by what entries keep, each as the contract of a function that does nothing.
ghost use Rattle.jwalk_usage_laws.specs.Totals.{FilesKeepMetadata, KeptTotalsAreTotals};

/// Over a file system that agrees with itself, a walk that keeps metadata comes to the same by what its entries keep as
/// the walk that keeps none does by asking, if each of its files keeps its metadata.
pub fn kept_totals_are_totals()
    ensures { KeptTotalsAreTotals }
{}

/// If listings say all of files, each file that a walk with that option yields keeps its metadata.
pub fn files_keep_metadata()
    ensures { FilesKeepMetadata }
{}
