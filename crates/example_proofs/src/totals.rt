//! The totals of a walk.
ghost use Rattle.std.specs.Prelude.{◌≡◌, IfOk, string_bytes};
ghost use Rattle.jwalk.specs.jwalk_model.Options.{defaults};
ghost use Rattle.jwalk.specs.jwalk_model.Walk.{stateless_walk};
ghost use Rattle.jwalk_usage.specs.Totals.{totals};

use jwalk::WalkDirGeneric;
use jwalk::file_system::FileSystem;
use jwalk_usage::{Usage, UsageFault, usage};
use std::alloc::Allocator;

/// Returns the totals of a walk from a root. Over a file system that always answers the same they are those of the
/// whole walk of the definition.
///
/// # Errors
///
/// If memory runs out, or if a total passes the greatest `u128`.
pub fn totals_of_walk<S: FileSystem, A: Allocator + Copy>(
    fs: &S,
    root: String<A>,
) -> Result<Usage, UsageFault>
    ensures { IfOk result (λ usage. S.IsFixed fs.now → usage
        ≡ totals (S.functions fs.now) (stateless_walk (S.functions fs.now) defaults (string_bytes root))) }
{
    let walk = WalkDirGeneric::<((), ()), _, _, _>::new(fs, root);
    usage(fs, walk.into_iter())
}
