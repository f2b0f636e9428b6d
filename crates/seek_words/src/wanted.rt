//! The entries that are looked for, apart from the pattern.
ghost use Rattle.std.specs.Prelude.{◌≡◌};
ghost use Rattle.std.specs.Option.{option_copied};
ghost use Rattle.seek_words.specs.Owner.{has_owner};

use crate::depths::Depths;
use crate::extension::has_one;
use crate::kinds::Kinds;
use crate::owner::Owner;
use crate::size::{Size, is_sized};
use crate::times::Times;
use jwalk_model::file_type::FileType;
use jwalk_model::metadata::Metadata;

/// The entries that are looked for, apart from the pattern.
#[derive(Clone, Copy)]
pub struct Wanted<'w> {
    /// The depths.
    pub depths: Depths,
    /// The types.
    pub kinds: Kinds,
    /// The extensions of names, or none for any.
    pub extensions: &'w [&'w str],
    /// The sizes of files, or none for any entry.
    pub sizes: &'w [Size],
    /// The owner, if one is named.
    pub owner: Option<Owner>,
    /// The times at which entries were modified.
    pub times: Times,
}

fn has_owner(owner: Option<Owner>, seen: Option<&Metadata>) -> bool
    ensures { result ≡ has_owner owner (option_copied seen.entry) }
{
    match owner {
        Some(owner) => owner.has(seen),
        None => true,
    }
}

impl<'w> Wanted<'w> {
    ghost use Rattle.seek_words.specs.Wanted.{is_wanted, wants_of};

    /// Returns whether an entry of this depth, type, name and metadata is looked for.
    pub fn has(
        &self,
        depth: usize,
        file_type: FileType,
        name: &str,
        seen: Option<&Metadata>,
    ) -> bool
        ensures { result ≡ is_wanted (wants_of self.now) depth file_type name.now (option_copied seen.entry) }
    {
        self.depths.has(depth)
            && self.kinds.has(file_type, seen)
            && has_one(name, self.extensions)
            && is_sized(self.sizes, file_type, seen)
            && has_owner(self.owner, seen)
            && self.times.has(seen)
    }
}
