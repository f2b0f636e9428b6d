//! What a walk yields, and what a directory's list holds.
use crate::dir_entry::DirEntry;
use crate::error::Error;
use std::alloc::Global;

/// An item of a walk: an entry, or the error that came in its place.
pub type Item<C, A = Global> = Result<DirEntry<C, A>, Error<A>>;

/// The items of a directory, or of a walk's root.
pub type List<C, A = Global> = Vec<Item<C, A>, A>;
