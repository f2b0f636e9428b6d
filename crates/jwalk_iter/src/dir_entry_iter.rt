//! A walk's entries in order, whoever reads.
use crate::entries::Entries;
use jwalk_readings::read_dir_iter::ReadDirIter;
use jwalk_readings::readers::NoCrew;
use std::alloc::Global;

/// A walk under way: an iterator over its entries and errors, in strict depth-first order.
///
/// A directory's entry is yielded once the directory was read. A directory that could not be read is yielded with the
/// error in its `read_children`. If memory runs out, one error is yielded whose `is_memory` is true, and then `None`
/// for good. At the end of the walk, too, `None` is yielded for good.
///
/// A walk over a crew ends in the same way if a reading is lost: it yields one error whose `is_lost` is true. No
/// reading is lost if the file system's answers stay the same and the callback always does the same.
///
/// Over a crew, calls may block: `next` and `fill`, on threads or not, and `count` for a reading, and these, `ahead` and
/// the drop for a lock.
pub type DirEntryIter<C, S, P, A = Global, L = NoCrew> = Entries<C, A, ReadDirIter<C, S, P, A, L>>;
