//! What a call asks for.
use crate::form::Form;
use crate::threshold::Threshold;
use crate::unit::Unit;
use std::alloc::Global;

/// What a call asks for.
#[derive(Drop)]
pub struct Asked<'w> {
    /// The roots. If there are none, it is the folder that the program runs in.
    pub roots: Vec<&'w str, Global>,
    /// How results are written.
    pub form: Form,
    /// The greatest depth of what is written, if one was named: 0 for roots alone, 1 for what is in them.
    pub depth: Option<usize>,
    /// Not only directories are written.
    pub all: bool,
    /// How many entries of each directory are written, the largest ones, if a number was named.
    pub largest: Option<usize>,
    /// The sum of all roots is written, too.
    pub total: bool,
    /// Which sizes are written, if not all.
    pub threshold: Option<Threshold>,
    /// The unit of sizes, if one was named.
    pub unit: Option<Unit>,
    /// The length of an entry counts, and not what is allocated for it.
    pub apparent: bool,
    /// Each name of a file counts.
    pub each_name: bool,
    /// Directories on other file systems than their root's aren't read.
    pub one_file_system: bool,
    /// Links are followed.
    pub follow: bool,
    /// The entries of a directory are in the order of their names.
    pub sort: bool,
    /// How many threads read directories, if that was named.
    pub threads: Option<usize>,
    /// Hidden names don't count.
    pub exclude_hidden: bool,
    /// Lines of an ignore file. What they leave out doesn't count.
    pub excludes: Vec<&'w str, Global>,
    /// Files of such lines, which come before those.
    pub exclude_files: Vec<&'w str, Global>,
    /// What ignore files leave out doesn't count.
    pub ignore: bool,
}
