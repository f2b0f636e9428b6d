//! What a call asks for.
use std::alloc::Global;

/// What a call asks for.
#[derive(Drop)]
pub struct Asked<'w> {
    /// The file with the snapshot.
    pub file: &'w str,
    /// The root, if one was named. Else it is that of the snapshot.
    pub root: Option<&'w str>,
    /// The file is replaced by what is found.
    pub save: bool,
    /// Names and types alone are compared, and of unchanged directories the names in the file are taken.
    pub quick: bool,
    /// The entries that the file has are listed in rows, and nothing is compared.
    pub lists: bool,
    /// Behind the path of what changed is written what differs.
    pub long: bool,
    /// Each line ends with a zero byte.
    pub print0: bool,
    /// Each line is a JSON object.
    pub json: bool,
    /// No line is written.
    pub quiet: bool,
    /// Hidden names are left out.
    pub exclude_hidden: bool,
    /// What is on other file systems than the root is left out.
    pub one_file_system: bool,
    /// The greatest depth, if one was named: 1 for what is in the root.
    pub depth: Option<usize>,
    /// Lines of an ignore file. What they name is left out.
    pub excludes: Vec<&'w str, Global>,
    /// What ignore files name is left out.
    pub ignore: bool,
    /// How many threads read directories, if that was named.
    pub threads: Option<usize>,
}
