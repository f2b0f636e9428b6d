//! Walks with their answers, each read in every way.
use jwalk::file_system::FileSystem;
use jwalk::read_dir::NoProcess;
use std::process::Abort;
use std::thread::Threads;
use test_fixtures::listed_directory::ListedDirectory;
use test_fixtures::trees::{Step, tree};
use test_fixtures::watched::{Calls, Failing, Watched};
use test_fixtures::ways::{Asked, Setting, WAYS, Way};

/// The file system of a walk.
pub enum Over {
    /// The tree that these steps build.
    Tree(&'static [Step]),
    /// The tree, which fails.
    Failing(&'static [Step], Failing),
    /// The tree, and how often the walk calls it.
    Asking(&'static [Step], Calls),
    /// A directory whose items are given.
    Listed(ListedDirectory<'static>),
}

/// A walk with its answers.
pub struct Row {
    /// The file system that the walk reads.
    pub over: Over,
    /// The root.
    pub root: &'static str,
    /// The options, set one after another.
    pub settings: &'static [Setting],
    /// The lines of the walk's answers, separated by `; `.
    pub answers: &'static str,
}

impl Row {
    fn holds_over<R: Threads + AllocGlobal + Sync, S: FileSystem + Send + Sync>(
        &self,
        rt: &R,
        fs: &S,
        way: Way,
    ) -> bool {
        let asked = Asked {
            fs,
            root: self.root,
            settings: self.settings,
        };
        asked.shows(rt, NoProcess, way, self.answers)
    }

    fn holds<R: Threads + AllocGlobal + Sync>(&self, rt: &R, way: Way) -> bool {
        let (steps, failing, calls) = match &self.over {
            Over::Tree(steps) => (*steps, Failing::Never, None),
            Over::Failing(steps, failing) => (*steps, *failing, None),
            Over::Asking(steps, calls) => (*steps, Failing::Never, Some(*calls)),
            Over::Listed(fs) => return self.holds_over(rt, fs, way),
        };
        let Ok(tree) = tree(rt.alloc(), steps) else {
            return false;
        };
        let fs = Watched::new(tree, failing);
        self.holds_over(rt, &fs, way) && (calls.is_none() || calls == Some(fs.calls()))
    }
}

/// Asserts that each walk yields the answers of its row, in each way to read.
pub fn all_hold<R: Abort + Threads + AllocGlobal + Sync>(rt: &R, rows: &[Row]) {
    for row in rows {
        for way in WAYS {
            assert!(rt; row.holds(rt, *way), "{}", row.answers);
        }
    }
}
