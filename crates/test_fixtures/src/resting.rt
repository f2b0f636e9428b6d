//! File systems that count listings, and the wait for their end.
use crate::watched::Watched;
use jwalk_fs::file_system::FileSystem;
use std::thread;
use std::time::{Clock, Duration};

/// A file system that counts its listings.
pub trait CountsLists: FileSystem {
    /// Returns how many listings were asked for so far.
    fn lists_so_far(&self) -> usize;
}

impl CountsLists for Watched {
    fn lists_so_far(&self) -> usize {
        self.lists()
    }
}

/// Returns whether within some seconds no directory is listed for 200 milliseconds.
pub fn rests(clock: &impl Clock, fs: &impl CountsLists) -> bool {
    let mut lists = fs.lists_so_far();
    let mut still: usize = 0;
    for _ in 0..5_000 {
        thread::sleep(clock, Duration::from_millis(1));
        let now = fs.lists_so_far();
        still = if now == lists {
            still.saturating_add(1)
        } else {
            0
        };
        lists = now;
        if still >= 200 {
            return true;
        }
    }
    false
}
