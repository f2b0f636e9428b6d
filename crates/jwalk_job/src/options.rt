//! The options of a walk.
ghost use Rattle.std.specs.Prelude.{◌≡◌, ◌+◌, ◌^◌, ◌<◌, ◌≤◌, ◌&&◌, ◌↔◌, IsTrue};
ghost use Rattle.jwalk_model.specs.Entry.{is_hidden};

use crate::client_state::ClientState;
use crate::item::Item;
use crate::mode::Mode;
use std::alloc::Allocator;

/// The options that a walk follows. A new one has the defaults: no order but the file system's, hidden names left out,
/// no link followed, every depth, one directory read at a time.
#[derive(Clone, Copy)]
pub struct Options {
    pub(crate) sort: bool,
    skip_hidden: bool,
    follow_links: bool,
    same_file_system: bool,
    keep_metadata: bool,
    min_depth: usize,
    max_depth: usize,
    mode: Mode,
    ghost in_order: { min_depth ≤ max_depth },
}

fn is_hidden(name: &str) -> bool
    ensures { result ≡ is_hidden name.now }
{
    matches!(name.as_bytes(), [b'.', ..])
}

impl Options {
    ghost use Rattle.jwalk_model.specs.Options.{defaults, with_sort, with_skip_hidden, with_follow_links, with_same_file_system, with_keep_metadata, with_min_depth, with_max_depth, with_parallelism, ReadsAs};
    ghost use Rattle.jwalk_model.specs.Listing.{is_answered};
    ghost use Rattle.jwalk_job.specs.Entry.{item};
    ghost use Rattle.jwalk_job.specs.Options.{mode_value, options_value};

    /// Returns the defaults.
    pub fn new() -> Self
        ensures { options_value result ≡ defaults }
    {
        Options {
            sort: false,
            skip_hidden: true,
            follow_links: false,
            same_file_system: false,
            keep_metadata: false,
            min_depth: 0,
            max_depth: usize::MAX,
            mode: Mode::Serial,
        }
    }

    /// Sets whether the entries of a directory are sorted by the bytes of their names, with its errors last.
    pub fn with_sort(mut self, sort: bool) -> Self
        ensures { options_value result ≡ with_sort sort (options_value self) }
    {
        self.sort = sort;
        self
    }

    /// Sets whether names that start with a dot are left out.
    pub fn with_skip_hidden(mut self, skip_hidden: bool) -> Self
        ensures { options_value result ≡ with_skip_hidden skip_hidden (options_value self) }
    {
        self.skip_hidden = skip_hidden;
        self
    }

    /// Sets whether links are followed.
    pub fn with_follow_links(mut self, follow_links: bool) -> Self
        ensures { options_value result ≡ with_follow_links follow_links (options_value self) }
    {
        self.follow_links = follow_links;
        self
    }

    /// Sets whether directories on another file system than the one that they lie in are left unread.
    pub fn with_same_file_system(mut self, same_file_system: bool) -> Self
        ensures { options_value result ≡ with_same_file_system same_file_system (options_value self) }
    {
        self.same_file_system = same_file_system;
        self
    }

    /// Sets whether an entry keeps the metadata that its type came with.
    pub fn with_keep_metadata(mut self, keep_metadata: bool) -> Self
        ensures { options_value result ≡ with_keep_metadata keep_metadata (options_value self) }
    {
        self.keep_metadata = keep_metadata;
        self
    }

    /// Sets the least depth of the entries that are yielded, lowered to the greatest.
    pub fn with_min_depth(mut self, depth: usize) -> Self
        ensures { options_value result ≡ with_min_depth depth (options_value self) }
    {
        self.min_depth = depth.min(self.max_depth);
        self
    }

    /// Sets the greatest depth, raised to the least. A walk that reads one directory at most becomes serial.
    pub fn with_max_depth(mut self, depth: usize) -> Self
        ensures { options_value result ≡ with_max_depth depth (options_value self) }
    {
        self.max_depth = depth.max(self.min_depth);
        if self.max_depth < 2 {
            self.mode = Mode::Serial;
        }
        self
    }

    /// Sets how directories are read.
    pub fn with_mode(mut self, mode: Mode) -> Self
        ensures { options_value result ≡ with_parallelism (mode_value mode) (options_value self) }
    {
        self.mode = mode;
        self
    }

    /// Returns whether readings follow the same options. The least depth, and how directories are read, don't count.
    pub fn reads_as(self, other: Options) -> bool
        ensures { IsTrue result ↔ ReadsAs (options_value self) (options_value other) }
    {
        self.sort == other.sort
            && self.skip_hidden == other.skip_hidden
            && self.follow_links == other.follow_links
            && self.same_file_system == other.same_file_system
            && self.keep_metadata == other.keep_metadata
            && self.max_depth == other.max_depth
    }

    pub(crate) fn reads(self, depth: usize) -> bool
        ensures above { IsTrue result ↔ (depth < (options_value self).max_depth) }
        ensures fits { IsTrue result → depth + 1 < 2 ^ 64 }
    {
        depth < self.max_depth
    }

    pub(crate) fn skips(self, name: &str) -> bool
        ensures { result ≡ ((options_value self).skip_hidden && is_hidden name.now) }
    {
        self.skip_hidden && is_hidden(name)
    }

    /// Returns whether an item that a walk reaches is yielded: an entry from the least depth on, and every error.
    pub fn is_deep_enough<C: ClientState, A: Allocator + Copy>(self, passed: &Item<C, A>) -> bool
        ensures { result ≡ is_answered (options_value self).min_depth (item passed.now) }
    {
        match passed {
            Ok(entry) => entry.depth >= self.min_depth,
            Err(_) => true,
        }
    }

    pub(crate) fn follow_links(self) -> bool
        ensures { result ≡ (options_value self).follow_links }
    {
        self.follow_links
    }

    pub(crate) fn same_file_system(self) -> bool
        ensures { result ≡ (options_value self).same_file_system }
    {
        self.same_file_system
    }

    pub(crate) fn keep_metadata(self) -> bool
        ensures { result ≡ (options_value self).keep_metadata }
    {
        self.keep_metadata
    }

    /// Returns the least depth, which is no greater than the greatest.
    pub fn min_depth(self) -> usize
        ensures value { result ≡ (options_value self).min_depth }
        ensures in_order { result ≤ (options_value self).max_depth }
    {
        self.min_depth
    }

    /// Returns how directories are read.
    pub fn mode(self) -> Mode
        ensures { mode_value result ≡ (options_value self).parallelism }
    {
        self.mode
    }
}
