//! A tree in memory of which one directory is listed only once that is let go.
ghost use Rattle.jwalk.specs.jwalk_model.Tree.{functions_of, only_root};

use jwalk::file_system::{Fault, FileSystem, Listed, MemoryFs, Metadata};
use std::alloc::Allocator;
use std::sync::atomic::{AtomicBool, Ordering};
use std::time::{Clock, Duration};
use std::{io, thread};

/// The tree. The listing of one directory blocks until it is let go, and for some seconds at most.
#[derive(Drop)]
pub struct Blocking<R> {
    clock: R,
    fs: MemoryFs,
    at: &'static str,
    begun: AtomicBool,
    free: AtomicBool,
    over: AtomicBool,
}

impl<R: Clock> Blocking<R> {
    /// Returns the tree, whose listing at this path blocks.
    pub fn new(clock: R, fs: MemoryFs, at: &'static str) -> Self {
        Blocking {
            clock,
            fs,
            at,
            begun: AtomicBool::new(false),
            free: AtomicBool::new(false),
            over: AtomicBool::new(false),
        }
    }

    /// Returns whether the listing begins within some seconds.
    pub fn begins(&self) -> bool {
        for _ in 0..5_000 {
            if self.begun.load(Ordering::SeqCst) {
                return true;
            }
            thread::sleep(&self.clock, Duration::from_millis(1));
        }
        false
    }

    /// Returns whether the listing no longer blocks.
    pub fn is_over(&self) -> bool {
        self.over.load(Ordering::SeqCst)
    }

    /// Lets the listing go on.
    pub fn let_go(&self) {
        self.free.store(true, Ordering::SeqCst);
    }

    fn block(&self) {
        self.begun.store(true, Ordering::SeqCst);
        for _ in 0..5_000 {
            if self.free.load(Ordering::SeqCst) {
                break;
            }
            thread::sleep(&self.clock, Duration::from_millis(1));
        }
        self.over.store(true, Ordering::SeqCst);
    }
}

impl<R: Clock + Drop> FileSystem for Blocking<R> {
    ghost IsFixed = { λ _. ⊥ };

    ghost functions = { λ _. functions_of only_root };

    fn read_dir<A: Allocator + Copy>(
        &self,
        alloc: A,
        path: &str,
    ) -> Result<Vec<io::Result<Listed<A>>, A>, Fault> {
        if path == self.at {
            self.block();
        }
        self.fs.read_dir(alloc, path)
    }

    fn metadata(&self, path: &str) -> Result<Metadata, Fault> {
        self.fs.metadata(path)
    }

    fn symlink_metadata(&self, path: &str) -> Result<Metadata, Fault> {
        self.fs.symlink_metadata(path)
    }

    fn read_link<A: Allocator + Copy>(&self, alloc: A, path: &str) -> Result<String<A>, Fault> {
        self.fs.read_link(alloc, path)
    }
}
