//! The three ways to read the directories of a walk.
use jwalk::file_system::MemoryFs;
use jwalk::read_dir::NoProcess;
use jwalk::{Crew, Parallelism, WalkDirGeneric};
use std::alloc::{AllocError, Global};
use std::sync::Arc;
use test_fixtures::host::Host;

/// A walk that has not begun, over a tree, which a crew may read.
pub type Builder<R> = WalkDirGeneric<((), ()), MemoryFs, NoProcess, Global, Crew<R>>;

/// Who reads the directories.
#[derive(Clone, Copy, Debug)]
pub enum Reader {
    /// The walk, one after another.
    Serial,
    /// The walk, three together.
    Batches,
    /// A crew of two.
    Crew,
}

/// All of them.
pub const READERS: &[Reader] = &[Reader::Serial, Reader::Batches, Reader::Crew];

impl Reader {
    fn parallelism<R: Host>(self, rt: &R) -> Result<Parallelism<Crew<R>>, AllocError> {
        Ok(match self {
            Reader::Serial => Parallelism::Serial,
            Reader::Batches => Parallelism::RayonNewPool(3),
            Reader::Crew => Parallelism::RayonExistingPool {
                pool: Arc::new(rt.alloc(), Crew::new(rt.clone()?, 1, 2))?,
                busy_timeout: None,
            },
        })
    }

    /// Returns the walk from a root, sorted by name, hidden names too. Depths are limited, which sets the reader again.
    pub fn walk<R: Host>(
        self,
        rt: &R,
        fs: MemoryFs,
        root: &str,
        least: usize,
        greatest: usize,
    ) -> Result<Builder<R>, AllocError> {
        let walk = WalkDirGeneric::with_crew(fs, String::from_str(rt.alloc(), root)?);
        Ok(
            walk.sort(true)
                .skip_hidden(false)
                .min_depth(least)
                .max_depth(greatest)
                .parallelism(self.parallelism(rt)?),
        )
    }
}
