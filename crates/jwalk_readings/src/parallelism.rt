//! How a walk's directories are read.
ghost use Rattle.std.specs.Prelude.{◌≡◌};
ghost use Rattle.jwalk_job.specs.Options.{mode_value};
ghost use Rattle.jwalk_readings.specs.Parallelism.{parallelism_value, crew_of};

use crate::readers::NoCrew;
use jwalk_job::mode::Mode;
use std::alloc::{AllocError, Allocator, Global};
use std::sync::Arc;
use std::time::Duration;

/// How a walk reads its directories. The answers and their order are the same for one directory at a time and several.
pub enum Parallelism<W = NoCrew, A: Allocator + Copy = Global> {
    /// One directory at a time, when its entry is yielded. The default.
    Serial,
    /// Ahead of the walk, by the workers of a crew. If no place of the crew is free, the start of the walk blocks until
    /// one is, for at most `busy_timeout`. If none is free in time, an error whose `is_busy` is true reports it.
    RayonExistingPool {
        /// The crew.
        pool: Arc<W, A>,
        /// How long a walk blocks for a place. `None` sets no limit.
        busy_timeout: Option<Duration>,
    },
    /// That many directories at a time: the one whose entry is yielded, and those that come after it. 0 means 8. Fewer
    /// than 32 start no thread.
    RayonNewPool(usize),
}

impl<W: Drop, A: Allocator + Copy> Drop for Parallelism<W, A> {
    fn drop(self) {
        match self {
            Parallelism::Serial => (),
            Parallelism::RayonExistingPool {
                pool: _,
                busy_timeout: _,
            } => (),
            Parallelism::RayonNewPool(_) => (),
        }
    }
}

impl<W: Drop, A: Allocator + Copy> Parallelism<W, A> {
    /// Returns the same without the crew.
    pub fn mode(&self) -> Mode
        ensures { mode_value result ≡ parallelism_value self.now }
    {
        match self {
            Parallelism::Serial => Mode::Serial,
            Parallelism::RayonExistingPool { .. } => Mode::Crew,
            Parallelism::RayonNewPool(width) => Mode::Batches(*width),
        }
    }

    /// Returns the crew, if it reads by one, and how long a walk blocks for a place.
    pub fn into_crew(self) -> Option<(Arc<W, A>, Option<Duration>)>
        ensures { result ≡ crew_of self }
    {
        match self {
            Parallelism::RayonExistingPool { pool, busy_timeout } => Some((pool, busy_timeout)),
            Parallelism::Serial | Parallelism::RayonNewPool(_) => None,
        }
    }
}

/// A clone names the same crew. Cloning fails only if memory runs out.
impl<W: Drop, A: Allocator + Copy> Clone for Parallelism<W, A> {
    ghost use Rattle.jwalk_readings.specs.Parallelism.{IsCloneOf};

    ghost is_clone = { λ old new. IsCloneOf old new };

    fn clone(&self) -> Result<Self, AllocError> {
        match self {
            Parallelism::Serial => Ok(Parallelism::Serial),
            Parallelism::RayonExistingPool { pool, busy_timeout } => {
                Ok(Parallelism::RayonExistingPool {
                    pool: pool.clone()?,
                    busy_timeout: *busy_timeout,
                })
            }
            Parallelism::RayonNewPool(width) => Ok(Parallelism::RayonNewPool(*width)),
        }
    }
}
