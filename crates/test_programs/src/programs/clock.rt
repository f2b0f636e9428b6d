//! A clock that goes on between two readings.
use std::alloc::AllocError;
use std::io;
use std::io::ErrorKind;
use std::sync::atomic::{AtomicU64, Ordering};
use std::sync::{Arc, Wait};
use std::thread::Threads;
use std::time::{Clock, Duration};
use test_fixtures::host::Host;

/// What a clock tells: seconds since 1970, and by how many milliseconds it goes on between two readings. Either may be
/// untold.
pub(crate) type Times = (Option<u64>, Option<u64>);

/// A runtime with such a clock.
#[derive(Clone)]
pub(crate) struct Hasty<R> {
    rt: R,
    times: Times,
    readings: Arc<AtomicU64>,
}

impl<R: Drop> Drop for Hasty<R> {
    fn drop(self) {
        let Hasty {
            rt: _,
            times: _,
            readings: _,
        } = self;
    }
}

impl<R: Host> Hasty<R> {
    pub(crate) fn new(rt: &R, times: Times) -> Result<Self, AllocError> {
        Ok(Hasty {
            rt: rt.clone()?,
            times,
            readings: Arc::new(rt.alloc(), AtomicU64::new(0))?,
        })
    }
}

impl<R: Wait> Wait for Hasty<R> {}

impl<R: Threads> Threads for Hasty<R> {}

impl<R> Clock for Hasty<R> {
    fn monotonic(&self) -> io::Result<Duration> {
        let before = self.readings.fetch_add(1, Ordering::SeqCst);
        match self.times.1 {
            Some(step) => Ok(Duration::from_millis(before.wrapping_mul(step))),
            None => Err(io::Error::from(ErrorKind::Unsupported)),
        }
    }

    fn since_1970(&self) -> io::Result<Duration> {
        match self.times.0 {
            Some(now) => Ok(Duration::from_secs(now)),
            None => Err(io::Error::from(ErrorKind::Unsupported)),
        }
    }
}
