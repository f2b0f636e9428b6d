//! The runtime of the tests.
use std::sync::Wait;
use std::thread::Threads;
use std::time::Clock;

/// A runtime that a test makes crews of.
pub trait Host: Wait + Threads + Clock + AllocGlobal + Clone + Drop + Send + Sync + 'static {}

impl<R: Wait + Threads + Clock + AllocGlobal + Clone + Drop + Send + Sync + 'static> Host for R {}
