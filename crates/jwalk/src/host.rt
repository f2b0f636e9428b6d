//! What a walk that several threads read asks of a runtime.
use std::sync::Wait;
use std::thread::Threads;
use std::time::Clock;

/// A runtime whose threads can read for a walk, as the `HostRuntime` of `main`.
///
/// Your own function that has a crew, or calls [`workers`](crate::WalkDirGeneric::workers), is generic over it:
/// `fn f<R: Host>(rt: &R, ..)`. It can't name `HostRuntime` in its place, which has these abilities in `main` and in
/// tests alone.
pub trait Host: Wait + Threads + Clock + Clone + Drop + Send + Sync + 'static {}

impl<R: Wait + Threads + Clock + Clone + Drop + Send + Sync + 'static> Host for R {}
