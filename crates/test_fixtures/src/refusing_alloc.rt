//! An allocator that counts requests, and refuses those that a test asks it to.
use std::alloc::{AllocError, Allocator};
use std::sync::atomic::{AtomicUsize, Ordering};

/// The requests to refuse, and the counts.
#[derive(Drop)]
struct Gate {
    /// The number of requests so far.
    requests: AtomicUsize,
    /// The number of the first request to refuse, from 1 on.
    first: AtomicUsize,
    /// The number of requests to refuse from that one on.
    many: AtomicUsize,
    /// The number of refused requests.
    refused: AtomicUsize,
    /// The number of pieces that are out.
    pieces: AtomicUsize,
}

/// An allocator that passes the other requests on.
pub struct Refusing<B: Allocator> {
    inner: B,
    gate: Gate,
}

/// Counts the request first.
fn refuses(gate: &Gate) -> bool {
    let number = gate.requests.fetch_add(1, Ordering::SeqCst).wrapping_add(1);
    let after_first = number.checked_sub(gate.first.load(Ordering::SeqCst));
    let is_refused = match after_first {
        Some(place) => place < gate.many.load(Ordering::SeqCst),
        None => false,
    };
    if is_refused {
        gate.refused.fetch_add(1, Ordering::SeqCst);
    } else {
        gate.pieces.fetch_add(1, Ordering::SeqCst);
    }
    is_refused
}

fn takes_back(gate: &Gate) {
    gate.pieces.fetch_sub(1, Ordering::SeqCst);
}

impl<B: Allocator> Refusing<B> {
    /// Returns an allocator that refuses nothing yet.
    pub fn new(inner: B) -> Self {
        Refusing {
            inner,
            gate: Gate {
                requests: AtomicUsize::new(0),
                first: AtomicUsize::new(0),
                many: AtomicUsize::new(0),
                refused: AtomicUsize::new(0),
                pieces: AtomicUsize::new(0),
            },
        }
    }

    /// Refuses `many` requests from now on, from the request of number `first` on. The next request has the number 1.
    pub fn refuse(&self, first: usize, many: usize) {
        self.gate.requests.store(0, Ordering::SeqCst);
        self.gate.refused.store(0, Ordering::SeqCst);
        self.gate.first.store(first, Ordering::SeqCst);
        self.gate.many.store(many, Ordering::SeqCst);
    }

    /// Returns how many requests were refused since the last call of `refuse`.
    pub fn refused(&self) -> usize {
        self.gate.refused.load(Ordering::SeqCst)
    }

    /// Returns how many pieces are out.
    pub fn pieces(&self) -> usize {
        self.gate.pieces.load(Ordering::SeqCst)
    }
}

impl<B: Allocator> Drop for Refusing<B> {
    fn drop(self) {
        let Refusing { inner: _, gate: _ } = self;
    }
}

unsafe impl<B: Allocator> Allocator for Refusing<B> {
    ghost dealloc_token = { λ heap ty ptr. B.dealloc_token heap.inner ty ptr };

    fn allocate(&self, size: usize, align: usize) -> Result<*mut u8, AllocError> {
        if refuses(&self.gate) {
            return Err(AllocError);
        }
        self.inner.allocate(size, align)
    }

    unsafe fn deallocate(&self, ptr: *mut u8, size: usize, align: usize) {
        takes_back(&self.gate);
        self.inner.deallocate(ptr, size, align);
    }
}
