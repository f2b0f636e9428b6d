//! What snapshots are written to.
ghost use Rattle.std.specs.Prelude.{◌≡◌, ℕ, List, OnErr, OnOk};

use jwalk_snapshot::replace;
use std::alloc::Global;
use std::io;
use std::rt::Files;

/// What snapshots are written to.
pub trait Store {
    // What it is now has this text at this path, and is else what it was. Where nothing can be promised, it is anything.
    ghost Replaces: { Self → List ℕ → List ℕ → Self → Type 0 };

    /// Replaces the file at a path by one with this text, or creates it.
    ///
    /// # Errors
    ///
    /// If the file can't be written. It is then as it was.
    fn replace(&mut self, path: &str, text: &str) -> io::Result<()>
        ensures replaces { OnOk result (Replaces self.old path.now text.now self.new) }
        ensures kept { OnErr result (self.new ≡ self.old) };
}

/// The files that a runtime reaches.
#[derive(Drop)]
pub struct RealStore<R: Files + Drop> {
    rt: R,
    alloc: Global,
}

impl<R: Files + Drop> RealStore<R> {
    /// Returns the files that this runtime reaches. It makes no call yet.
    pub fn new(rt: R, alloc: Global) -> Self {
        RealStore { rt, alloc }
    }
}

impl<R: Files + Drop> Store for RealStore<R> {
    ghost Replaces = { λ _ _ _ _. Unit {0} };

    fn replace(&mut self, path: &str, text: &str) -> io::Result<()> {
        replace(&self.rt, self.alloc, path, text.as_bytes())
    }
}
