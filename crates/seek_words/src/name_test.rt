//! A test of names.
ghost use Rattle.std.specs.Prelude.{◌≡◌, ℕ, List, Bool, IfOk};

use std::alloc::AllocError;

/// A test of names, or of paths.
pub trait NameTest: Drop {
    /// Whether a text passes, which is that of a directory or not.
    ghost takes: { Self → List ℕ → Bool → Bool };

    /// Returns whether a text passes. `is_dir` says whether it is that of a directory. The test may only change its
    /// memory.
    ///
    /// # Errors
    ///
    /// If memory runs out.
    fn passes(&mut self, text: &str, is_dir: bool) -> Result<bool, AllocError>
        ensures answer { IfOk result (λ yes. yes ≡ takes self.old text.now is_dir) }
        ensures same { takes self.new ≡ takes self.old };
}
