//! A callback that counts the directories that readings give.
use jwalk::read_dir::ProcessReadDir;
use std::alloc::{AllocError, Global};
use std::sync::Arc;
use std::sync::atomic::{AtomicUsize, Ordering};
use test_fixtures::answers::Answer;

/// A count of directories above the greatest depth.
#[derive(Drop)]
pub struct Counts {
    /// The number given so far.
    pub given: Arc<AtomicUsize>,
    /// The greatest depth, where no directory is read.
    pub max_depth: usize,
}

impl ProcessReadDir<((), ()), Global> for Counts {
    ghost IsLawful = { λ _. Unit {0} };

    ghost Makes = { λ _ _. ⊥ };

    fn process(
        &self,
        _depth: Option<usize>,
        _path: &str,
        _state: &mut (),
        list: &mut Vec<Answer>,
    ) -> Result<(), AllocError> {
        for answer in list.iter() {
            if let Ok(entry) = answer
                && entry.read_children.is_some()
                && entry.depth < self.max_depth
            {
                self.given.fetch_add(1, Ordering::SeqCst);
            }
        }
        Ok(())
    }
}
