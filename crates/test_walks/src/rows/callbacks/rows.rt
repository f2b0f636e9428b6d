//! Walks by name, each with callbacks.
use crate::rows::callbacks::callback::{Callback, called};
use jwalk::read_dir::{Both, ProcessReadDir};
use std::alloc::{AllocError, Global};
use std::thread::Threads;
use test_fixtures::answers::Answer;
use test_fixtures::trees::{Step, tree};
use test_fixtures::ways::{Asked, Setting, Way};

/// What is called with each list.
#[derive(Clone, Copy)]
pub enum Callbacks {
    /// One callback.
    One(Callback),
    /// `Both` of two callbacks.
    Two(Callback, Callback),
}

// All callbacks have one type, since each type of a walk costs time.
impl ProcessReadDir<((), ()), Global> for Callbacks {
    ghost IsLawful = { λ _. Unit {0} };

    ghost Makes = { λ _ _. ⊥ };

    fn process(
        &self,
        depth: Option<usize>,
        path: &str,
        state: &mut (),
        list: &mut Vec<Answer>,
    ) -> Result<(), AllocError> {
        match *self {
            Callbacks::One(callback) => called(&callback, depth, path, state, list),
            Callbacks::Two(first, second) => {
                called(&Both::new(first, second), depth, path, state, list)
            }
        }
    }
}

/// A walk by name with callbacks, and its answers.
pub struct Row {
    pub callbacks: Callbacks,
    pub steps: &'static [Step],
    pub root: &'static str,
    pub answers: &'static str,
}

impl Row {
    /// Returns whether the walk yields these answers.
    pub fn holds<R: Threads + AllocGlobal + Sync>(&self, rt: &R, way: Way) -> bool {
        let Ok(fs) = tree(rt.alloc(), self.steps) else {
            return false;
        };
        let asked = Asked {
            fs: &fs,
            root: self.root,
            settings: &[Setting::Sort],
        };
        asked.shows(rt, self.callbacks, way, self.answers)
    }
}
