//! How often a disk is asked.
use std::sync::atomic::{AtomicUsize, Ordering};

/// What is asked about a path.
#[derive(Clone, Copy, PartialEq, Eq)]
pub(crate) enum Question {
    /// What is in a directory.
    List,
    /// The metadata of the path itself.
    Look,
    /// What a link leads to.
    Follow,
    /// The bytes of a file of rules.
    Read,
    /// A type or an absolute path, for rules.
    Place,
}

/// How often a disk was asked for a list, for the metadata of a path itself, for what a link leads to, and for rules.
pub(crate) type Asked = [usize; 4];

pub(crate) fn sum(asked: Asked) -> usize {
    let [lists, looks, follows, rules] = asked;
    lists
        .wrapping_add(looks)
        .wrapping_add(follows)
        .wrapping_add(rules)
}

/// How often a disk was asked so far.
pub(crate) struct Counts {
    lists: AtomicUsize,
    looks: AtomicUsize,
    follows: AtomicUsize,
    rules: AtomicUsize,
}

impl Drop for Counts {
    fn drop(self) {
        let Counts {
            lists: _,
            looks: _,
            follows: _,
            rules: _,
        } = self;
    }
}

impl Counts {
    /// Returns counts of 0.
    pub(crate) fn new() -> Self {
        Counts {
            lists: AtomicUsize::new(0),
            looks: AtomicUsize::new(0),
            follows: AtomicUsize::new(0),
            rules: AtomicUsize::new(0),
        }
    }

    pub(crate) fn asked(&self) -> Asked {
        [
            self.lists.load(Ordering::SeqCst),
            self.looks.load(Ordering::SeqCst),
            self.follows.load(Ordering::SeqCst),
            self.rules.load(Ordering::SeqCst),
        ]
    }

    /// Returns the number of all questions.
    pub(crate) fn sum(&self) -> usize {
        sum(self.asked())
    }

    /// Counts a question, and returns how many came before it.
    pub(crate) fn count(&self, question: Question) -> usize {
        let turn = self.sum();
        let count = match question {
            Question::List => &self.lists,
            Question::Look => &self.looks,
            Question::Follow => &self.follows,
            Question::Read | Question::Place => &self.rules,
        };
        count.fetch_add(1, Ordering::SeqCst);
        turn
    }
}
