//! The test of a name by one pattern.
ghost use Rattle.std.specs.Prelude.{◌≡◌, IfOk, map};
ghost use Rattle.std.specs.List.{list_all};
ghost use Rattle.seek_found.specs.NamePattern.{takes_name};
ghost use Rattle.seek_found.specs.PatternTest.{takes_of};

use crate::glob::Glob;
use crate::name_pattern::NamePattern;
use regex::Matcher;
use std::alloc::{AllocError, Global};

/// The test of one pattern.
#[derive(Drop)]
pub enum PatternTest<'s> {
    Any,
    Finds(Matcher<'s>),
    Takes(&'s Glob),
}

impl<'s> PatternTest<'s> {
    /// Returns the test of a pattern.
    pub fn new(alloc: Global, pattern: &'s NamePattern) -> Result<Self, AllocError>
        ensures { IfOk result (λ test. takes_of test ≡ takes_name pattern.entry.now) }
    {
        match pattern {
            NamePattern::Any => Ok(PatternTest::Any),
            NamePattern::Expression(expression) => {
                Ok(PatternTest::Finds(expression.matcher(alloc)?))
            }
            NamePattern::Glob(glob) => Ok(PatternTest::Takes(glob)),
        }
    }

    /// Returns whether a text passes. The test may only change its memory.
    pub fn passes(&mut self, text: &str, is_dir: bool) -> bool
        ensures answer { result ≡ takes_of self.old text.now is_dir }
        ensures same { takes_of self.new ≡ takes_of self.old }
    {
        match self {
            PatternTest::Any => true,
            PatternTest::Finds(matcher) => matcher.is_match(text),
            PatternTest::Takes(glob) => glob.takes(text, is_dir),
        }
    }
}

#[tactic(auto, using(crate::proofs::TestFacts::all_passed))]
/// Returns whether a text passes each of these tests.
pub fn all_pass(tests: &mut [PatternTest<'_>], text: &str, is_dir: bool) -> bool
    ensures answer { result ≡ list_all (λ takes. takes text.now is_dir) (map takes_of tests.old) }
    ensures same { map takes_of tests.new ≡ map takes_of tests.old }
{
    let mut at = 0;
    while at < tests.len() {
        if !tests[at].passes(text, is_dir) {
            return false;
        }
        at += 1;
    }
    true
}
