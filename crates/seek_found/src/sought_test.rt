//! The test of a name by all patterns.
ghost use Rattle.std.specs.Prelude.{◌≡◌, IfOk, map};
ghost use Rattle.seek_found.specs.NamePattern.{takes_name};
ghost use Rattle.seek_found.specs.PatternTest.{takes_of as takes_one};
ghost use Rattle.seek_found.specs.Sought.{takes_by};

use crate::name_pattern::NamePattern;
use crate::pattern_test::{PatternTest, all_pass};
use crate::sought::Sought;
use seek_words::name_test::NameTest;
use std::alloc::{AllocError, Global};

/// The test of a name by all patterns.
#[derive(Drop)]
pub struct SoughtTest<'s> {
    first: PatternTest<'s>,
    others: Vec<PatternTest<'s>>,
}

fn tests_of<'s>(
    alloc: Global,
    patterns: &'s [NamePattern],
) -> Result<Vec<PatternTest<'s>>, AllocError>
    ensures { IfOk result (λ tests. map takes_one tests.items ≡ map takes_name patterns.entry.now) }
{
    let mut tests = Vec::new(alloc);
    for pattern in patterns {
        let test = PatternTest::new(alloc, pattern)?;
        tests.reserve(1)?;
        tests.push_reserved(test);
    }
    Ok(tests)
}

impl<'s> SoughtTest<'s> {
    ghost use Rattle.seek_found.specs.SoughtTest.{takes_of};

    /// Returns the test for these patterns.
    pub fn new(alloc: Global, sought: &'s Sought) -> Result<Self, AllocError>
        ensures { IfOk result (λ test. takes_of test ≡ takes_by sought.entry.now) }
    {
        Ok(SoughtTest {
            first: PatternTest::new(alloc, &sought.first)?,
            others: tests_of(alloc, sought.others.as_slice())?,
        })
    }
}

impl<'s> NameTest for SoughtTest<'s> {
    ghost use Rattle.seek_found.specs.SoughtTest.{takes_of};

    ghost takes = { λ test. takes_of test };

    fn passes(&mut self, text: &str, is_dir: bool) -> Result<bool, AllocError> {
        Ok(self.first.passes(text, is_dir) && all_pass(self.others.as_mut_slice(), text, is_dir))
    }
}
