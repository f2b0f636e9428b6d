//! Patterns of one name.
ghost use Rattle.std.specs.Prelude.{◌≡◌, ◌↔◌, ℕ, List, IfOk, IfSome, IsTrue};
ghost use Rattle.std.specs.Option.{ForSome};
ghost use Rattle.jwalk_ignore_rules.specs.Pattern.ByteTest.{in_either_case, test_value};
ghost use Rattle.jwalk_ignore_rules.specs.Pattern.Fits.{part_map};

use crate::pattern::byte_test::ByteTest;
use crate::pattern::item_test::ItemTest;
use crate::pattern::names::{split_last_name, split_name};
use crate::pattern::part::Part;
use crate::pattern::search;
use std::alloc::{AllocError, Allocator, Global};

/// A pattern of one name, as `*.o`.
#[derive(Drop)]
pub(crate) struct Glob<A: Allocator + Copy = Global> {
    parts: Vec<Part<ByteTest<A>>, A>,
}

fn ignore_case_of<A: Allocator + Copy>(part: &mut Part<ByteTest<A>>)
    ensures { part_map test_value part.new ≡ part_map in_either_case (part_map test_value part.old) }
{
    if let Part::One(test) = part {
        test.ignore_case();
    }
}

impl<A: Allocator + Copy> Glob<A> {
    ghost use Rattle.jwalk_ignore_rules.specs.Pattern.Glob.{glob_in_either_case, glob_value, parts_value, EachEndsWith, IsNamed, TakesOnly};

    pub(crate) fn new(parts: Vec<Part<ByteTest<A>>, A>) -> Self
        ensures { glob_value result ≡ parts_value parts.items }
    {
        Glob { parts }
    }

    pub(crate) fn last_byte(&self) -> Option<u8>
        ensures { ForSome result (λ byte. EachEndsWith (glob_value self.now) byte) }
    {
        match self.parts.split_last() {
            Some((Part::One(ByteTest::Byte(byte)), _)) => Some(*byte),
            _ => None,
        }
    }

    /// Returns the only name that fits, if the pattern has neither stars nor other tests than bytes.
    pub(crate) fn only_name(&self, alloc: A) -> Result<Option<Vec<u8, A>>, AllocError>
        ensures { IfOk result (λ r. IfSome r (λ name. TakesOnly (glob_value self.now) name.items)) }
    {
        let mut name = Vec::new(alloc);
        for part in &self.parts {
            let Part::One(ByteTest::Byte(byte)) = part else {
                return Ok(None);
            };
            name.push(*byte)?;
        }
        Ok(Some(name))
    }

    pub(crate) fn ignore_case(&mut self)
        ensures { glob_value self.new ≡ glob_in_either_case (glob_value self.old) }
    {
        for part in self.parts.iter_mut() {
            ignore_case_of(part);
        }
    }

    pub(crate) fn fits(&self, name: &[u8]) -> bool
        ensures { IsTrue result ↔ IsNamed (glob_value self.now) name.now }
    {
        search::fits(&self.parts, name)
    }
}

/// A pattern of one name takes a name of a path.
impl<A: Allocator + Copy> ItemTest for Glob<A> {
    ghost use Rattle.jwalk_ignore_rules.specs.Pattern.Glob.{glob_value, IsNamed};
    ghost use Rattle.jwalk_ignore_rules.specs.Pattern.Names.{names_of};

    ghost Item = { List ℕ };

    ghost items = { names_of };

    ghost takes = { λ glob name. IsNamed (glob_value glob) name };

    fn take_first<'t>(&self, text: &'t [u8]) -> Option<&'t [u8]> {
        let (name, behind) = split_name(text)?;
        if self.fits(name) { Some(behind) } else { None }
    }

    fn take_last<'t>(&self, text: &'t [u8]) -> Option<&'t [u8]> {
        let (front, name) = split_last_name(text)?;
        if self.fits(name) { Some(front) } else { None }
    }

    fn skip_first<'t>(text: &'t [u8]) -> Option<&'t [u8]> {
        let (_, behind) = split_name(text)?;
        Some(behind)
    }
}
