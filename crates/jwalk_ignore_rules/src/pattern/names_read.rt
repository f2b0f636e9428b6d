//! How the names of a pattern are read.
ghost use Rattle.std.specs.Prelude.{◌≡◌, ◌++◌, [], length, IfOk, OnOk};
ghost use Rattle.std.specs.Option.{option_map};
ghost use Rattle.std.specs.List.{list_all};
ghost use Rattle.jwalk_ignore_rules.specs.Pattern.ByteTest.{test_value};
ghost use Rattle.jwalk_ignore_rules.specs.Pattern.Fits.{part_map};
ghost use Rattle.jwalk_ignore_rules.specs.Pattern.Glob.{glob_value, parts_value};
ghost use Rattle.jwalk_ignore_rules.specs.Pattern.NamePattern.{globs_value};
ghost use Rattle.jwalk_ignore_rules.specs.Pattern.NamesRead.{inner_part, is_double_star, is_many, last_parts};

use crate::pattern::byte_test::ByteTest;
use crate::pattern::glob::Glob;
use crate::pattern::part::Part;
use crate::pattern::token::Token;
use std::alloc::{AllocError, Allocator};
use std::mem;

/// What was read of a pattern.
#[derive(Drop)]
pub(crate) struct NamesRead<A: Allocator + Copy> {
    /// The parts whose names ended.
    parts: Vec<Part<Glob<A>>, A>,
    /// The parts of the name that goes on.
    name: Vec<Part<ByteTest<A>>, A>,
}

fn is_many<A: Allocator + Copy>(part: &Part<ByteTest<A>>) -> bool
    ensures { result ≡ is_many (part_map test_value part.now) }
{
    matches!(part, Part::Many)
}

fn is_stars<A: Allocator + Copy>(name: &[Part<ByteTest<A>>]) -> bool
    ensures { result ≡ list_all is_many (parts_value name.now) }
{
    name.iter().all(|part| is_many(part))
}

/// Returns whether a name is two stars, or more.
fn is_double_star<A: Allocator + Copy>(name: &[Part<ByteTest<A>>]) -> bool
    ensures { result ≡ is_double_star (parts_value name.now) }
{
    2 <= name.len() && is_stars(name)
}

/// Returns the part that a name in front of a slash is.
fn inner_part<A: Allocator + Copy>(name: Vec<Part<ByteTest<A>>, A>) -> Part<Glob<A>>
    ensures { part_map glob_value result ≡ inner_part (parts_value name.items) }
{
    if is_double_star(&name) {
        Part::Many
    } else {
        Part::One(Glob::new(name))
    }
}

fn push_last<A: Allocator + Copy>(
    parts: &mut Vec<Part<Glob<A>>, A>,
    name: Vec<Part<ByteTest<A>>, A>,
) -> Result<(), AllocError>
    ensures { OnOk result (globs_value parts.new.items ≡ globs_value parts.old.items ++ last_parts (parts_value name.items)) }
{
    if is_double_star(&name) {
        parts.push(Part::Many)?;
        parts.push(Part::One(Glob::new(name)))?;
        return Ok(());
    }
    parts.push(Part::One(Glob::new(name)))?;
    Ok(())
}

impl<A: Allocator + Copy> NamesRead<A> {
    ghost use Rattle.jwalk_ignore_rules.specs.Pattern.NamesRead.{added, finished, parts_in, read_value};
    ghost use Rattle.jwalk_ignore_rules.specs.Pattern.Token.{token_value};

    fn add(&mut self, alloc: A, token: Token<A>) -> Result<(), AllocError>
        ensures { OnOk result (read_value self.new ≡ added (token_value token) (read_value self.old)) }
    {
        match token {
            Token::Slash => {
                let name = mem::replace(&mut self.name, Vec::new(alloc));
                self.parts.push(inner_part(name))?;
            }
            Token::Part(part) => self.name.push(part)?,
        }
        Ok(())
    }

    fn finish(self) -> Result<Vec<Part<Glob<A>>, A>, AllocError>
        ensures { IfOk result (λ parts. globs_value parts.items ≡ finished (read_value self)) }
    {
        let NamesRead { mut parts, name } = self;
        push_last(&mut parts, name)?;
        Ok(parts)
    }

    /// None if it is malformed.
    pub(crate) fn read(
        alloc: A,
        parts: Vec<Part<Glob<A>>, A>,
        text: &[u8],
    ) -> Result<Option<Vec<Part<Glob<A>>, A>>, AllocError>
        ensures { IfOk result (λ r. option_map (λ all. globs_value all.items) r
            ≡ parts_in (length text.now) (record { parts = globs_value parts.items; name = [] }) text.now) }
    {
        let mut read = NamesRead {
            parts,
            name: Vec::new(alloc),
        };
        let mut rest = text;
        'tokens: while !rest.is_empty() {
            let Some((token, behind)) = Token::read(alloc, rest)? else {
                return Ok(None);
            };
            read.add(alloc, token)?;
            rest = behind;
        }
        Ok(Some(read.finish()?))
    }
}
