//! The pattern of one line.
ghost use Rattle.std.specs.Prelude.{◌≡◌, ◌↔◌, [], false, IfOk, IfSome, IsTrue};
ghost use Rattle.std.specs.List.{list_any};
ghost use Rattle.std.specs.Option.{ForSome, option_map};
ghost use Rattle.jwalk_ignore_rules.specs.Pattern.Fits.{part_map};
ghost use Rattle.jwalk_ignore_rules.specs.Pattern.Glob.{glob_in_either_case, glob_value};
ghost use Rattle.jwalk_ignore_rules.specs.Pattern.NamePattern.{IsReached, LastByteIs, globs_value};
ghost use Rattle.jwalk_ignore_rules.specs.Pattern.Names.{is_slash, names_of};
ghost use Rattle.jwalk_ignore_rules.specs.Pattern.PatternText.{without_first_slash, without_last_slash, ends_with_slash, first_parts};

mod byte_class;
mod byte_test;
mod class;
mod class_item;
mod glob;
mod item_read;
mod item_test;
pub(crate) mod names;
mod names_read;
mod part;
pub(crate) mod pieces;
mod search;
mod taken;
mod token;

use crate::pattern::glob::Glob;
use crate::pattern::names_read::NamesRead;
use crate::pattern::part::Part;
use crate::rules::decision::Decision;
use std::alloc::{AllocError, Allocator, Global};

/// The pattern of one line of an ignore file.
#[derive(Drop)]
pub struct Pattern<A: Allocator + Copy = Global> {
    keeps: bool,
    only_dirs: bool,
    /// The byte that each path ends with that the pattern matches, unless it ends with a slash, if there is such a byte.
    last_byte: Option<u8>,
    parts: Vec<Part<Glob<A>>, A>,
    ghost ended: { ForSome last_byte (λ byte. LastByteIs (globs_value parts.items) byte) },
}

/// Returns a text without the slash that it begins with.
pub fn without_first_slash(text: &[u8]) -> &[u8]
    ensures { result.now ≡ without_first_slash text.now }
{
    match text {
        [b'/', behind @ ..] => behind,
        _ => text,
    }
}

fn ends_with_slash(text: &[u8]) -> bool
    ensures { result ≡ ends_with_slash text.now }
{
    !text.is_empty() && text[text.len() - 1] == b'/'
}

fn without_last_slash(text: &[u8]) -> &[u8]
    ensures { result.now ≡ without_last_slash text.now }
{
    if !text.is_empty() && text[text.len() - 1] == b'/' {
        &text[..text.len() - 1]
    } else {
        text
    }
}

fn has_slash(text: &[u8]) -> bool
    ensures { result ≡ list_any is_slash text.now }
{
    text.iter().any(|byte| *byte == b'/')
}

/// Returns the parts in front of those of a text: `**` if it has no slash.
fn first_parts<A: Allocator + Copy>(
    alloc: A,
    text: &[u8],
) -> Result<Vec<Part<Glob<A>>, A>, AllocError>
    ensures { IfOk result (λ parts. globs_value parts.items ≡ first_parts text.now) }
{
    let mut parts = Vec::new(alloc);
    if !has_slash(text) {
        parts.push(Part::Many)?;
    }
    Ok(parts)
}

fn last_byte_of<A: Allocator + Copy>(parts: &[Part<Glob<A>>]) -> Option<u8>
    ensures { ForSome result (λ byte. LastByteIs (globs_value parts.now) byte) }
{
    match parts.split_last() {
        Some((Part::One(glob), _)) => glob.last_byte(),
        _ => None,
    }
}

fn ignore_case_of<A: Allocator + Copy>(part: &mut Part<Glob<A>>)
    ensures { part_map glob_value part.new ≡ part_map glob_in_either_case (part_map glob_value part.old) }
{
    if let Part::One(glob) = part {
        glob.ignore_case();
    }
}

impl<A: Allocator + Copy> Pattern<A> {
    ghost use Rattle.jwalk_ignore_rules.specs.Pattern.{EndsWith, Matches, decision_of, pattern_in, pattern_in_either_case, pattern_of_text, pattern_value};

    /// None if it is malformed.
    fn of_text(alloc: A, keeps: bool, text: &[u8]) -> Result<Option<Self>, AllocError>
        ensures { IfOk result (λ r. option_map pattern_value r ≡ pattern_of_text keeps text.now) }
    {
        let inner = without_last_slash(text);
        let first = first_parts(alloc, inner)?;
        match NamesRead::read(alloc, first, without_first_slash(inner))? {
            Some(parts) => Ok(Some(Pattern {
                keeps,
                only_dirs: ends_with_slash(text),
                last_byte: last_byte_of(&parts),
                parts,
            })),
            None => Ok(None),
        }
    }

    /// Reads the pattern of a line's text. None for an empty text, a comment and a malformed pattern, which match
    /// nothing.
    ///
    /// # Errors
    ///
    /// If memory runs out.
    pub fn read(alloc: A, text: &[u8]) -> Result<Option<Self>, AllocError>
        ensures { IfOk result (λ r. option_map pattern_value r ≡ pattern_in text.now) }
    {
        match text {
            [] | [b'#', ..] => Ok(None),
            [b'!', behind @ ..] => Pattern::of_text(alloc, true, behind),
            _ => Pattern::of_text(alloc, false, text),
        }
    }

    /// Returns the name with which each path ends that the pattern matches, if its last part is a plain name.
    pub(crate) fn last_name(&self, alloc: A) -> Result<Option<Vec<u8, A>>, AllocError>
        ensures { IfOk result (λ r. IfSome r (λ name. EndsWith (pattern_value self.now) name.items)) }
    {
        match self.parts.split_last() {
            Some((Part::One(glob), _)) => glob.only_name(alloc),
            _ => Ok(None),
        }
    }

    /// Has ASCII's letters match in either case: a byte its other case, and an item of a class what it has the other
    /// case of. A class of all other bytes has none that it then lists.
    pub fn ignore_case(&mut self)
        ensures { pattern_value self.new ≡ pattern_in_either_case (pattern_value self.old) }
    {
        self.last_byte = None;
        for part in self.parts.iter_mut() {
            ignore_case_of(part);
        }
    }

    /// Returns what the pattern says of a path that it matches.
    pub fn decision(&self) -> Decision
        ensures { result ≡ decision_of (pattern_value self.now).keeps }
    {
        if self.keeps {
            Decision::Kept
        } else {
            Decision::Ignored
        }
    }

    /// Returns whether the pattern may match a path, by its last byte alone.
    fn may_end(&self, path: &[u8]) -> bool
        ensures { result ≡ false → IsReached (globs_value self.now.parts.items) (names_of path.now) → ⊥ }
    {
        match (self.last_byte, path.split_last()) {
            (Some(own), Some((byte, _))) => *byte == own || *byte == b'/',
            _ => true,
        }
    }

    /// Returns whether the names of a path fit the parts of the pattern.
    fn fits(&self, path: &[u8]) -> bool
        ensures { IsTrue result ↔ IsReached (globs_value self.now.parts.items) (names_of path.now) }
    {
        search::fits(&self.parts, path)
    }

    /// Returns whether the pattern matches a path. `is_dir` says whether that is of a directory.
    pub fn matches(&self, path: &[u8], is_dir: bool) -> bool
        ensures { IsTrue result ↔ Matches (pattern_value self.now) path.now is_dir }
    {
        if self.only_dirs && !is_dir || !self.may_end(path) {
            return false;
        }
        self.fits(path)
    }
}
