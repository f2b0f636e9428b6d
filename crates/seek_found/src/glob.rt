//! A glob that takes a whole name, or a whole path.
ghost use Rattle.std.specs.Prelude.{◌≡◌, map, string_bytes, if◌then◌else◌, Some, None, IfOk};
ghost use Rattle.std.specs.List.{list_any};
ghost use Rattle.std.specs.Option.{option_map};
ghost use Rattle.jwalk_ignore_rules.specs.Rules.Matching.{matches};
ghost use Rattle.jwalk_ignore_rules.specs.Pattern.{pattern_value};
ghost use Rattle.seek_found.specs.Glob.{added, glob_line, has_mark, in_case, one_pattern, patterns_of, values_of};

use jwalk_ignore_rules::pattern::{Pattern, without_first_slash};
use std::alloc::{AllocError, Global};

/// A glob that takes a whole name, or a whole path.
#[derive(Drop)]
pub struct Glob {
    /// One of these has to match.
    patterns: Vec<Pattern>,
}

fn has_mark(text: &[u8]) -> bool
    ensures { result ≡ has_mark text.now }
{
    matches!(text, [b'!' | b'#', ..])
}

fn matches(pattern: &Pattern, path: &[u8], is_dir: bool) -> bool
    ensures { result ≡ matches (pattern_value pattern.now) path.now is_dir }
{
    pattern.matches(path, is_dir)
}

fn any_matches(patterns: &[Pattern], path: &[u8], is_dir: bool) -> bool
    ensures { result ≡ list_any (λ pattern. matches pattern path.now is_dir) (values_of patterns.now) }
{
    patterns
        .iter()
        .any(|pattern| matches(pattern, path, is_dir))
}

fn in_case(ignores_case: bool, pattern: Pattern) -> Pattern
    ensures { pattern_value result ≡ in_case ignores_case (pattern_value pattern) }
{
    let mut pattern = pattern;
    if ignores_case {
        pattern.ignore_case();
    }
    pattern
}

/// Returns a text as the line of an ignore file. A `!` or a `#` at the beginning means itself.
fn line_of(alloc: Global, text: &[u8]) -> Result<Vec<u8>, AllocError>
    ensures { IfOk result (λ line. line.items ≡ glob_line text.now) }
{
    let mut line = Vec::new(alloc);
    if has_mark(text) {
        line.push(b'\\')?;
    }
    line.extend_from_slice(text)?;
    Ok(line)
}

/// Returns `None` if the text is malformed.
fn one_pattern(
    alloc: Global,
    text: &[u8],
    ignores_case: bool,
) -> Result<Option<Pattern>, AllocError>
    ensures { IfOk result (λ r. option_map pattern_value r ≡ one_pattern ignores_case text.now) }
{
    let line = line_of(alloc, text)?;
    match Pattern::read(alloc, line.as_slice())? {
        Some(pattern) => Ok(Some(in_case(ignores_case, pattern))),
        None => Ok(None),
    }
}

/// Adds the pattern of a text, unless the text is empty. Returns whether it is well-formed.
fn push_pattern(
    alloc: Global,
    patterns: &mut Vec<Pattern>,
    text: &[u8],
    ignores_case: bool,
) -> Result<bool, AllocError>
    ensures { IfOk result (λ good. (if good then Some (values_of patterns.new.items) else None)
        ≡ added (Some (values_of patterns.old.items)) (patterns_of ignores_case text.now)) }
{
    if text.is_empty() {
        return Ok(true);
    }
    match one_pattern(alloc, text, ignores_case)? {
        Some(pattern) => {
            patterns.push(pattern)?;
            Ok(true)
        }
        None => Ok(false),
    }
}

impl Glob {
    ghost use Rattle.seek_found.specs.Glob.{glob_takes, glob_value, patterns_in};

    /// Reads a glob, by the texts that it is short for. Returns `None` if one of them is malformed. An empty text takes
    /// no name.
    pub fn read(
        alloc: Global,
        texts: &[String],
        ignores_case: bool,
    ) -> Result<Option<Self>, AllocError>
        ensures { IfOk result (λ r. option_map glob_value r ≡ patterns_in ignores_case (map string_bytes texts.now)) }
    {
        let mut patterns = Vec::new(alloc);
        for text in texts {
            if !push_pattern(alloc, &mut patterns, text.as_bytes(), ignores_case)? {
                return Ok(None);
            }
        }
        Ok(Some(Glob { patterns }))
    }

    /// Returns whether the glob takes a name or an absolute path.
    pub fn takes(&self, text: &str, is_dir: bool) -> bool
        ensures { result ≡ glob_takes (glob_value self.now) text.now is_dir }
    {
        any_matches(
            self.patterns.as_slice(),
            without_first_slash(text.as_bytes()),
            is_dir,
        )
    }
}
