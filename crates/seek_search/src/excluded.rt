//! What is left out without ignore files: the lines of `-E`, and those of files that are named.
ghost use Rattle.std.specs.Prelude.{◌≡◌, flat_map, map, string_bytes, IfOk};
ghost use Rattle.jwalk_ignore.specs.Callback.Excluding.{excluded_of};
ghost use Rattle.program_parts.specs.Values.{texts_of};
ghost use Rattle.seek_search.specs.Search.{excluded_asked, here_of, lines_of, named_below};

use jwalk_ignore::excluding::Excluding;
use seek_braces::expansions;
use seek_words::asked::Asked;
use std::alloc::{AllocError, Global};

/// Returns the lines that a line is short for.
fn lines_of(alloc: Global, line: &str) -> Result<Vec<String>, AllocError>
    ensures { IfOk result (λ lines. map string_bytes lines.items ≡ lines_of line.now) }
{
    if let Some(lines) = expansions(alloc, line)? {
        return Ok(lines);
    }
    let mut lines = Vec::new(alloc);
    lines.push(String::from_str(alloc, line)?)?;
    Ok(lines)
}

fn all_lines(alloc: Global, lines: &[&str]) -> Result<Vec<String>, AllocError>
    ensures { IfOk result (λ all. map string_bytes all.items ≡ flat_map lines_of (texts_of lines.now)) }
{
    let mut all = Vec::new(alloc);
    for line in lines {
        let mut more = lines_of(alloc, line)?;
        all.append(&mut more)?;
    }
    Ok(all)
}

fn borrowed(alloc: Global, lines: &[String]) -> Result<Vec<&str>, AllocError>
    ensures { IfOk result (λ texts. texts_of texts.items ≡ map string_bytes lines.now) }
{
    let mut texts = Vec::with_capacity(alloc, lines.len())?;
    for line in lines {
        texts.push(line.as_str())?;
    }
    Ok(texts)
}

/// Returns the callback that leaves out what is asked for below a root, with its errors. Where a walk without ignore
/// files skips hidden names, it leaves out theirs too.
pub(crate) fn excluding_of(
    alloc: Global,
    asked: &Asked<'_>,
    root: &str,
) -> Result<Excluding, AllocError>
    ensures { IfOk result (λ it. excluded_of it ≡ excluded_asked asked.now root.now) }
{
    let all = all_lines(alloc, asked.excludes.as_slice())?;
    let texts = borrowed(alloc, all.as_slice())?;
    let excluding = Excluding::new(alloc, texts.as_slice(), root)?;
    let skips_hidden = asked.no_ignore && !asked.hidden;
    Ok(excluding.drop_errors(true).drop_hidden_errors(skips_hidden))
}

/// Returns how the paths below a root begin if they are relative to the folder that the program runs in.
fn here_of(root: &str) -> &str
    ensures { result.now ≡ here_of root.now }
{
    if root == "." {
        return ".";
    }
    match root.strip_prefix("./") {
        Some(_) => ".",
        None => "",
    }
}

/// Returns the callback that leaves out what these lines of files name below a root, with its errors. They match whole
/// paths, from the folder that the program runs in, or from `/` if the root is absolute.
pub(crate) fn naming_of(alloc: Global, lines: &[u8], root: &str) -> Result<Excluding, AllocError>
    ensures { IfOk result (λ it. excluded_of it ≡ named_below lines.now root.now) }
{
    Ok(Excluding::of_text(alloc, lines, here_of(root))?.drop_errors(true))
}
