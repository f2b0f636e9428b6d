//! The excludes that configurations name.
ghost use Rattle.std.specs.Prelude.{◌≡◌, IfOk, option_map, string_bytes};
ghost use Rattle.std.specs.IoError.{error_kind};
ghost use Rattle.user_excludes.specs.Home.{home_value};
ghost use Rattle.user_excludes.specs.Named.{included_path, is_excludes, is_include, is_missing, or_line, path_in, text_in, with_file, with_first};
ghost use Rattle.git_config.specs.Readings.{setting_value};
ghost use Rattle.user_excludes.specs.NamedViews.{line_value, named_value, read_or_none, Tells};

use crate::home::Home;
use crate::unread::{Unread, bad_line, too_deep};
use git_config::config::{Setting, config_in};
use jwalk_fs::fault::Fault;
use jwalk_fs::path_text::{join, parent};
use jwalk_ignore_rules::texts::Texts;
use std::alloc::{AllocError, Global};
use std::io::ErrorKind;
use std::{io, str};

/// A line of a file.
#[derive(Drop)]
pub(crate) struct Line {
    pub(crate) file: String,
    pub(crate) line: usize,
}

/// What is known of the excludes behind some settings.
#[derive(Drop)]
pub(crate) struct Named {
    /// The path that was named last.
    pub(crate) path: Option<String>,
    /// Where they were first named without one.
    pub(crate) unset: Option<Line>,
}

fn is_missing(error: &io::Error) -> bool
    ensures { result ≡ is_missing (error_kind error.now) }
{
    matches!(error.kind(), ErrorKind::NotFound | ErrorKind::NotADirectory)
}

fn is_excludes(setting: &Setting) -> bool
    ensures { result ≡ is_excludes (setting_value setting.now) }
{
    setting.name.as_slice() == b"core.excludesfile".as_slice()
}

fn is_include(setting: &Setting) -> bool
    ensures { result ≡ is_include (setting_value setting.now) }
{
    setting.name.as_slice() == b"include.path".as_slice()
}

/// Returns a value as a text. Any other is a fault of its line.
fn text_in<'v>(alloc: Global, file: &str, line: usize, value: &'v [u8]) -> Result<&'v str, Unread>
    ensures { Tells (λ text. text.now) (text_in file.now line value.now) result }
{
    match str::from_utf8(value) {
        Ok(text) => Ok(text),
        Err(_) => Err(bad_line(alloc, file, line)),
    }
}

/// Returns the bytes of the file at a path, if there is one.
pub(crate) fn read_at<X: Texts>(
    texts: &X,
    alloc: Global,
    file: &str,
) -> Result<Option<Vec<u8>>, Unread>
    ensures { X.IsFixed texts.now → Tells (option_map (λ bytes. bytes.items)) (read_or_none file.now ((X.functions texts.now).bytes_of file.now)) result }
{
    match texts.read(alloc, file) {
        Ok(bytes) => Ok(Some(bytes)),
        Err(Fault::Io(error)) if is_missing(&error) => Ok(None),
        Err(Fault::Io(error)) => Err(Unread::File(String::from_str(alloc, file)?, error)),
        Err(Fault::Memory) => Err(Unread::Memory),
    }
}

/// Returns the path of an included file, by the folder of the one that includes it.
fn included_path(
    alloc: Global,
    home: Home<'_>,
    file: &str,
    path: &str,
) -> Result<String, AllocError>
    ensures { IfOk result (λ it. string_bytes it ≡ included_path (home_value home.entry) file.now path.now) }
{
    let path = home.expanded(alloc, path)?;
    match parent(file) {
        Some(folder) => join(alloc, folder, path.as_str()),
        None => Ok(path),
    }
}

#[tactic(auto, using(crate::proofs::UnreadFacts::fails_then))]
/// Returns the path of the file that a setting includes.
fn path_in(alloc: Global, home: Home<'_>, file: &str, setting: &Setting) -> Result<String, Unread>
    ensures { Tells string_bytes (path_in (home_value home.entry) file.now (setting_value setting.now)) result }
{
    let Some(value) = &setting.value else {
        return Err(bad_line(alloc, file, setting.line));
    };
    let path = text_in(alloc, file, setting.line, value)?;
    Ok(included_path(alloc, home, file, path)?)
}

/// Returns where excludes were first named without a path: there, or on this line of a file.
fn or_line(
    alloc: Global,
    first: Option<Line>,
    file: &str,
    line: usize,
) -> Result<Option<Line>, AllocError>
    ensures { IfOk result (λ it. option_map line_value it ≡ or_line (option_map line_value first) file.now line) }
{
    if first.is_some() {
        return Ok(first);
    }
    Ok(Some(Line {
        file: String::from_str(alloc, file)?,
        line,
    }))
}

impl Named {
    ghost use Rattle.user_excludes.specs.Named.{unnamed, with_value};

    pub(crate) fn new() -> Self
        ensures { named_value result ≡ unnamed }
    {
        Named {
            path: None,
            unset: None,
        }
    }

    #[tactic(auto, using(crate::proofs::UnreadFacts::fails_then))]
    /// Returns what is known behind a setting of the excludes.
    fn with_value(self, alloc: Global, file: &str, setting: &Setting) -> Result<Self, Unread>
        ensures { Tells named_value (with_value file.now (setting_value setting.now) (named_value self)) result }
    {
        let Named { path, unset } = self;
        let Some(value) = &setting.value else {
            let unset = or_line(alloc, unset, file, setting.line)?;
            return Ok(Named { path, unset });
        };
        let text = text_in(alloc, file, setting.line, value)?;
        Ok(Named {
            path: Some(String::from_str(alloc, text)?),
            unset,
        })
    }
}

/// Returns what is known of the excludes behind the configuration at a path, which may include others, and they more, up
/// to this number of files, each in another.
fn with_file<X: Texts>(
    texts: &X,
    alloc: Global,
    home: Home<'_>,
    left: usize,
    file: &str,
    named: Named,
) -> Result<Named, Unread>
    ensures { X.IsFixed texts.now → Tells named_value (with_file (X.functions texts.now) (home_value home.entry) left file.now (named_value named)) result }
{
    let Some(bytes) = read_at(texts, alloc, file)? else {
        return Ok(named);
    };
    if left == 0 {
        return Err(too_deep(alloc, file));
    }
    let config = config_in(alloc, &bytes)?;
    let mut named = named;
    for setting in &config.settings {
        if is_excludes(setting) {
            named = named.with_value(alloc, file, setting)?;
        } else if is_include(setting) {
            let path = path_in(alloc, home, file, setting)?;
            named = with_file(texts, alloc, home, left - 1, path.as_str(), named)?;
        }
    }
    match config.bad {
        Some(line) => Err(bad_line(alloc, file, line)),
        None => Ok(named),
    }
}

/// Returns the same of a configuration that isn't included, if there is such a path.
pub(crate) fn with_first<X: Texts>(
    texts: &X,
    alloc: Global,
    home: Home<'_>,
    file: &Option<String>,
    named: Named,
) -> Result<Named, Unread>
    ensures { X.IsFixed texts.now → Tells named_value (with_first (X.functions texts.now) (home_value home.entry) (option_map string_bytes file.now) (named_value named)) result }
{
    match file {
        Some(file) => with_file(texts, alloc, home, 11, file.as_str(), named),
        None => Ok(named),
    }
}
