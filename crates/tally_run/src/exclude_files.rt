//! Files with lines that say what doesn't count.
ghost use Rattle.std.specs.Prelude.{◌≡◌, ◌++◌, map, string_bytes, Ok, IfOk};
ghost use Rattle.program_parts.specs.Values.{texts_of};
ghost use Rattle.tally_run.specs.ExcludeFiles.{Includes};

use crate::failure::Failure;
use crate::report::file_text;
use crate::screen::Screen;
use jwalk::file_system::Fault;
use jwalk_ignore::texts::Texts;
use std::alloc::{AllocError, Global};
use tally_words::asked::Asked;

/// Returns the text of a file.
///
/// # Errors
///
/// If it can't be read or isn't UTF-8, or if memory runs out.
fn text_at<X: Texts>(
    alloc: Global,
    texts: &X,
    screen: Screen,
    path: &str,
) -> Result<String, Failure>
    ensures { X.IsFixed texts.now → IfOk result (λ text. (X.functions texts.now).bytes_of path.now ≡ Ok (string_bytes text)) }
{
    let bytes = match texts.read(alloc, path) {
        Ok(bytes) => bytes,
        Err(Fault::Io(error)) => {
            let what = file_text(alloc, screen.shows_errors, path, &error)?;
            return Err(Failure::Error(what));
        }
        Err(Fault::Memory) => return Err(Failure::from(AllocError)),
    };
    match String::from_utf8(bytes) {
        Ok(text) => Ok(text),
        Err(_) => {
            let what = file_text(alloc, screen.shows_errors, path, &"isn't UTF-8")?;
            Err(Failure::Error(what))
        }
    }
}

/// Returns the texts of files.
///
/// # Errors
///
/// If one can't be read or isn't UTF-8, or if memory runs out.
pub(crate) fn texts_at<X: Texts>(
    alloc: Global,
    texts: &X,
    screen: Screen,
    paths: &[&str],
) -> Result<Vec<String>, Failure>
    ensures { X.IsFixed texts.now → IfOk result (λ read. map (X.functions texts.now).bytes_of (texts_of paths.now) ≡ map Ok (map string_bytes read.items)) }
{
    let mut read = Vec::new(alloc);
    for path in paths {
        let text = text_at(alloc, texts, screen, path)?;
        read.reserve(1)?;
        read.push_reserved(text);
    }
    Ok(read)
}

/// Returns the same call, where the lines of these texts come before its own.
///
/// # Errors
///
/// If memory runs out.
pub(crate) fn with_texts<'w>(
    alloc: Global,
    asked: Asked<'w>,
    read: &'w [String],
) -> Result<Asked<'w>, AllocError>
    ensures { IfOk result (Includes asked.entry (map string_bytes read.entry.now)) }
{
    let mut excludes = Vec::new(alloc);
    for text in read {
        excludes.reserve(1)?;
        excludes.push_reserved(text.as_str());
    }
    excludes.extend_from_slice(asked.excludes.as_slice())?;
    Ok(Asked { excludes, ..asked })
}
