//! The ignore files that a search reads.
ghost use Rattle.std.specs.Prelude.{◌≡◌, ◌++◌, flat_map, option_map, IfOk, OnOk};
ghost use Rattle.program_parts.specs.Values.{texts_of};
ghost use Rattle.seek_search.specs.RulesRead.{home_asked, lines_asked, lines_at, lines_found};
ghost use Rattle.user_excludes.specs.Home.{home_value};
ghost use Rattle.user_excludes.specs.OwnHome.{own_home_value};

use jwalk::file_system::Fault;
use jwalk_ignore::texts::Texts;
use jwalk_ignore_rules::rules::line::without_mark;
use seek_words::asked::Asked;
use std::alloc::{AllocError, Global};
use std::io;
use std::io::Write;
use user_excludes::home::{Home, OwnHome};

/// Returns where the user's own files are, if their excludes are asked for.
pub(crate) fn home_asked(
    alloc: Global,
    home: Home<'_>,
    asked: &Asked<'_>,
) -> Result<Option<OwnHome>, AllocError>
    ensures { IfOk result (λ own. option_map own_home_value own ≡ home_asked (home_value home.entry) asked.now) }
{
    if asked.no_ignore || asked.no_vcs || asked.no_global {
        return Ok(None);
    }
    Ok(Some(OwnHome::of(alloc, home)?))
}

fn report<E: Write>(path: &str, error: &io::Error, err: &mut E) {
    let _ = writeln!(err, "seek: {path}: {error}");
}

/// Appends the lines of a file, or reports its error.
fn add_lines<X: Texts, E: Write>(
    alloc: Global,
    texts: &X,
    path: &str,
    lines: &mut Vec<u8>,
    err: &mut E,
) -> Result<(), AllocError>
    ensures { X.IsFixed texts.now → OnOk result (lines.new.items
        ≡ lines.old.items ++ lines_found ((X.functions texts.now).bytes_of path.now)) }
{
    match texts.read(alloc, path) {
        Ok(bytes) => {
            lines.extend_from_slice(without_mark(&bytes))?;
            lines.push(b'\n')?;
            Ok(())
        }
        Err(Fault::Io(error)) => {
            report(path, &error, err);
            Ok(())
        }
        Err(Fault::Memory) => Err(AllocError),
    }
}

/// Returns the lines of files, one after another. A file that can't be read is reported, and has none.
fn lines_read<X: Texts, E: Write>(
    alloc: Global,
    texts: &X,
    paths: &[&str],
    err: &mut E,
) -> Result<Vec<u8>, AllocError>
    ensures { X.IsFixed texts.now → IfOk result (λ lines. lines.items ≡ flat_map (lines_at (X.functions texts.now)) (texts_of paths.now)) }
{
    let mut lines = Vec::new(alloc);
    for path in paths {
        add_lines(alloc, texts, path, &mut lines, err)?;
    }
    Ok(lines)
}

/// Returns the lines of the files that decide last.
pub(crate) fn lines_asked<X: Texts, E: Write>(
    alloc: Global,
    texts: &X,
    asked: &Asked<'_>,
    err: &mut E,
) -> Result<Vec<u8>, AllocError>
    ensures { X.IsFixed texts.now → IfOk result (λ lines. lines.items ≡ lines_asked (X.functions texts.now) asked.now) }
{
    lines_read(alloc, texts, asked.ignore_files.as_slice(), err)
}
