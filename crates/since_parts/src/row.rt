//! The rows of what a snapshot holds.
ghost use Rattle.std.specs.Prelude.{◌≡◌, ◌++◌, OnOk};
ghost use Rattle.jwalk_snapshot.specs.Text.{entry_of, folder_of};
ghost use Rattle.since_parts.specs.Row.{facts_columns, letter_of, nanoseconds_of, number_column, row_of, rows_in, time_column};

use crate::line::push_path;
use itoa::Buffer;
use jwalk_fs::path_text::join;
use jwalk_model::file_type::FileType;
use jwalk_model::metadata::Moment;
use jwalk_snapshot::{Block, Facts, Name};
use program_parts::paths::Style;
use std::alloc::{AllocError, Global};

fn letter_of(file_type: FileType) -> u8
    ensures { result ≡ letter_of file_type }
{
    match file_type {
        FileType::Dir => b'd',
        FileType::File => b'f',
        FileType::Symlink => b'l',
        FileType::Other => b'o',
    }
}

/// Returns the nanoseconds since 1970.
fn nanoseconds_of(moment: Moment) -> i128
    ensures { result ≡ nanoseconds_of moment }
{
    i128::from(moment.seconds) * 1_000_000_000 + i128::from(moment.nanoseconds)
}

fn push_number(number: u64, out: &mut Vec<u8>) -> Result<(), AllocError>
    ensures { OnOk result (out.new.items ≡ out.old.items ++ number_column number) }
{
    out.push(b'\t')?;
    out.extend_from_slice(Buffer::new().format(number).as_bytes())
}

fn push_time(moment: Moment, out: &mut Vec<u8>) -> Result<(), AllocError>
    ensures { OnOk result (out.new.items ≡ out.old.items ++ time_column moment) }
{
    out.push(b'\t')?;
    out.extend_from_slice(Buffer::new().format(nanoseconds_of(moment)).as_bytes())
}

/// Adds the columns behind the type.
fn push_facts(facts: &Option<Facts>, out: &mut Vec<u8>) -> Result<(), AllocError>
    ensures { OnOk result (out.new.items ≡ out.old.items ++ facts_columns facts.now) }
{
    match facts {
        Some(facts) => {
            push_number(facts.len, out)?;
            push_time(facts.modified, out)?;
            push_number(facts.inode, out)
        }
        None => out.extend_from_slice(b"\t\t\t"),
    }
}

/// Adds the row of a name in a directory with this path.
fn push_row(
    style: Style,
    folder: &str,
    name: &Name<'_>,
    out: &mut Vec<u8>,
) -> Result<(), AllocError>
    ensures { OnOk result (out.new.items ≡ out.old.items ++ row_of style folder.now (entry_of name.now)) }
{
    let path = join(*out.allocator(), folder, name.name)?;
    push_path(style, path.as_str(), out)?;
    out.push(b'\t')?;
    out.push(letter_of(name.file_type))?;
    push_facts(&name.facts, out)?;
    out.push(style.separator)?;
    Ok(())
}

/// Adds a row for each name in a directory: the path behind the root, the letter of the type, the length, the time of
/// modification in nanoseconds since 1970, and the number of the file, with tabs between them. What the snapshot doesn't
/// know is empty.
///
/// # Errors
///
/// If memory runs out.
pub fn push_rows(style: Style, block: &Block<'_>, out: &mut Vec<u8>) -> Result<(), AllocError>
    ensures { OnOk result (out.new.items ≡ out.old.items ++ rows_in style (folder_of block.now)) }
{
    for name in &block.names {
        push_row(style, block.path, name, out)?;
    }
    Ok(())
}
