//! The details of an entry.
ghost use Rattle.std.specs.Prelude.{◌≡◌, ◌++◌, OnOk, option_and_then};
ghost use Rattle.std.specs.Option.{option_copied};
ghost use Rattle.jwalk_model.specs.Metadata.{details_of};
ghost use Rattle.seek_details.specs.Details.{details_text, mode_column, number_columns, time_column, type_letter};

use crate::columns::{push_number, push_padded};
use crate::date::push_time;
use crate::mode::mode_text;
use jwalk_model::file_type::FileType;
use jwalk_model::metadata::{Details, Metadata};
use std::alloc::{AllocError, Global};

fn details_of(seen: Option<&Metadata>) -> Option<Details>
    ensures { result ≡ option_and_then details_of (option_copied seen.entry) }
{
    seen?.details()
}

fn type_letter(file_type: FileType) -> u8
    ensures { result ≡ type_letter file_type }
{
    match file_type {
        FileType::Dir => b'd',
        FileType::File => b'-',
        FileType::Symlink => b'l',
        FileType::Other => b'?',
    }
}

fn mode_column(seen: Option<&Metadata>) -> [u8; 10]
    ensures { result ≡ mode_column (option_copied seen.entry) }
{
    let mut text = [b'?'; 10];
    if let Some(metadata) = seen {
        match metadata.details() {
            Some(details) => text = mode_text(details.mode),
            None => text[0] = type_letter(metadata.file_type()),
        }
    }
    text
}

fn push_numbers(details: Option<Details>, out: &mut Vec<u8, Global>) -> Result<(), AllocError>
    ensures { OnOk result (out.new.items ≡ out.old.items ++ number_columns details) }
{
    push_number(details.map(|it| it.links), 3, out)?;
    push_number(details.map(|it| u64::from(it.uid)), 5, out)?;
    push_number(details.map(|it| u64::from(it.gid)), 5, out)
}

fn push_modified(details: Option<Details>, out: &mut Vec<u8, Global>) -> Result<(), AllocError>
    ensures { OnOk result (out.new.items ≡ out.old.items ++ time_column details) }
{
    out.push(b' ')?;
    match details {
        Some(details) => push_time(details.modified.seconds, out),
        None => push_padded(b' ', 19, b"?", out),
    }
}

/// Appends the details of an entry to `out`, as `ls -ln` writes them: its type and rights, how many names it has, the
/// numbers of its owner and group, its length in bytes, and when its content was last written, in UTC. A space follows
/// each. What isn't known is a question mark.
///
/// The numbers are at the end of columns of 3, 5, 5 and 10 digits, so that lines align. A longer number takes more.
///
/// # Errors
///
/// If memory runs out.
#[tactic(auto, unfolding(crate::specs::Details::details_text))]
pub fn push_details(seen: Option<&Metadata>, out: &mut Vec<u8, Global>) -> Result<(), AllocError>
    ensures { OnOk result (out.new.items ≡ out.old.items ++ details_text (option_copied seen.entry)) }
{
    out.extend_from_slice(&mode_column(seen))?;
    push_numbers(details_of(seen), out)?;
    push_number(seen.map(|it| it.len()), 10, out)?;
    push_modified(details_of(seen), out)?;
    out.push(b' ')?;
    Ok(())
}
