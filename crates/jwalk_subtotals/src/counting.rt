//! What one answer counts by itself.
ghost use Rattle.std.specs.Prelude.{◌≡◌, Some};
ghost use Rattle.jwalk.specs.jwalk_job.Entry.{entry};
ghost use Rattle.jwalk_usage.specs.Kept.{length_kept};
ghost use Rattle.jwalk_subtotals.specs.Counted.{size_in, size_kept, shared_in, file_counted, counted_once, counted_by_type, one_error, own_sized};

use crate::options::SubtotalOptions;
use crate::subtotal::Subtotal;
use jwalk::file_system::{Details, FileType, Identity, Metadata};
use jwalk::read_dir::Ancestors;
use jwalk::{ClientState, DirEntry};
use std::alloc::Allocator;

/// What the metadata that an entry keeps say of its size.
#[derive(Drop)]
pub(crate) struct Size {
    /// The length if lengths are asked for, else the bytes of its blocks, or the length where blocks aren't known.
    bytes: u128,
    length: u128,
    /// Which file it is, if it is no directory and its size is counted once only.
    pub(crate) file: Option<Identity>,
}

/// Returns the bytes that count of this length and these details.
fn size_in(apparent: bool, length: u128, details: &Option<Details>) -> u128
    ensures { result ≡ size_in apparent length details.now }
{
    match details {
        Some(details) if !apparent => 512 * details.blocks as u128,
        _ => length,
    }
}

/// Returns which file it is, if another name may lead to it: `follows` says that links are followed.
fn shared_in(follows: bool, details: &Option<Details>) -> Option<Identity>
    ensures { result ≡ shared_in follows details.now }
{
    let details = details.as_ref()?;
    if details.identity.is_known() && (follows || details.links > 1) {
        Some(details.identity)
    } else {
        None
    }
}

/// Returns which file an entry with these details is, if it is no directory and its size is counted once only.
fn file_counted<C: ClientState, A: Allocator + Copy>(
    options: &SubtotalOptions,
    details: &Option<Details>,
    found: &DirEntry<C, A>,
) -> Option<Identity>
    ensures { result ≡ file_counted options.now details.now (entry found.now) }
{
    if options.each_name || found.file_type().is_dir() {
        return None;
    }
    let follows = !found.ancestors().is_same(&Ancestors::none());
    shared_in(follows, details)
}

/// Returns the size of an entry. The details are taken out of its metadata once, which is what costs most here.
pub(crate) fn size_of<C: ClientState, A: Allocator + Copy>(
    options: &SubtotalOptions,
    found: &DirEntry<C, A>,
) -> Size
    ensures bytes { result.bytes ≡ size_kept options.now.apparent (entry found.now).seen }
    ensures length { result.length ≡ length_kept (entry found.now).seen }
    ensures file { result.file ≡ counted_once options.now (entry found.now) }
{
    let Some(metadata) = found.metadata_seen() else {
        return Size {
            bytes: 0,
            length: 0,
            file: file_counted(options, &None, found),
        };
    };
    let details = metadata.details();
    let length = metadata.len() as u128;
    Size {
        bytes: size_in(options.apparent, length, &details),
        length,
        file: file_counted(options, &details, found),
    }
}

/// Returns what an entry of this size counts by itself. `again` says that its size was counted before.
pub(crate) fn own<C: ClientState, A: Allocator + Copy>(
    size: &Size,
    again: bool,
    found: &DirEntry<C, A>,
) -> Subtotal
    ensures { result ≡ own_sized size.now.bytes size.now.length again (entry found.now) }
{
    let file_type = found.file_type();
    Subtotal {
        bytes: if again { 0 } else { size.bytes },
        file_bytes: if again || !file_type.is_file() {
            0
        } else {
            size.length
        },
        errors: found.read_children_error().is_some() as u128,
        ..of_type(file_type)
    }
}

fn of_type(file_type: FileType) -> Subtotal
    ensures { result ≡ counted_by_type file_type }
{
    let nothing = Subtotal::nothing();
    match file_type {
        FileType::File => Subtotal {
            files: 1,
            ..nothing
        },
        FileType::Dir => Subtotal { dirs: 1, ..nothing },
        FileType::Symlink => Subtotal {
            links: 1,
            ..nothing
        },
        FileType::Other => Subtotal {
            others: 1,
            ..nothing
        },
    }
}

pub(crate) fn one_error() -> Subtotal
    ensures { result ≡ one_error }
{
    Subtotal {
        errors: 1,
        ..Subtotal::nothing()
    }
}
