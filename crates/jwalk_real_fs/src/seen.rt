//! What the standard library returns, as a walk sees it.
ghost use Rattle.std.specs.Prelude.{◌≡◌, ◌≢◌, IfErr, IfOk};
ghost use Rattle.std.specs.IoError.{error_kind};
ghost use Rattle.jwalk_real_fs.specs.Seen.{type_seen, IsFault, IsFound, IsListed, IsSeen};

use jwalk_fs::fault::Fault;
use jwalk_model::file_type::FileType;
use jwalk_model::metadata::{Details, Identity, Metadata, Moment};
use jwalk_model::seen::Seen;
use std::alloc::AllocError;
use std::io::ErrorKind;
use std::os::unix::fs::MetadataExt;
use std::time::UNIX_EPOCH;
use std::{fs, io};

/// Returns an error of the system as a fault.
pub fn fault(error: io::Error) -> Fault
    ensures { IsFault error result }
{
    if error.kind() == ErrorKind::OutOfMemory {
        Fault::Memory
    } else {
        Fault::Io(error)
    }
}

fn file_type(found: &fs::Metadata) -> FileType
    ensures { result ≡ type_seen found.now }
{
    let found = found.file_type();
    if found.is_dir() {
        FileType::Dir
    } else if found.is_file() {
        FileType::File
    } else if found.is_symlink() {
        FileType::Symlink
    } else {
        FileType::Other
    }
}

/// A nanosecond count that is none is 0.
fn moment(seconds: i64, nanoseconds: i64) -> Moment {
    Moment {
        seconds,
        nanoseconds: u32::try_from(nanoseconds).unwrap_or(0),
    }
}

/// A time before 1970 counts as unknown, since the standard library has none.
fn created(found: &fs::Metadata) -> Option<Moment> {
    let since_1970 = found.created().ok()?.duration_since(UNIX_EPOCH).ok()?;
    Some(Moment {
        seconds: i64::try_from(since_1970.as_secs()).ok()?,
        nanoseconds: since_1970.subsec_nanos(),
    })
}

/// Returns what was found beside type and length. Nothing is known where device and inode are both 0: no file of the
/// host has these, and a runtime that isn't the host's leaves them so.
fn details(found: &fs::Metadata) -> Option<Details> {
    let identity = Identity {
        device: found.dev(),
        inode: found.ino(),
    };
    if !identity.is_known() {
        return None;
    }
    Some(Details {
        identity,
        links: found.nlink(),
        blocks: found.blocks(),
        modified: moment(found.mtime(), found.mtime_nsec()),
        accessed: moment(found.atime(), found.atime_nsec()),
        changed: moment(found.ctime(), found.ctime_nsec()),
        created: created(found),
        mode: found.mode(),
        uid: found.uid(),
        gid: found.gid(),
    })
}

/// Returns all that was found, as a walk keeps it.
pub fn whole(found: &fs::Metadata) -> Metadata
    ensures { IsFound found.now result }
{
    let plain = Metadata::new(file_type(found), found.len());
    match details(found) {
        Some(details) => plain.with_details(details),
        None => plain,
    }
}

/// Returns what was found, or the error as a fault.
pub fn metadata(found: io::Result<fs::Metadata>) -> Result<Metadata, Fault>
    ensures { IsSeen found result }
{
    match found {
        Ok(found) => Ok(whole(&found)),
        Err(error) => Err(fault(error)),
    }
}

/// Returns what was found, or the error in its place, as a listing has it. Fails only if memory ran out.
pub fn listed(found: io::Result<fs::Metadata>) -> Result<io::Result<Seen>, AllocError>
    ensures same { IfOk result (λ seen. IsListed found seen) }
    ensures lasts { IfOk result (λ seen. IfErr seen (λ e. error_kind e ≢ ErrorKind.OutOfMemory)) }
{
    match found {
        Ok(found) => Ok(Ok(Seen::Whole(whole(&found)))),
        Err(error) => match fault(error) {
            Fault::Io(error) => Ok(Err(error)),
            Fault::Memory => Err(AllocError),
        },
    }
}
