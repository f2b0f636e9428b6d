//! The times that a call names, by the clock and the disk.
ghost use Rattle.std.specs.Prelude.{◌≡◌, codes, option_map, pos, Some, IfOk};
ghost use Rattle.std.specs.Duration.{as_nanos};
ghost use Rattle.program_parts.specs.Errors.{IsTold};
ghost use Rattle.seek_words.specs.Time.{nanoseconds_at};
ghost use Rattle.seek_found.specs.Times.{AreTimes, file_time};

use crate::report::tell_text;
use jwalk_fs::fault::Fault;
use jwalk_fs::file_system::FileSystem;
use program_parts::errors::Errors;
use seek_words::asked::Asked;
use seek_words::time::Time;
use seek_words::times::{Times, nanoseconds_of};
use std::alloc::{AllocError, Global};
use std::io;
use std::io::{ErrorKind, Write};
use std::time::{Clock, Duration};

/// The reason why the times that a call names aren't known.
#[derive(Drop)]
pub enum Untimed<'w> {
    /// The clock can't be read.
    Clock(io::Error),
    /// This file can't be asked.
    File(&'w str, io::Error),
    /// Memory ran out.
    Memory,
}

impl<'w> Untimed<'w> {
    fn of_file(file: &'w str, fault: Fault) -> Self {
        match fault {
            Fault::Io(error) => Untimed::File(file, error),
            Fault::Memory => Untimed::Memory,
        }
    }

    /// Tells the reason.
    pub fn tell<E: Write>(&self, alloc: Global, err: &mut Errors<E>)
        ensures told { IsTold E.contents (codes "seek") err.new }
    {
        let text = match self {
            Untimed::Clock(error) => format!(in alloc; "the clock can't be read: {error}"),
            Untimed::File(file, error) => format!(in alloc; "{file}: {error}"),
            Untimed::Memory => Err(AllocError),
        };
        tell_text(alloc, text, err);
    }
}

/// Asks for a link's target if links are followed, and else for the link.
fn file_time<S: FileSystem>(disk: &S, follow: bool, path: &str) -> Result<i128, Fault>
    ensures { S.IsFixed disk.now → IfOk result (λ time. Some time ≡ file_time (S.functions disk.now) follow path.now) }
{
    let metadata = if follow {
        disk.metadata(path)?
    } else {
        disk.symlink_metadata(path)?
    };
    match metadata.details() {
        Some(details) => Ok(nanoseconds_of(details.modified)),
        None => Err(Fault::Io(io::Error::from(ErrorKind::Unsupported))),
    }
}

/// Returns `None` if no file is named.
fn named_file_time<'w, S: FileSystem>(
    disk: &S,
    asked: &Asked<'w>,
) -> Result<Option<i128>, Untimed<'w>>
    ensures { S.IsFixed disk.now → IfOk result (λ time. option_map Some time
        ≡ option_map (λ file. file_time (S.functions disk.now) asked.now.follow file.now) asked.now.newer_than) }
{
    let Some(file) = asked.newer_than else {
        return Ok(None);
    };
    match file_time(disk, asked.follow, file) {
        Ok(time) => Ok(Some(time)),
        Err(fault) => Err(Untimed::of_file(file, fault)),
    }
}

fn time_at(now: Duration, time: Option<Time>) -> Option<i128>
    ensures { result ≡ option_map (nanoseconds_at (pos (as_nanos now))) time }
{
    match time {
        Some(time) => Some(time.at(now)),
        None => None,
    }
}

/// Returns zero, without reading the clock, if no time is named apart from that of a file.
fn now_of<'w, T: Clock>(clock: &T, asked: &Asked<'_>) -> Result<Duration, Untimed<'w>> {
    if asked.changed_within.is_none() && asked.changed_before.is_none() {
        return Ok(Duration::ZERO);
    }
    match clock.since_1970() {
        Ok(now) => Ok(now),
        Err(error) => Err(Untimed::Clock(error)),
    }
}

/// Returns the times that a call names. The clock is read at most once.
///
/// # Errors
///
/// If the clock can't be read, or the file that is named can't be asked, or if memory runs out.
pub fn times_of<'w, T: Clock, S: FileSystem>(
    clock: &T,
    disk: &S,
    asked: &Asked<'w>,
) -> Result<Times, Untimed<'w>>
    ensures { IfOk result (AreTimes (S.IsFixed disk.now) (S.functions disk.now) asked.now) }
{
    let now = now_of(clock, asked)?;
    let after_file = named_file_time(disk, asked)?;
    Ok(Times {
        after: time_at(now, asked.changed_within),
        after_file,
        before: time_at(now, asked.changed_before),
    })
}
