//! The listing of one directory.
ghost use Rattle.std.specs.Prelude.{◌≡◌, ◌≤◌, ◌+◌, List, [], ◌∷◌, length, Err, IfOk, IfErr, OnOk};
ghost use Rattle.std.specs.IoError.{error_kind};
ghost use Rattle.jwalk_model.specs.FileSystem as value;
ghost use Rattle.jwalk_fs.specs.Views.{IfIo, TakesAll};
ghost use Rattle.jwalk_real_fs.specs.Listing.{is_interrupted, AreReadOf, IsAsked, IsListing, IsUnopened, TakesEach};
ghost use Rattle.jwalk_real_fs.specs.Texts.{children};

use crate::disk_calls::DiskCalls;
use crate::seen::{fault, listed};
use crate::texts::{is_child, slash_ended, split_name};
use jwalk_fs::fault::Fault;
use jwalk_fs::sink::Sink;
use std::alloc::{AllocError, Allocator};
use std::io::{ErrorKind, Read};
use std::{io, str};

/// How often one directory is opened at most, if each time before was interrupted.
const MOST_OPENS: usize = 100;

/// How many bytes of names are asked for at once: room for many names, of which none has more than 255 bytes.
const BUFFER: usize = 4096;

/// A listing under way: room for the path of an entry.
#[derive(Drop)]
struct Listing<A: Allocator + Copy> {
    path: String<A>,
}

fn is_interrupted(error: &io::Error) -> bool
    ensures { result ≡ is_interrupted (error_kind error.now) }
{
    matches!(error.kind(), ErrorKind::Interrupted)
}

/// Gives an error that ended the reading. Fails if the error is that memory ran out.
fn end<K: Sink>(sink: &mut K, error: io::Error) -> Result<(), AllocError>
    ensures { OnOk result (TakesAll K.Took (Err (error_kind error) ∷ []) sink.old sink.new) }
{
    match fault(error) {
        Fault::Io(error) => sink.take_error(error),
        Fault::Memory => Err(AllocError),
    }
}

impl<A: Allocator + Copy> Listing<A> {
    ghost use Rattle.std.specs.Io.{ReadsAtMost};
    ghost use Rattle.jwalk_real_fs.specs.Listing.{Adds, IsRead};

    fn new(alloc: A) -> Self {
        Listing {
            path: String::new(alloc),
        }
    }

    /// Gives the item of a name in a directory: an error with the name's bytes if it isn't UTF-8.
    fn add<R: DiskCalls, K: Sink>(
        &mut self,
        rt: &R,
        sink: &mut K,
        dir: &str,
        name: &[u8],
    ) -> Result<(), AllocError>
        ensures { OnOk result (Adds (IsAsked R.DiskCalls rt.now dir.now) K.Took (name.now ∷ [])
            sink.old sink.new) }
    {
        let Ok(name) = str::from_utf8(name) else {
            return sink.take_bad_name(name);
        };
        self.path.clear();
        self.path.push_str(dir)?;
        self.path.push_str(name)?;
        let seen = listed(rt.symlink_metadata(self.path.as_str()))?;
        sink.take_seen(name, seen)
    }

    /// Gives the items of names that were read together, each ended by a NUL.
    fn add_all<R: DiskCalls, K: Sink>(
        &mut self,
        rt: &R,
        sink: &mut K,
        dir: &str,
        names: &[u8],
    ) -> Result<(), AllocError>
        ensures { OnOk result (Adds (IsAsked R.DiskCalls rt.now dir.now) K.Took (children names.now)
            sink.old sink.new) }
    {
        let mut left = names;
        while !left.is_empty() {
            let (name, others) = split_name(left);
            if is_child(name) {
                self.add(rt, sink, dir, name)?;
            }
            left = others;
        }
        Ok(())
    }

    /// Gives what one read of a directory's names gave, and returns whether there may be more. An error ends the reading
    /// and is its last item. A read that was interrupted gave nothing and doesn't end it.
    fn add_read<R: DiskCalls, K: Sink>(
        &mut self,
        rt: &R,
        sink: &mut K,
        dir: &str,
        names: &[u8],
        read: io::Result<usize>,
    ) -> Result<bool, AllocError>
        requires { ReadsAtMost read names.now }
        ensures { IfOk result (λ more. (items : List value.Listed) × IsRead read names.now more items
            × TakesEach (IsAsked R.DiskCalls rt.now dir.now) K.Took items sink.old sink.new) }
    {
        match read {
            Ok(count) => {
                self.add_all(rt, sink, dir, &names[..count])?;
                Ok(count > 0)
            }
            Err(error) if is_interrupted(&error) => Ok(true),
            Err(error) => {
                end(sink, error)?;
                Ok(false)
            }
        }
    }

    /// Gives the items of all names of an open directory. No read ends inside a name: the standard library says so of
    /// what `open_dir` opens. So names need not be put together.
    fn add_rest<R: DiskCalls, K: Sink>(
        &mut self,
        rt: &R,
        sink: &mut K,
        dir: &str,
        names: &mut R::Dir,
    ) -> Result<(), AllocError>
        ensures { OnOk result ((items : List value.Listed)
            × AreReadOf (R.Dir.remaining names.old) items
            × TakesEach (IsAsked R.DiskCalls rt.now dir.now) K.Took items sink.old sink.new) }
    {
        let mut buffer = [0; BUFFER];
        for _ in 0..u64::MAX {
            let read = names.read(&mut buffer);
            if !self.add_read(rt, sink, dir, &buffer, read)? {
                return Ok(());
            }
        }
        end(sink, io::Error::from(ErrorKind::Other))
    }
}

/// An open that was interrupted is made again.
fn open<R: DiskCalls>(rt: &R, dir: &str) -> io::Result<R::Dir>
    ensures { R.open_dir_gives rt.now dir.now result }
{
    for _ in 1..MOST_OPENS {
        match rt.open_dir(dir) {
            Err(error) if is_interrupted(&error) => {}
            opened => return opened,
        }
    }
    rt.open_dir(dir)
}

/// Gives the items of a directory to `sink`, in the order in which it reads.
pub fn read_dir_into<R: DiskCalls, A: Allocator + Copy, K: Sink>(
    rt: &R,
    alloc: A,
    path: &str,
    sink: &mut K,
) -> Result<(), Fault>
    ensures taken { OnOk result ((items : List value.Listed) × TakesAll K.Took items sink.old sink.new
        × IsListing R.DiskCalls rt.now R.Dir.remaining path.now items) }
    ensures unopened { IfErr result (λ fault. IfIo fault (IsUnopened R.DiskCalls rt.now path.now fault)) }
    ensures unchanged { IfErr result (λ fault. IfIo fault (sink.new ≡ sink.old)) }
{
    let dir = slash_ended(alloc, path)?;
    let mut names = open(rt, dir.as_str()).map_err(fault)?;
    let mut listing = Listing::new(alloc);
    listing.add_rest(rt, sink, dir.as_str(), &mut names)?;
    Ok(())
}
