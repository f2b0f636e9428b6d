//! Paths in colors.
ghost use Rattle.std.specs.Prelude.{◌≡◌, ◌≤◌, ◌++◌, length, IfOk, OnOk, Some};
ghost use Rattle.std.specs.Option.{option_copied};
ghost use Rattle.jwalk_model.specs.Paths.{join};
ghost use Rattle.seek_words.specs.Paint.{broken_in, mode_seen, special_kind, mode_kind};

use crate::kinds::has_format;
use crate::seen::details_seen;
use crate::shown::Shown;
use jwalk_fs::fault::Fault;
use jwalk_fs::file_system::FileSystem;
use jwalk_fs::path_text::join;
use jwalk_model::file_type::FileType;
use jwalk_model::metadata::Metadata;
use seek_colors::kind::Kind;
use seek_colors::palette::Palette;
use std::alloc::{AllocError, Global};

/// The colors of printed paths.
#[derive(Drop)]
pub struct Paint {
    /// The colors of kinds and names.
    pub palette: Palette,
    /// Links are followed, so a link that is printed leads nowhere. Else the disk is asked where it leads.
    pub follow: bool,
}

fn mode_seen(seen: Option<&Metadata>) -> u32
    ensures { result ≡ mode_seen (option_copied seen.entry) }
{
    match details_seen(seen) {
        Some(details) => details.mode,
        None => 0,
    }
}

fn mode_kind(mode: u32) -> Kind
    ensures { result ≡ mode_kind mode }
{
    if has_format(mode, 0o010000) {
        Kind::Pipe
    } else if has_format(mode, 0o140000) {
        Kind::Socket
    } else if has_format(mode, 0o060000) {
        Kind::BlockDevice
    } else if has_format(mode, 0o020000) {
        Kind::CharDevice
    } else {
        Kind::Other
    }
}

fn special_kind(seen: Option<&Metadata>) -> Kind
    ensures { result ≡ special_kind (option_copied seen.entry) }
{
    match details_seen(seen) {
        Some(details) => mode_kind(details.mode),
        None => Kind::Other,
    }
}

/// Returns whether what a link leads to can't be asked.
fn leads_nowhere<S: FileSystem>(disk: &S, path: &str) -> Result<bool, AllocError>
    ensures { IfOk result (λ yes. S.IsFixed disk.now → yes ≡ broken_in (S.functions disk.now) path.now) }
{
    match disk.metadata(path) {
        Ok(_) => Ok(false),
        Err(Fault::Io(_)) => Ok(true),
        Err(Fault::Memory) => Err(AllocError),
    }
}

impl Paint {
    ghost use Rattle.seek_words.specs.Paint.{is_broken, kind_of, painted, painting_of, IfAsksLinks};

    fn is_broken<S: FileSystem>(
        &self,
        alloc: Global,
        disk: &S,
        link: Shown<'_>,
    ) -> Result<bool, AllocError>
        ensures { IfOk result (λ yes. IfAsksLinks (S.IsFixed disk.now) (Some (painting_of (S.functions disk.now) self.now))
            → yes ≡ is_broken (painting_of (S.functions disk.now) self.now) (join link.entry.folder.now link.entry.name.now)) }
    {
        if self.follow || !self.palette.tells_broken() {
            return Ok(self.follow);
        }
        let path = join(alloc, link.folder, link.name)?;
        leads_nowhere(disk, path.as_str())
    }

    fn kind_of<S: FileSystem>(
        &self,
        alloc: Global,
        disk: &S,
        entry: Shown<'_>,
    ) -> Result<Kind, AllocError>
        ensures { IfOk result (λ kind. IfAsksLinks (S.IsFixed disk.now) (Some (painting_of (S.functions disk.now) self.now))
            → kind ≡ kind_of (painting_of (S.functions disk.now) self.now) entry.entry.file_type
            (option_copied entry.entry.seen) (join entry.entry.folder.now entry.entry.name.now)) }
    {
        match entry.file_type {
            FileType::Dir => Ok(Kind::Directory(mode_seen(entry.seen))),
            FileType::File => Ok(Kind::File(mode_seen(entry.seen))),
            FileType::Symlink => {
                if self.is_broken(alloc, disk, entry)? {
                    Ok(Kind::BrokenLink)
                } else {
                    Ok(Kind::Link)
                }
            }
            FileType::Other => Ok(special_kind(entry.seen)),
        }
    }

    /// Appends the path of a name in a folder, as these two are shown, in the colors of the folder and of the entry. The
    /// disk is asked where the entry leads only if it is a link, links aren't followed, and the color tells whether it
    /// leads nowhere.
    ///
    /// # Errors
    ///
    /// If memory runs out.
    pub fn write<S: FileSystem>(
        &self,
        disk: &S,
        entry: Shown<'_>,
        folder: &str,
        name: &str,
        out: &mut Vec<u8, Global>,
    ) -> Result<(), AllocError>
        ensures path { OnOk result (IfAsksLinks (S.IsFixed disk.now) (Some (painting_of (S.functions disk.now) self.now))
            → out.new.items ≡ out.old.items ++ painted (painting_of (S.functions disk.now) self.now) entry.entry.file_type
            (option_copied entry.entry.seen) (join entry.entry.folder.now entry.entry.name.now) folder.now name.now) }
        ensures longer { OnOk result (length out.old.items ≤ length out.new.items) }
    {
        let kind = self.kind_of(*out.allocator(), disk, entry)?;
        self.palette.write(kind, folder, name, out)
    }
}
