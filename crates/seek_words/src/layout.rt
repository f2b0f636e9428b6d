//! The layout of printed lines.
ghost use Rattle.std.specs.Prelude.{◌≡◌, ◌≤◌, ◌++◌, drop, length, string_bytes, take, IfOk, OnOk};
ghost use Rattle.std.specs.Option.{option_copied, option_map};
ghost use Rattle.jwalk_model.specs.FileSystem.{Functions};
ghost use Rattle.seek_words.specs.Layout.{folder_text, plain_line, slashed};
ghost use Rattle.seek_words.specs.Subject.{front_of};

use crate::paint::Paint;
use crate::shown::Shown;
use crate::subject::AbsolutePath;
use jwalk_fs::file_system::FileSystem;
use program_parts::paths::Style;
use seek_details::details::push_details;
use std::alloc::{AllocError, Global};

/// The layout of printed lines.
#[derive(Drop)]
pub struct Layout {
    /// The written form of paths.
    pub style: Style,
    /// The absolute path of an entry, if that is printed.
    pub absolute: Option<AbsolutePath>,
    /// Details of an entry are in front of its path.
    pub details: bool,
    /// The colors of paths, if they have some.
    pub paint: Option<Paint>,
    /// The text in place of each slash, if one is named.
    pub slash: Option<String>,
}

fn push_plain(
    style: Style,
    absolute: &mut Option<AbsolutePath>,
    entry: Shown<'_>,
    out: &mut Vec<u8, Global>,
) -> Result<(), AllocError>
    ensures line { OnOk result (out.new.items ≡ out.old.items
        ++ plain_line style (option_map front_of absolute.old) entry.entry.folder.now entry.entry.name.now) }
    ensures front { option_map front_of absolute.new ≡ option_map front_of absolute.old }
{
    match absolute {
        None => style.write(entry.folder, entry.name, out),
        Some(path) => {
            path.set(entry.folder, entry.name)?;
            style.write_path(path.as_str(), out)
        }
    }
}

fn shown_folder(
    alloc: Global,
    style: Style,
    absolute: &mut Option<AbsolutePath>,
    folder: &str,
) -> Result<String, AllocError>
    ensures folder { IfOk result (λ shown. string_bytes shown ≡ folder_text style (option_map front_of absolute.old) folder.now) }
    ensures front { option_map front_of absolute.new ≡ option_map front_of absolute.old }
{
    match absolute {
        None => style.shown_text(alloc, style.folder(folder)),
        Some(path) => {
            path.set(folder, "")?;
            style.shown_text(alloc, path.as_str())
        }
    }
}

fn push_slashed(slash: &str, line: &[u8], out: &mut Vec<u8, Global>) -> Result<(), AllocError>
    ensures { OnOk result (out.new.items ≡ out.old.items ++ slashed slash.now line.now) }
{
    for byte in line {
        if *byte == b'/' {
            out.extend_from_slice(slash.as_bytes())?;
        } else {
            out.push(*byte)?;
        }
    }
    Ok(())
}

/// The slashes up to `start` stay.
fn replace_slashes(slash: &str, start: usize, out: &mut Vec<u8, Global>) -> Result<(), AllocError>
    requires { start ≤ length out.old.items }
    ensures { OnOk result (out.new.items ≡ take start out.old.items ++ slashed slash.now (drop start out.old.items)) }
{
    let line = out.split_off(start)?;
    push_slashed(slash, line.as_slice(), out)
}

impl Layout {
    ghost use Rattle.seek_words.specs.Layout.{form_in, form_line, line_in, slashed_line};
    ghost use Rattle.seek_words.specs.Paint.{IfAsksLinks};

    fn write_line<S: FileSystem>(
        &mut self,
        disk: &S,
        entry: Shown<'_>,
        out: &mut Vec<u8, Global>,
    ) -> Result<(), AllocError>
        ensures line { OnOk result (IfAsksLinks (S.IsFixed disk.now) (form_in (S.functions disk.now) self.old).painting
            → out.new.items ≡ out.old.items ++ line_in (form_in (S.functions disk.now) self.old) entry.entry.file_type
            (option_copied entry.entry.seen) entry.entry.folder.now entry.entry.name.now) }
        ensures longer { OnOk result (length out.old.items ≤ length out.new.items) }
        ensures form { (fs : Functions) → form_in fs self.new ≡ form_in fs self.old }
    {
        let Some(paint) = &self.paint else {
            return push_plain(self.style, &mut self.absolute, entry, out);
        };
        let alloc = *out.allocator();
        let folder = shown_folder(alloc, self.style, &mut self.absolute, entry.folder)?;
        let name = self.style.shown_text(alloc, entry.name)?;
        paint.write(disk, entry, folder.as_str(), name.as_str(), out)?;
        out.push(self.style.separator)?;
        Ok(())
    }

    fn write_slashed<S: FileSystem>(
        &mut self,
        disk: &S,
        entry: Shown<'_>,
        out: &mut Vec<u8, Global>,
    ) -> Result<(), AllocError>
        ensures line { OnOk result (IfAsksLinks (S.IsFixed disk.now) (form_in (S.functions disk.now) self.old).painting
            → out.new.items ≡ out.old.items ++ slashed_line (form_in (S.functions disk.now) self.old) entry.entry.file_type
            (option_copied entry.entry.seen) entry.entry.folder.now entry.entry.name.now) }
        ensures form { (fs : Functions) → form_in fs self.new ≡ form_in fs self.old }
    {
        let start = out.len();
        self.write_line(disk, entry, out)?;
        match &self.slash {
            Some(slash) => replace_slashes(slash.as_str(), start, out),
            None => Ok(()),
        }
    }

    /// Appends the line of an entry to `out`. The disk is asked where the entry leads only if it is a link and the color
    /// tells whether it leads nowhere, and links aren't followed.
    ///
    /// # Errors
    ///
    /// If memory runs out.
    pub fn write<S: FileSystem>(
        &mut self,
        disk: &S,
        entry: Shown<'_>,
        out: &mut Vec<u8, Global>,
    ) -> Result<(), AllocError>
        ensures line { OnOk result (IfAsksLinks (S.IsFixed disk.now) (form_in (S.functions disk.now) self.old).painting
            → out.new.items ≡ out.old.items ++ form_line (form_in (S.functions disk.now) self.old) entry.entry.file_type
            (option_copied entry.entry.seen) entry.entry.folder.now entry.entry.name.now) }
        ensures form { (fs : Functions) → form_in fs self.new ≡ form_in fs self.old }
    {
        if self.details {
            push_details(entry.seen, out)?;
        }
        self.write_slashed(disk, entry, out)
    }
}
