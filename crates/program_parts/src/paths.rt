//! The written form of paths.
ghost use Rattle.std.specs.Prelude.{◌≡◌, ◌++◌, ◌∷◌, [], string_bytes, IfOk, OnOk};
ghost use Rattle.std.specs.Io.KnownBytes.{Appends};
ghost use Rattle.jwalk_model.specs.Paths.{join};
ghost use Rattle.program_parts.specs.Paths.{without_here, line_of, text_line};

use crate::masked::masked;
use jwalk_fs::path_text::join_parts;
use std::alloc::{AllocError, Allocator};

/// The written form of the path of an entry.
#[derive(Clone, Copy, Debug, PartialEq, Eq)]
pub struct Style {
    /// The walk's root is the folder that the program runs in, and wasn't named. A `./` at the beginning isn't written.
    pub here: bool,
    /// The path is for a terminal. A question mark replaces each control character in it.
    pub to_terminal: bool,
    /// The byte after a path.
    pub separator: u8,
}

/// Returns the path of a folder without the `.` or the `./` that it begins with.
pub fn without_here(folder: &str) -> &str
    ensures { result.now ≡ without_here folder.now }
{
    if folder == "." {
        return "";
    }
    match folder.strip_prefix("./") {
        Some(rest) => rest,
        None => folder,
    }
}

fn push_path<A: Allocator>(folder: &str, name: &str, out: &mut Vec<u8, A>) -> Result<(), AllocError>
    ensures { OnOk result (out.new.items ≡ out.old.items ++ join folder.now name.now) }
{
    let (front, slash, name) = join_parts(folder, name);
    out.extend_from_slice(front.as_bytes())?;
    out.extend_from_slice(slash.as_bytes())?;
    out.extend_from_slice(name.as_bytes())?;
    Ok(())
}

impl Style {
    ghost use Rattle.program_parts.specs.Paths.{shown_folder, shown_text};

    /// Returns the written form of the path of a folder, before control characters are replaced.
    pub fn folder(self, folder: &str) -> &str
        ensures { result.now ≡ shown_folder self folder.now }
    {
        if self.here {
            without_here(folder)
        } else {
            folder
        }
    }

    /// Returns the written form of a text.
    ///
    /// # Errors
    ///
    /// If memory runs out.
    pub fn shown_text<A: Allocator>(self, alloc: A, text: &str) -> Result<String<A>, AllocError>
        ensures { IfOk result (λ shown. string_bytes shown ≡ shown_text self text.now) }
    {
        if self.to_terminal {
            masked(alloc, text)
        } else {
            String::from_str(alloc, text)
        }
    }

    /// Appends a path and the separator to `out`.
    ///
    /// # Errors
    ///
    /// If memory runs out.
    pub fn write_path<A: Allocator + Copy>(
        self,
        path: &str,
        out: &mut Vec<u8, A>,
    ) -> Result<(), AllocError>
        ensures { OnOk result (out.new.items ≡ out.old.items ++ text_line self path.now) }
    {
        if self.to_terminal {
            let alloc = *out.allocator();
            let path = masked(alloc, path)?;
            out.extend_from_slice(path.as_bytes())?;
        } else {
            out.extend_from_slice(path.as_bytes())?;
        }
        out.push(self.separator)?;
        Ok(())
    }

    /// Appends the path of a name in a folder and the separator to `out`.
    ///
    /// # Errors
    ///
    /// If memory runs out.
    pub fn write<A: Allocator + Copy>(
        self,
        folder: &str,
        name: &str,
        out: &mut Vec<u8, A>,
    ) -> Result<(), AllocError>
        ensures { OnOk result (out.new.items ≡ out.old.items ++ line_of self folder.now name.now) }
    {
        let folder = self.folder(folder);
        if self.to_terminal {
            let alloc = *out.allocator();
            let (folder, name) = (masked(alloc, folder)?, masked(alloc, name)?);
            push_path(folder.as_str(), name.as_str(), out)?;
        } else {
            push_path(folder, name, out)?;
        }
        out.push(self.separator)?;
        Ok(())
    }
}
