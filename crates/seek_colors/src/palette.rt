//! The colors of entries.
ghost use Rattle.std.specs.Prelude.{◌≡◌, ◌++◌, ◌∷◌, [], IfOk, OnOk};
ghost use Rattle.std.specs.Option.{option_copied};
ghost use Rattle.seek_colors.specs.Entries.{entries_among, entries_in};
ghost use Rattle.seek_colors.specs.Palette.{has_all, has_any, is_visible, kinds_in, suffix_in, suffixes_in, visible};

use crate::entries::{entry_in, parts_in};
use crate::kind::Kind;
use crate::painted::{push_end, push_start, separator, starts_with_slash};
use crate::table::Table;
use std::alloc::{AllocError, Allocator, Global};

/// The entries before those of `LS_COLORS`.
const DEFAULTS: &str =
    "di=01;34:ln=01;36:ex=01;32:pi=40;33:so=01;35:bd=40;33;01:cd=40;33;01:or=40;31;01";

/// Those of kinds that a mode tells.
const MODE_DEFAULTS: &str = "su=37;41:sg=30;43:tw=30;42:ow=34;42:st=37;44";

/// The colors by the kinds of entries and by the ends of names.
#[derive(Drop)]
pub struct Palette {
    /// The colors of kinds, by two letters.
    kinds: Table,
    /// The colors of regular files, by the ends of their names.
    suffixes: Table,
}

fn suffix_in(key: &str) -> Option<&str>
    ensures { option_copied result ≡ suffix_in key.now }
{
    key.strip_prefix("*")
}

fn is_visible(color: &str) -> bool
    ensures { result ≡ is_visible color.now }
{
    !color.is_empty() && color != "0" && color != "00"
}

fn has_all(mode: u32, bits: u32) -> bool
    ensures { result ≡ has_all mode bits }
{
    mode & bits == bits
}

fn has_any(mode: u32, bits: u32) -> bool
    ensures { result ≡ has_any mode bits }
{
    mode & bits != 0
}

fn visible(color: Option<&str>) -> Option<&str>
    ensures { option_copied result ≡ visible (option_copied color.entry) }
{
    let color = color?;
    if is_visible(color) { Some(color) } else { None }
}

impl Palette {
    ghost use Rattle.seek_colors.specs.Palette.{color_of, colored_folder, colored_path, colors_of, directory_color, file_color, marked, name_color, own_color, palette_in, tells_broken, GivesColorsAlone};

    fn add_entry(&mut self, alloc: Global, text: &str) -> Result<(), AllocError>
        ensures kinds { OnOk result ((colors_of self.new).kinds ≡ (colors_of self.old).kinds ++ kinds_in (entries_among (text.now ∷ []))) }
        ensures suffixes { OnOk result ((colors_of self.new).suffixes ≡ (colors_of self.old).suffixes ++ suffixes_in (entries_among (text.now ∷ []))) }
    {
        let Some((key, color)) = entry_in(text) else {
            return Ok(());
        };
        match suffix_in(key) {
            Some(suffix) => self.suffixes.push(alloc, suffix, color),
            None => self.kinds.push(alloc, key, color),
        }
    }

    fn add(&mut self, alloc: Global, text: &str) -> Result<(), AllocError>
        ensures kinds { OnOk result ((colors_of self.new).kinds ≡ (colors_of self.old).kinds ++ kinds_in (entries_in text.now)) }
        ensures suffixes { OnOk result ((colors_of self.new).suffixes ≡ (colors_of self.old).suffixes ++ suffixes_in (entries_in text.now)) }
    {
        for part in &parts_in(alloc, text)? {
            self.add_entry(alloc, part)?;
        }
        Ok(())
    }

    /// Reads the value of `LS_COLORS`: entries `KEY=COLOR` with a colon between each two. A key is two letters for a
    /// kind, or a `*` and the end of the names of regular files. The letters are `di`, `ln`, `or` for a link that leads
    /// nowhere, `ex`, `fi`, `pi`, `so`, `bd`, `cd`, and `no` for whatever has no entry. By the mode, `su` and `sg` are for
    /// files that run as their user or group, `st` for directories with the sticky bit, `ow` for those that others may
    /// write to, and `tw` for both.
    ///
    /// If a key has several entries, the last counts. If a name has the ends of several, the last of these counts, and
    /// the case of ASCII letters doesn't count. As with `ls`, a kind that the text doesn't name has a default color:
    /// `di=01;34:ln=01;36:ex=01;32:pi=40;33:so=01;35:bd=40;33;01:cd=40;33;01:or=40;31;01`, and
    /// `su=37;41:sg=30;43:tw=30;42:ow=34;42:st=37;44`.
    ///
    /// An entry is skipped if it has no `=`, or if what follows isn't of digits and `;` alone.
    ///
    /// # Errors
    ///
    /// If memory runs out.
    pub fn read(alloc: Global, text: &str) -> Result<Self, AllocError>
        ensures palette { IfOk result (λ palette. colors_of palette ≡ palette_in text.now) }
        ensures colors_alone { IfOk result (λ palette. GivesColorsAlone (colors_of palette)) }
    {
        let mut palette = Palette {
            kinds: Table::new(alloc),
            suffixes: Table::new(alloc),
        };
        palette.add(alloc, DEFAULTS)?;
        palette.add(alloc, MODE_DEFAULTS)?;
        palette.add(alloc, text)?;
        Ok(palette)
    }

    fn name_color(&self, name: &str) -> Option<&str>
        ensures { option_copied result ≡ name_color (colors_of self.now) name.now }
    {
        self.suffixes
            .suffix_color(name)
            .or_else(|| self.kinds.key_color("fi"))
    }

    /// Returns the color of a key that is for some bits of a mode, if the mode has them and the color is visible.
    fn marked(&self, has_bits: bool, key: &str) -> Option<&str>
        ensures { option_copied result ≡ marked (colors_of self.now) has_bits key.now }
    {
        if has_bits {
            visible(self.kinds.key_color(key))
        } else {
            None
        }
    }

    fn file_color(&self, mode: u32, name: &str) -> Option<&str>
        ensures { option_copied result ≡ file_color (colors_of self.now) mode name.now }
    {
        self.marked(has_all(mode, 0o4000), "su")
            .or_else(|| self.marked(has_all(mode, 0o2000), "sg"))
            .or_else(|| self.marked(has_any(mode, 0o111), "ex"))
            .or_else(|| self.name_color(name))
    }

    fn directory_color(&self, mode: u32) -> Option<&str>
        ensures { option_copied result ≡ directory_color (colors_of self.now) mode }
    {
        self.marked(has_all(mode, 0o1002), "tw")
            .or_else(|| self.marked(has_all(mode, 0o0002), "ow"))
            .or_else(|| self.marked(has_all(mode, 0o1000), "st"))
            .or_else(|| self.kinds.key_color("di"))
    }

    fn own_color(&self, kind: Kind, name: &str) -> Option<&str>
        ensures { option_copied result ≡ own_color (colors_of self.now) kind name.now }
    {
        match kind {
            Kind::Directory(mode) => self.directory_color(mode),
            Kind::Link => self.kinds.key_color("ln"),
            Kind::BrokenLink => {
                visible(self.kinds.key_color("or")).or_else(|| self.kinds.key_color("ln"))
            }
            Kind::File(mode) => self.file_color(mode, name),
            Kind::Pipe => self.kinds.key_color("pi"),
            Kind::Socket => self.kinds.key_color("so"),
            Kind::BlockDevice => self.kinds.key_color("bd"),
            Kind::CharDevice => self.kinds.key_color("cd"),
            Kind::Other => None,
        }
    }

    /// Returns the color of an entry: the numbers of a control sequence. Returns `None` if it has none, or if that is
    /// empty, `0` or `00`.
    ///
    /// A link that leads nowhere has the color of links if `or` gives none. A regular file has the color of the end
    /// of its name, or else that of `fi`. Of the keys for its mode the first that has a color comes before these: `su`,
    /// `sg`, and `ex` if it may be executed. Of a directory these are `tw`, `ow` and `st`, before `di`.
    pub fn color_of(&self, kind: Kind, name: &str) -> Option<&str>
        ensures { option_copied result ≡ color_of (colors_of self.now) kind name.now }
    {
        visible(
            self.own_color(kind, name)
                .or_else(|| self.kinds.key_color("no")),
        )
    }

    /// Returns whether the color of a link tells if it leads nowhere: it has another color then.
    pub fn tells_broken(&self) -> bool
        ensures { result ≡ tells_broken (colors_of self.now) }
    {
        self.color_of(Kind::BrokenLink, "") != self.color_of(Kind::Link, "")
    }

    fn write_folder<A: Allocator>(
        &self,
        folder: &str,
        out: &mut Vec<u8, A>,
    ) -> Result<(), AllocError>
        ensures { OnOk result (out.new.items ≡ out.old.items ++ colored_folder (colors_of self.now) folder.now) }
    {
        if folder.is_empty() {
            return Ok(());
        }
        let color = self.color_of(Kind::Directory(0), "");
        push_start(color, out)?;
        out.extend_from_slice(folder.as_bytes())?;
        out.extend_from_slice(separator(folder).as_bytes())?;
        push_end(color, out)
    }

    /// Appends the path of a name in a folder to `out`: the folder and a slash in the color of directories, and the
    /// name in the color of an entry of this kind. Between the control sequences are the bytes of the joined path.
    ///
    /// # Errors
    ///
    /// If memory runs out.
    pub fn write<A: Allocator>(
        &self,
        kind: Kind,
        folder: &str,
        name: &str,
        out: &mut Vec<u8, A>,
    ) -> Result<(), AllocError>
        ensures { OnOk result (out.new.items ≡ out.old.items ++ colored_path (colors_of self.now) kind folder.now name.now) }
    {
        if !starts_with_slash(name) {
            self.write_folder(folder, out)?;
        }
        let color = self.color_of(kind, name);
        push_start(color, out)?;
        out.extend_from_slice(name.as_bytes())?;
        push_end(color, out)
    }
}
