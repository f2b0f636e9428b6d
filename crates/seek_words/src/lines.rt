//! The printed lines.
ghost use Rattle.std.specs.Prelude.{◌≡◌, ◌++◌, true, false, [], IfOk, OnOk};
ghost use Rattle.std.specs.Option.{option_copied};
ghost use Rattle.std.specs.Io.KnownBytes.{Appends, append_known};
ghost use Rattle.jwalk_model.specs.FileSystem.{Functions};
ghost use Rattle.seek_words.specs.Layout.{form_in};

use crate::layout::Layout;
use crate::shown::Shown;
use jwalk_fs::file_system::FileSystem;
use program_parts::gathered::Gathered;
use program_parts::halt::Halt;
use std::alloc::{AllocError, Global};
use std::io::Write;
use std::time::{Clock, Duration};

/// How many milliseconds a line is gathered at most while answers come.
const LONGEST: u128 = 100;

/// Lines that are gathered, and written once there are enough, or once the oldest is 100 milliseconds old. For a terminal,
/// each line is written at once.
#[derive(Drop)]
pub struct Lines {
    layout: Layout,
    gathered: Gathered,
    has_printed: bool,
    oldest: Option<Duration>,
}

impl Lines {
    ghost use Rattle.seek_words.specs.Layout.{form_line};
    ghost use Rattle.seek_words.specs.Paint.{IfAsksLinks};
    ghost use Rattle.seek_words.specs.Lines.{form_of, gathered_of, has_printed};

    /// Returns no lines, of this layout.
    ///
    /// # Errors
    ///
    /// If memory runs out.
    pub fn new(alloc: Global, layout: Layout) -> Result<Self, AllocError>
        ensures form { IfOk result (λ lines. (fs : Functions) → form_of fs lines ≡ form_in fs layout) }
        ensures empty { IfOk result (λ lines. gathered_of lines ≡ []) }
        ensures none { IfOk result (λ lines. has_printed lines ≡ false) }
    {
        Ok(Lines {
            layout,
            gathered: Gathered::new(alloc)?,
            has_printed: false,
            oldest: None,
        })
    }

    /// Returns whether a line was printed.
    pub fn has_printed(&self) -> bool
        ensures { result ≡ has_printed self.now }
    {
        self.has_printed
    }

    /// Leaves nothing gathered.
    fn write_gathered<W: Write>(&mut self, out: &mut W) -> Result<(), Halt>
        ensures written { OnOk result (Appends (W.contents out.old) (W.contents out.new) (gathered_of self.old)) }
        ensures empty { OnOk result (gathered_of self.new ≡ []) }
        ensures form { (fs : Functions) → form_of fs self.new ≡ form_of fs self.old }
        ensures as_before { has_printed self.new ≡ has_printed self.old }
    {
        self.gathered.write(out)?;
        self.oldest = None;
        Ok(())
    }

    /// Prints the line of an entry. The line is gathered. The lines are written once there are enough, or at
    /// once for a terminal. The disk is asked where the entry leads only if it is a link and the color tells whether it
    /// leads nowhere, and links aren't followed.
    ///
    /// # Errors
    ///
    /// If memory runs out, or if the output can't be written.
    pub fn print<S: FileSystem, W: Write>(
        &mut self,
        disk: &S,
        entry: Shown<'_>,
        out: &mut W,
    ) -> Result<(), Halt>
        ensures printed { OnOk result (IfAsksLinks (S.IsFixed disk.now) (form_of (S.functions disk.now) self.old).painting
            → Appends (append_known (W.contents out.old) (gathered_of self.old))
            (append_known (W.contents out.new) (gathered_of self.new)) (form_line (form_of (S.functions disk.now) self.old) entry.entry.file_type
            (option_copied entry.entry.seen) entry.entry.folder.now entry.entry.name.now)) }
        ensures at_once { OnOk result ((form_of (S.functions disk.now) self.old).style.to_terminal ≡ true → gathered_of self.new ≡ []) }
        ensures has_printed { OnOk result (has_printed self.new ≡ true) }
        ensures form { (fs : Functions) → form_of fs self.new ≡ form_of fs self.old }
    {
        self.layout.write(disk, entry, &mut self.gathered.bytes)?;
        self.has_printed = true;
        if self.gathered.are_due(self.layout.style.to_terminal) {
            self.write_gathered(out)?;
        }
        Ok(())
    }

    /// Writes the lines that are gathered, if the first of these calls that met the oldest was 100 milliseconds ago. The
    /// clock is read only if lines are gathered; if it can't be read, they stay.
    ///
    /// # Errors
    ///
    /// If the output can't be written.
    pub fn write_old<T: Clock, W: Write>(&mut self, clock: &T, out: &mut W) -> Result<(), Halt>
        ensures kept { OnOk result (Appends (append_known (W.contents out.old) (gathered_of self.old))
            (append_known (W.contents out.new) (gathered_of self.new)) []) }
        ensures form { (fs : Functions) → form_of fs self.new ≡ form_of fs self.old }
        ensures as_before { has_printed self.new ≡ has_printed self.old }
    {
        if self.gathered.bytes.is_empty() {
            return Ok(());
        }
        let Ok(now) = clock.monotonic() else {
            return Ok(());
        };
        let Some(oldest) = self.oldest else {
            self.oldest = Some(now);
            return Ok(());
        };
        if now.saturating_sub(oldest).as_millis() < LONGEST {
            return Ok(());
        }
        self.write_gathered(out)
    }

    /// Writes the lines that are left, and flushes the output.
    ///
    /// # Errors
    ///
    /// If the output can't be written.
    pub fn finish<W: Write>(&mut self, out: &mut W) -> Result<(), Halt>
        ensures written { OnOk result (Appends (W.contents out.old) (W.contents out.new) (gathered_of self.old)) }
    {
        self.gathered.finish(out)
    }
}
