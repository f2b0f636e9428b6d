//! What becomes of results: lines as they come, or trees for a table or a document.
ghost use Rattle.std.specs.Prelude.{◌≡◌, ◌+◌, ◌∷◌, [], None, IfOk, OnOk};
ghost use Rattle.std.specs.Io.KnownBytes.{Appends, append_known};
ghost use Rattle.jwalk.specs.jwalk_job.Entry.{entry};
ghost use Rattle.tally_text.specs.Line.{line_of};
ghost use Rattle.tally_run.specs.Results.{folder_shown, is_large, name_shown, numbers_of, root_bytes, row, row_with, sum_of, sum_rows, LeavesOut, Takes, TakesInto};

use crate::failure::Failure;
use jwalk::{ClientState, DirEntry};
use jwalk_subtotals::{Subtotal, WithSubtotal};
use program_parts::gathered::Gathered;
use program_parts::halt::Halt;
use program_parts::paths::Style;
use std::alloc::{AllocError, Allocator, Global};
use std::io::Write;
use tally_text::line::push_line;
use tally_text::nodes::Nodes;
use tally_text::numbers::Numbers;
use tally_text::scale::Scale;
use tally_words::threshold::Threshold;

/// Lines that are gathered, and written once there are enough. For a terminal each is written at once.
#[derive(Drop)]
pub(crate) struct Lines {
    scale: Scale,
    style: Style,
    gathered: Gathered,
}

/// What becomes of results that are written.
#[derive(Drop)]
pub(crate) enum Shape {
    Lines(Lines),
    Trees(Nodes),
}

/// What becomes of results, by their sizes, and the sum of all roots so far.
#[derive(Drop)]
pub(crate) struct Results {
    pub(crate) shape: Shape,
    pub(crate) threshold: Option<Threshold>,
    pub(crate) total: u128,
}

fn numbers_of(subtotal: &Subtotal) -> Numbers
    ensures { result ≡ numbers_of subtotal.now }
{
    Numbers {
        bytes: subtotal.bytes,
        file_bytes: subtotal.file_bytes,
        files: subtotal.files,
        dirs: subtotal.dirs,
        links: subtotal.links,
        others: subtotal.others,
        errors: subtotal.errors,
    }
}

/// Returns the subtotal of all roots, of which the size alone is known.
fn sum_of(bytes: u128) -> Subtotal
    ensures { result ≡ sum_of bytes }
{
    Subtotal {
        bytes,
        file_bytes: 0,
        files: 0,
        dirs: 0,
        links: 0,
        others: 0,
        errors: 0,
    }
}

fn folder_shown<C: ClientState, A: Allocator + Copy>(found: &DirEntry<C, A>) -> &str
    ensures { result.now ≡ folder_shown (entry found.now) }
{
    if found.depth() > 0 {
        found.parent_path()
    } else {
        ""
    }
}

fn is_large(threshold: Option<Threshold>, bytes: u128) -> bool
    ensures { result ≡ is_large threshold bytes }
{
    match threshold {
        Some(threshold) => threshold.has(bytes),
        None => true,
    }
}

/// That of a root is the whole root, as it was named.
fn name_shown<'a, C: ClientState, A: Allocator + Copy>(
    root: &'a str,
    found: &'a DirEntry<C, A>,
) -> &'a str
    ensures { result.now ≡ name_shown root.now (entry found.now) }
{
    if found.depth() > 0 {
        found.file_name()
    } else {
        root
    }
}

impl Lines {
    ghost use Rattle.tally_run.specs.Results.{gathered_of, scale_of, style_of};

    pub(crate) fn new(alloc: Global, scale: Scale, style: Style) -> Result<Self, AllocError>
        ensures empty { IfOk result (λ lines. gathered_of lines ≡ []) }
        ensures scale { IfOk result (λ lines. scale_of lines ≡ scale) }
        ensures style { IfOk result (λ lines. style_of lines ≡ style) }
    {
        Ok(Lines {
            scale,
            style,
            gathered: Gathered::new(alloc)?,
        })
    }

    fn print<W: Write>(
        &mut self,
        folder: &str,
        name: &str,
        bytes: u128,
        out: &mut W,
    ) -> Result<(), Failure>
        ensures printed { OnOk result (Appends (append_known (W.contents out.old) (gathered_of self.old))
            (append_known (W.contents out.new) (gathered_of self.new))
            (line_of (scale_of self.old) (style_of self.old) bytes folder.now name.now)) }
        ensures scale { scale_of self.new ≡ scale_of self.old }
        ensures style { style_of self.new ≡ style_of self.old }
    {
        let gathered = &mut self.gathered.bytes;
        push_line(self.scale, self.style, bytes, folder, name, gathered)?;
        if self.gathered.are_due(self.style.to_terminal) {
            self.gathered.write(out)?;
        }
        Ok(())
    }

    pub(crate) fn finish<W: Write>(&mut self, out: &mut W) -> Result<(), Halt>
        ensures { OnOk result (Appends (W.contents out.old) (W.contents out.new) (gathered_of self.old)) }
    {
        self.gathered.finish(out)
    }
}

impl Shape {
    fn take<W: Write>(
        &mut self,
        alloc: Global,
        depth: usize,
        folder: &str,
        name: &str,
        subtotal: &Subtotal,
        out: &mut W,
    ) -> Result<(), Failure>
        ensures { OnOk result (TakesInto None (row_with depth folder.now name.now subtotal.now ∷ [])
            self.old (W.contents out.old) self.new (W.contents out.new)) }
    {
        match self {
            Shape::Lines(lines) => lines.print(folder, name, subtotal.bytes, out),
            Shape::Trees(nodes) => {
                let name = String::from_str(alloc, name)?;
                nodes.push(depth, name, numbers_of(subtotal))?;
                Ok(())
            }
        }
    }

    /// Leaves out a result of this depth. In trees, what is in it is left out with it.
    fn leave_out(&mut self, depth: usize)
        ensures { LeavesOut depth self.old self.new }
    {
        match self {
            Shape::Lines(_) => {}
            Shape::Trees(nodes) => nodes.leave_out(depth),
        }
    }
}

impl Results {
    /// Adds a root's size to the sum of all roots, if it is one.
    fn add(&mut self, depth: usize, bytes: u128) -> Result<(), Failure>
        ensures sum { OnOk result (self.new.total ≡ self.old.total + root_bytes depth bytes) }
        ensures threshold { self.new.threshold ≡ self.old.threshold }
        ensures shape { self.new.shape ≡ self.old.shape }
    {
        if depth == 0 {
            let Some(total) = self.total.checked_add(bytes) else {
                return Err(Failure::TooMany);
            };
            self.total = total;
        }
        Ok(())
    }

    pub(crate) fn take<C: ClientState, A: Allocator + Copy, W: Write>(
        &mut self,
        alloc: Global,
        root: &str,
        one: &WithSubtotal<C, A>,
        out: &mut W,
    ) -> Result<(), Failure>
        ensures { OnOk result (Takes (row root.now (entry one.now.entry) one.now.subtotal ∷ [])
            self.old (W.contents out.old) self.new (W.contents out.new)) }
    {
        let (depth, bytes) = (one.entry.depth(), one.subtotal.bytes);
        self.add(depth, bytes)?;
        if !is_large(self.threshold, bytes) {
            self.shape.leave_out(depth);
            return Ok(());
        }
        let (folder, name) = (folder_shown(&one.entry), name_shown(root, &one.entry));
        self.shape
            .take(alloc, depth, folder, name, &one.subtotal, out)
    }

    /// Returns what is left to be written, with the sum of all roots behind it if that is asked for.
    pub(crate) fn with_total<W: Write>(
        self,
        alloc: Global,
        asked: bool,
        out: &mut W,
    ) -> Result<Shape, Failure>
        ensures { IfOk result (λ shape. TakesInto None (sum_rows asked self.total)
            self.shape (W.contents out.old) shape (W.contents out.new)) }
    {
        let Results { shape, total, .. } = self;
        let mut shape = shape;
        if asked {
            let subtotal = sum_of(total);
            shape.take(alloc, 0, "", "total", &subtotal, out)?;
        }
        Ok(shape)
    }
}
