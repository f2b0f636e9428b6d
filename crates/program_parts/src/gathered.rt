//! Output that is gathered before it is written.
ghost use Rattle.std.specs.Prelude.{◌≡◌, [], IfOk, OnOk};
ghost use Rattle.std.specs.Io.KnownBytes.{Appends};

use crate::halt::Halt;
use std::alloc::{AllocError, Allocator, Global};
use std::io::Write;

/// The number of bytes that are gathered before they are written. A buffer of twice the length takes the last line, too.
/// It stays below 64 KiB, at which a free makes the C library's allocator merge all its small pieces.
const GATHERED: usize = 16384;

/// Bytes of output that are gathered before they are written.
#[derive(Drop)]
pub struct Gathered<A: Allocator = Global> {
    /// The bytes that aren't written yet.
    pub bytes: Vec<u8, A>,
}

impl<A: Allocator> Gathered<A> {
    ghost use Rattle.program_parts.specs.Gathered.{are_due};

    /// Returns no bytes, with room for those that are gathered.
    ///
    /// # Errors
    ///
    /// If memory runs out.
    pub fn new(alloc: A) -> Result<Self, AllocError>
        ensures { IfOk result (λ gathered. gathered.bytes.items ≡ []) }
    {
        Ok(Gathered {
            bytes: Vec::with_capacity(alloc, 2 * GATHERED)?,
        })
    }

    /// Returns whether the bytes are to be written now: at once for a terminal, and else if there are enough.
    pub fn are_due(&self, to_terminal: bool) -> bool
        ensures { result ≡ are_due to_terminal self.now.bytes.items }
    {
        to_terminal || self.bytes.len() >= GATHERED
    }

    /// Writes the bytes.
    ///
    /// # Errors
    ///
    /// If the output can't be written.
    pub fn write<W: Write>(&mut self, out: &mut W) -> Result<(), Halt>
        ensures written { OnOk result (Appends (W.contents out.old) (W.contents out.new) self.old.bytes.items) }
        ensures empty { OnOk result (self.new.bytes.items ≡ []) }
    {
        if let Err(error) = out.write_all(self.bytes.as_slice()) {
            return Err(Halt::Output(error));
        }
        self.bytes.clear();
        Ok(())
    }

    /// Writes the bytes, and flushes the output.
    ///
    /// # Errors
    ///
    /// If the output can't be written.
    pub fn finish<W: Write>(&mut self, out: &mut W) -> Result<(), Halt>
        ensures { OnOk result (Appends (W.contents out.old) (W.contents out.new) self.old.bytes.items) }
    {
        self.write(out)?;
        match out.flush() {
            Ok(()) => Ok(()),
            Err(error) => Err(Halt::Output(error)),
        }
    }
}
