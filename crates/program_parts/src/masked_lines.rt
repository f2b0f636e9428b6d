//! Errors for a terminal.
use std::io::Write;
use std::{io, str};

/// A writer for lines of errors. If it masks, it writes a question mark in place of each control character but line feeds,
/// so that a path in an error can't make a terminal do anything.
#[derive(Drop)]
pub struct MaskedLines<E> {
    /// What the lines are written to.
    pub err: E,
    /// Control characters are masked.
    pub masks: bool,
}

fn is_masked(c: char) -> bool {
    c.is_control() && c != '\n'
}

impl<E: Write> MaskedLines<E> {
    /// Bytes that are no text are a single question mark: errors are written text by text.
    fn write_masked(&mut self, buf: &[u8]) -> io::Result<()> {
        let Ok(text) = str::from_utf8(buf) else {
            return self.err.write_all(b"?");
        };
        let mut is_first = true;
        for shown in text.split(is_masked) {
            if !is_first {
                self.err.write_all(b"?")?;
            }
            self.err.write_all(shown.as_bytes())?;
            is_first = false;
        }
        Ok(())
    }
}

impl<E: Write> Write for MaskedLines<E> {
    fn write(&mut self, buf: &[u8]) -> io::Result<usize> {
        if !self.masks {
            return self.err.write(buf);
        }
        self.write_masked(buf)?;
        Ok(buf.len())
    }

    fn flush(&mut self) -> io::Result<()> {
        self.err.flush()
    }
}
