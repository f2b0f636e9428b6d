//! The input of a call.
use std::io;
use std::io::{ErrorKind, Read};

/// The most bytes that are read at a time.
const PIECE: usize = 1000;

/// A text that is read in pieces, followed by its end or an error.
#[derive(Clone, Copy)]
pub(crate) struct Input<'t> {
    pub(crate) left: &'t [u8],
    /// The error that follows the text.
    pub(crate) error: Option<ErrorKind>,
}

impl<'t> Read for Input<'t> {
    fn read(&mut self, buf: &mut [u8]) -> io::Result<usize> {
        if self.left.is_empty()
            && let Some(kind) = self.error
        {
            return Err(io::Error::from(kind));
        }
        let len = buf.len().min(PIECE).min(self.left.len());
        let (piece, left) = self.left.split_at(len);
        buf[..len].copy_from_slice(piece);
        self.left = left;
        Ok(len)
    }
}
