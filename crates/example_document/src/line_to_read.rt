//! How the lines of a document are read.
ghost use Rattle.std.specs.Prelude.{◌≡◌, IfOk, map};
ghost use Rattle.example_document.specs.Document.{to_read};

use crate::document::{Document, Line, Told};
use jwalk_board::board::{Plan, Refused};
use std::alloc::{AllocError, Allocator};

/// A line that is to be read, and how many levels of parts may be entered for it.
#[derive(Clone, Copy, Drop)]
pub struct LineToRead {
    pub line: Line,
    pub levels: usize,
}

impl LineToRead {
    fn of(line: &Line, levels: usize) -> Self
        ensures { result ≡ to_read levels line.now }
    {
        LineToRead {
            line: *line,
            levels,
        }
    }
}

fn lines_to_read<A: Allocator + Copy>(
    alloc: A,
    lines: &[Line],
    levels: usize,
) -> Result<Vec<LineToRead, A>, AllocError>
    ensures { IfOk result (λ v. v.items ≡ map (to_read levels) lines.now) }
{
    let mut to_read = Vec::with_capacity(alloc, lines.len())?;
    for line in lines {
        to_read.push_reserved(LineToRead::of(line, levels));
    }
    Ok(to_read)
}

impl<A: Allocator + Copy> Plan<A> for Document {
    ghost use Rattle.std.specs.Prelude.{◌≡◌};
    ghost use Rattle.example_document.specs.declared.line_to_read.LineToRead.{LineToRead as LineToReadValue};
    ghost use Rattle.example_document.specs.declared.document.Told.{Told as ToldValue};
    ghost use Rattle.example_document.specs.Document.{told_of, to_read_below, document_tree, document_falls};

    type Spec = LineToRead;

    type Reading = Told;

    ghost Given = { Unit {0} };

    ghost SpecValue = { LineToReadValue };

    ghost ReadingValue = { ToldValue };

    ghost spec_value = { λ _ line. line };

    ghost reading_value = { λ _ told. told };

    ghost IsLawful = { λ _. Unit {0} };

    ghost IsReading = { λ document line told below. (told ≡ told_of document line)
        × (map (λ s. s) below ≡ to_read_below document line) };

    ghost IsFixed = { λ _ _. Unit {0} };

    ghost tree = { λ document _. document_tree document };

    ghost as_given = { λ _ _ _ _ is _ _. is };

    ghost falls = { λ document _ _. document_falls document };

    // begin read
    fn read(&self, alloc: A, of: &LineToRead) -> Result<(Told, Vec<LineToRead, A>), Refused> {
        let part = match of.line {
            Line::Text(text) => return Ok((Told::Text(text), Vec::new(alloc))),
            Line::Part(part) => part,
        };
        match self.lines_of(part) {
            None => Ok((Told::Missing(part), Vec::new(alloc))),
            Some(lines) => match of.levels.checked_sub(1) {
                None => Ok((Told::TooDeep(part), Vec::new(alloc))),
                Some(levels) => Ok((Told::Begins(part), lines_to_read(alloc, lines, levels)?)),
            },
        }
    }
    // end read
}
