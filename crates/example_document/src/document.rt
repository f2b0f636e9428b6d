//! A document whose parts name other parts.
ghost use Rattle.std.specs.Prelude.{◌≡◌, IfOk, option_map};
ghost use Rattle.example_document.specs.Document.{lines_at, tells};

use crate::line_to_read::LineToRead;
use std::alloc::Allocator;
use std::fmt;
use std::sync::{Arc, Wait};
use std::thread::Threads;
use std::time::Clock;
use tree_crew::crew::{self, Crew};
use tree_crew::incomplete::Incomplete;
use tree_crew::whole::read_all;

/// One line of a part.
#[derive(Clone, Copy, Drop)]
pub enum Line {
    Text(&'static str),
    /// The lines of the part with this number belong here.
    Part(usize),
}

/// What is told of a line.
#[derive(Clone, Copy, Drop)]
pub enum Told {
    Text(&'static str),
    /// The lines of this part follow.
    Begins(usize),
    /// The document has no such part.
    Missing(usize),
    /// This part is named below too many others.
    TooDeep(usize),
}

impl fmt::Display for Told {
    fn fmt<W: fmt::Write>(&self, f: &mut fmt::Formatter<W>) -> fmt::Result {
        match self {
            Told::Text(text) => write!(f, "{text}"),
            Told::Begins(part) => write!(f, "[{part}]"),
            Told::Missing(part) => write!(f, "[{part} is missing]"),
            Told::TooDeep(part) => write!(f, "[{part} is named too deep]"),
        }
    }
}

/// The parts of a document, by their numbers.
#[derive(Clone, Copy, Drop)]
pub struct Document {
    pub parts: &'static [&'static [Line]],
}

impl Document {
    /// Returns the lines of a part, if there is such a part.
    pub fn lines_of(&self, part: usize) -> Option<&'static [Line]>
        ensures { option_map (λ lines. lines.now) result ≡ lines_at self.now part }
    {
        self.parts.get(part).copied()
    }
}

/// Returns what is told of a part: the part, and then its lines, where each part that they name is entered in its
/// place, up to `levels` deep. A crew reads the lines ahead. The result is what a single reader tells who enters each
/// part where it is named. It blocks until a place of the crew is free, and until all is read.
///
/// # Errors
///
/// `Memory` if memory runs out. `Busy` if no worker of the crew could be started.
pub fn put_together<
    R: Wait + Threads + Clock + Drop + Send + Sync + 'static,
    A: Allocator + Copy + Send + Sync + 'static,
>(
    alloc: A,
    crew: &Arc<Crew<R>, A>,
    document: Document,
    part: usize,
    levels: usize,
) -> Result<Vec<Told, A>, Incomplete>
    ensures { IfOk result (λ v. v.items ≡ tells document levels (Line.Part part)) }
{
    // begin together
    let root = LineToRead {
        line: Line::Part(part),
        levels,
    };
    let shared = Arc::new(alloc, document)?;
    read_all(
        crew::Place::take(crew, None)?,
        shared,
        vec![in alloc; root]?,
    )
    // end together
}
