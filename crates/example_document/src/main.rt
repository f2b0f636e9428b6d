//! Prints a document that is put together from its parts, while a crew reads them. A line that names a part is followed
//! by that part's lines, and a part may name others.
#![tactic(auto)]

mod document;
mod line_to_read;

use document::{Document, Line, put_together};
use std::sync::Arc;
use tree_crew::crew::Crew;

/// The parts of the document, by their numbers.
const PARTS: &[&[Line]] = &[
    &[
        Line::Text("Walks"),
        Line::Part(1),
        Line::Part(2),
        Line::Part(4),
        Line::Text("The end."),
    ],
    &[
        Line::Text("A walk yields what is below a root."),
        Line::Part(3),
    ],
    &[
        Line::Text("A board has what is to be read."),
        Line::Part(3),
        Line::Part(2),
    ],
    &[Line::Text("A parent comes before its children.")],
];

/// How deep parts may be named in one another.
const LEVELS: usize = 3;

/// How many threads read the lines.
const WORKERS: usize = 4;

fn main(rt: HostRuntime) -> anyhow::Result<()> {
    let document = Document { parts: PARTS };
    let crew = Arc::new(rt.alloc(), Crew::new(rt.clone()?, 1, WORKERS))?;
    for told in put_together(rt.alloc(), &crew, document, 0, LEVELS)? {
        println!(rt; "{told}")?;
    }
    Ok(())
}
