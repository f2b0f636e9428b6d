//! The returns of each getter of each entry.
use jwalk::file_system::{BuildError, FileSystem};
use std::alloc::{AllocError, Global};
use test_fixtures::answers::{Answer, letter};
use test_fixtures::builders::{Entry, builder, in_a_for_loop};
use test_fixtures::trees::{SMALL, Step, tree};

/// The text is the depth, the name, the parent, the letter of the type, and `+` for a directory to be read.
fn push_getters(text: &mut String, entry: &Entry) -> Result<(), AllocError> {
    let depth = entry.depth();
    let name = entry.file_name();
    let parent = entry.parent_path();
    let letter = letter(entry);
    let mark = if entry.read_children.is_some() {
        "+"
    } else {
        ""
    };
    write!(text, "{depth} {name} in {parent} {letter}{mark}")
}

/// A `; ` separates the answers.
fn push_answer(text: &mut String, answer: &Answer) -> Result<(), AllocError> {
    if !text.is_empty() {
        text.push_str("; ")?;
    }
    match answer {
        Ok(entry) => push_getters(text, entry),
        Err(_) => text.push_str("an error"),
    }
}

struct Row {
    steps: &'static [Step],
    root: &'static str,
    getters: &'static str,
}

fn looped<S: FileSystem>(alloc: Global, fs: S, root: &str) -> Result<Vec<Answer>, AllocError> {
    in_a_for_loop(alloc, builder(alloc, fs, root)?)
}

fn holds(alloc: Global, row: &Row) -> Result<bool, BuildError> {
    let found = looped(alloc, tree(alloc, row.steps)?, row.root)?;
    let mut text = String::new(alloc);
    for answer in &found {
        push_answer(&mut text, answer)?;
    }
    Ok(text.as_str() == row.getters)
}

#[test]
fn each_getter_of_each_entry(rt: HostRuntime) {
    const ROWS: &[Row] = &[
        Row {
            steps: SMALL,
            root: "/r",
            getters: "0 r in / d+; 1 b in /r f; 1 s in /r d+; 2 x in /r/s f; 1 a in /r f",
        },
        // Roots without a file name. Such a root is its own name, below an empty path.
        Row {
            steps: &[Step::Dir("/r")],
            root: ".",
            getters: "0 . in  d+; 1 r in . d+",
        },
        Row {
            steps: &[Step::Dir("/r")],
            root: "..",
            getters: "0 .. in  d+; 1 r in .. d+",
        },
        Row {
            steps: &[Step::Dir("/r")],
            root: "../..",
            getters: "0 ../.. in  d+; 1 r in ../.. d+",
        },
        Row {
            steps: &[Step::Dir("/r")],
            root: "/",
            getters: "0 / in  d+; 1 r in / d+",
        },
        Row {
            steps: &[Step::Dir("/a"), Step::File(1, "/a/x")],
            root: "a/",
            getters: "0 a in  d+; 1 x in a/ f",
        },
    ];
    for row in ROWS {
        assert!(rt;
            matches!(holds(rt.alloc(), row), Ok(true)),
            "from {}",
            row.root
        );
    }
}
