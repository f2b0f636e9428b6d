//! Calls of the programs over trees in memory, as rows.
use crate::programs::clock::Times;
use crate::programs::counts::Asked;
use crate::programs::disk::Failing;
use crate::programs::input::Input;
use crate::programs::told::Told;

/// A disk, and the rows that call a program over it.
#[derive(Clone, Copy)]
pub(crate) struct Scene<'a> {
    /// The lines of the tree.
    pub(crate) tree: &'a str,
    /// The files of rules: the path and the text of each.
    pub(crate) rules: &'static [(&'static str, &'static str)],
    /// Paths, with what is said of them in place of what the tree says.
    pub(crate) told: &'static [(&'static str, Told)],
    pub(crate) rows: &'a [Row<'a>],
}

/// An empty tree without rules.
pub(crate) const SCENE: Scene<'static> = Scene {
    tree: "",
    rules: &[],
    told: &[],
    rows: &[],
};

/// A program.
#[derive(Clone, Copy)]
pub(crate) enum Program {
    Seek,
    Tally,
    Walk,
}

/// The outputs of a call.
#[derive(Clone, Copy)]
pub(crate) struct Screen {
    /// Whether standard output is a terminal.
    pub(crate) is_terminal: bool,
    /// Whether standard error is one.
    pub(crate) shows_errors: bool,
    /// The value of `LS_COLORS`.
    pub(crate) colors: &'static str,
}

/// No terminal, and no colors.
pub(crate) const FILE: Screen = Screen {
    is_terminal: false,
    shows_errors: false,
    colors: "",
};

/// The standard output of a call.
#[derive(Clone, Copy)]
pub(crate) enum Out<'a> {
    Text(&'a str),
    /// This number of lines.
    Lines(usize),
    Any,
}

/// How often a call asks the disk.
#[derive(Clone, Copy)]
pub(crate) enum Asks {
    Any,
    /// This often.
    These(Asked),
    /// In all at most this often.
    AtMost(usize),
}

/// A call, and its outcome.
#[derive(Clone, Copy)]
pub(crate) struct Row<'a> {
    /// The words, separated by spaces, without the program's name.
    pub(crate) call: &'a str,
    pub(crate) screen: Screen,
    pub(crate) failing: Failing,
    pub(crate) input: Input<'static>,
    /// How many writes the outputs take before they fail.
    pub(crate) takes: (usize, usize),
    /// How many bytes standard output takes before it fails.
    pub(crate) room: usize,
    pub(crate) clock: Times,
    pub(crate) out: Out<'a>,
    pub(crate) err: &'a str,
    pub(crate) status: u8,
    pub(crate) asks: Asks,
}

/// All writes, or all bytes.
pub(crate) const ALL: usize = usize::MAX;

/// A call that writes nothing, with an empty input, over a disk that never fails, in 1970.
pub(crate) const ROW: Row<'static> = Row {
    call: "",
    screen: FILE,
    failing: Failing::Never,
    input: Input {
        left: b"",
        error: None,
    },
    takes: (ALL, ALL),
    room: ALL,
    clock: (Some(0), Some(0)),
    out: Out::Text(""),
    err: "",
    status: 0,
    asks: Asks::Any,
};
