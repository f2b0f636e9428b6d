//! Calls whose outputs fail, and the clock by which they are written.
use crate::programs::rows::{ALL, Asks, FILE, Out, ROW, Row, SCENE, Scene, Screen};

/// Standard output is a terminal.
const TERMINAL: Screen = Screen {
    is_terminal: true,
    ..FILE
};

/// Outputs that fail, and the clock by which they are written.
pub(super) const OUTPUTS: &[Scene<'_>] = &[Scene {
    tree: "d /r\nf 1 /r/a\nf 1 /r/b\nf 1 /r/c\nf 1 /r/d\n",
    rows: &[
        // A clock that can't be read.
        Row {
            call: "--changed-within 2h . /r",
            clock: (None, None),
            err: "seek: the clock can't be read: unsupported\n",
            status: 1,
            ..ROW
        },
        Row {
            call: ". /r",
            clock: (None, None),
            out: Out::Text("/r/a\n/r/b\n/r/c\n/r/d\n"),
            ..ROW
        },
        // Gathered lines are written a tenth of a second after the oldest.
        Row {
            call: ". /r",
            takes: (1, ALL),
            clock: (None, Some(100)),
            out: Out::Text("/r/a\n/r/b\n"),
            status: 1,
            ..ROW
        },
        Row {
            call: ". /r",
            takes: (1, ALL),
            clock: (None, Some(50)),
            out: Out::Text("/r/a\n/r/b\n/r/c\n"),
            status: 1,
            ..ROW
        },
        Row {
            call: ". /r",
            takes: (1, ALL),
            clock: (None, Some(49)),
            out: Out::Text("/r/a\n/r/b\n/r/c\n/r/d\n"),
            status: 1,
            ..ROW
        },
        Row {
            call: ". /r",
            takes: (1, ALL),
            clock: (None, None),
            out: Out::Text("/r/a\n/r/b\n/r/c\n/r/d\n"),
            status: 1,
            ..ROW
        },
        Row {
            call: ". /r",
            takes: (1, ALL),
            clock: (None, Some(18_446_744_073_709_551_615)),
            out: Out::Text("/r/a\n/r/b\n"),
            status: 1,
            ..ROW
        },
        // An output that takes nothing ends the run quietly.
        Row {
            call: ". /r",
            takes: (0, ALL),
            status: 1,
            ..ROW
        },
        Row {
            call: "-q . /r",
            takes: (0, ALL),
            ..ROW
        },
        Row {
            call: "--version",
            takes: (0, ALL),
            status: 1,
            ..ROW
        },
        Row {
            call: "--help",
            takes: (0, ALL),
            status: 1,
            ..ROW
        },
        // Each line is written at once to a terminal, and no root is asked behind a failed write.
        Row {
            call: ". /r",
            screen: TERMINAL,
            takes: (3, ALL),
            out: Out::Text("/r/a\n/r/b\n/r/c\n"),
            status: 1,
            ..ROW
        },
        Row {
            call: ". /r /r",
            screen: TERMINAL,
            takes: (1, ALL),
            out: Out::Text("/r/a\n"),
            status: 1,
            asks: Asks::These([1, 1, 0, 4]),
            ..ROW
        },
        // A standard error that takes nothing.
        Row {
            call: ". /no /r",
            takes: (ALL, 0),
            out: Out::Text("/r/a\n/r/b\n/r/c\n/r/d\n"),
            status: 1,
            ..ROW
        },
        Row {
            call: "--hiden",
            takes: (ALL, 0),
            status: 2,
            ..ROW
        },
    ],
    ..SCENE
}];
