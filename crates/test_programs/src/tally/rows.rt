//! Disks with details that no folder of a test can have, disks and outputs that fail, and clocks.
use crate::programs::clock::Times;
use crate::programs::counts::Question;
use crate::programs::disk::{Failed, Failing};
use crate::programs::rows::{FILE, Out, Program, ROW, Row, SCENE, Scene, Screen};
use crate::programs::run::{Way, is_right};
use crate::programs::told::Told;
use crate::tally::disk::{TOLD, TREE};

/// One directory at a time.
const ALONE: Way = Way {
    program: Program::Tally,
    front: &["tally", "-j1"],
};

/// By three threads.
const THREADED: Way = Way {
    front: &["tally", "-j3"],
    ..ALONE
};

/// A file with two names counts at the first, and each device is one file system.
const IDENTITIES: Scene<'_> = Scene {
    tree: TREE,
    told: TOLD,
    rows: &[
        // The directories come in the order of the listing.
        Row {
            call: "--plain -b /r",
            out: Out::Text("16384\t/r/b\n4096\t/r/a\n8192\t/r/c\n32768\t/r\n"),
            ..ROW
        },
        Row {
            call: "--plain -x -b /r",
            out: Out::Text("16384\t/r/b\n4096\t/r/a\n24576\t/r\n"),
            ..ROW
        },
        // What isn't counted from the first root is from the second.
        Row {
            call: "--plain -x -s -b /r /r/c",
            out: Out::Text("24576\t/r\n8192\t/r/c\n"),
            ..ROW
        },
    ],
    ..SCENE
};

/// A file that is mounted in a directory of another device, and one whose device isn't known. A file of another device
/// counts unless one file system is asked for.
const MOUNTED: Scene<'_> = Scene {
    tree: "d /r\nf 1 /r/own\nf 1 /r/bound\nf 9 /r/unknown\n",
    told: &[
        ("/r", Told::Numbers(1, 1, 2, 8)),
        ("/r/own", Told::Numbers(1, 2, 1, 8)),
        ("/r/bound", Told::Numbers(2, 7, 1, 8)),
    ],
    rows: &[
        Row {
            call: "--plain -a -b /r",
            out: Out::Text("4096\t/r/own\n4096\t/r/bound\n9\t/r/unknown\n12297\t/r\n"),
            ..ROW
        },
        Row {
            call: "--plain -x -a -b /r",
            out: Out::Text("4096\t/r/own\n9\t/r/unknown\n8201\t/r\n"),
            ..ROW
        },
        Row {
            call: "--plain -x -s -b /r /r/bound",
            out: Out::Text("8201\t/r\n4096\t/r/bound\n"),
            ..ROW
        },
    ],
    ..SCENE
};

/// A directory after others, for whose listing memory runs out.
const STOPPED: Row<'_> = Row {
    failing: Failing::At(Question::List, Failed::Memory, "/r/s"),
    err: "tally: memory refused for the walk\n",
    status: 1,
    ..ROW
};

/// A walk without memory ends the call, and nothing is written.
const MEMORY: Scene<'_> = Scene {
    tree: "d /r\nd /r/a\nf 1 /r/a/x\nd /r/s\nf 2 /r/s/y\nf 3 /r/z\n",
    rows: &[
        Row {
            call: "--plain /r/a /r/s /r",
            ..STOPPED
        },
        Row {
            call: "-0 /r/a /r/s /r",
            ..STOPPED
        },
        Row {
            call: "--json /r/a /r/s /r",
            ..STOPPED
        },
        Row {
            call: "-b /r/a /r/s /r",
            ..STOPPED
        },
    ],
    ..SCENE
};

/// A tree of three directories. One file is hidden.
const GROUPS: Scene<'_> = Scene {
    tree: "d /t\nf 1 /t/c.txt\nf 2 /t/a.txt\nd /t/group_2\nf 3 /t/group_2/.hidden_file.txt\n\
           f 4 /t/group_2/e.txt\nd /t/group_1\nf 5 /t/group_1/d.txt\nf 6 /t/b.txt\n",
    ..SCENE
};

/// An output that takes five bytes.
const FULL: Row<'_> = Row {
    room: 5,
    status: 1,
    ..ROW
};

/// Standard output is a terminal.
const TERMINAL: Screen = Screen {
    is_terminal: true,
    ..FILE
};

/// An output that can't be written ends the call.
const OUTPUTS: Scene<'_> = Scene {
    rows: &[
        Row {
            call: "--plain -b --apparent /t",
            out: Out::Text("7\t/t/"),
            ..FULL
        },
        // Each line is written at once to a terminal.
        Row {
            call: "--plain -b --apparent /t",
            screen: TERMINAL,
            out: Out::Text("7\t/t/"),
            ..FULL
        },
        Row {
            call: "--apparent -s /t",
            out: Out::Text("    2"),
            ..FULL
        },
        Row {
            call: "--json -s /t",
            out: Out::Text("[{\"by"),
            ..FULL
        },
    ],
    ..GROUPS
};

/// A clock that goes on by more than half a second each time that it is read.
const HASTY: Times = (None, Some(600));

/// Standard error is a terminal, and the clock goes on.
const ERRORS: Row<'_> = Row {
    screen: Screen {
        shows_errors: true,
        ..FILE
    },
    clock: HASTY,
    out: Out::Any,
    ..ROW
};

/// So is standard output.
const BOTH: Row<'_> = Row {
    screen: Screen {
        shows_errors: true,
        ..TERMINAL
    },
    ..ERRORS
};

/// What is written where more than a second passes up to every second directory, and then up to every second entry.
const DIRECTORIES: &str = "\rentries read: 8\r\u{1b}[K";

const ENTRIES: &str =
    "\rentries read: 3\rentries read: 6\rentries read: 8\rentries read: 9\r\u{1b}[K";

/// A line tells how many entries were read, and is wiped, also before an error is reported.
const PROGRESS: Scene<'_> = Scene {
    rows: &[
        Row {
            call: "--apparent /t",
            err: DIRECTORIES,
            ..ERRORS
        },
        Row {
            call: "--apparent -a /t",
            err: ENTRIES,
            ..ERRORS
        },
        Row {
            call: "--apparent -a /t",
            err: ENTRIES,
            ..BOTH
        },
        Row {
            call: "--apparent -s /t",
            err: DIRECTORIES,
            ..BOTH
        },
        Row {
            call: "--apparent --json -a /t",
            err: ENTRIES,
            ..BOTH
        },
        Row {
            call: "--apparent --plain -a /t",
            err: ENTRIES,
            ..ERRORS
        },
        Row {
            call: "--apparent --plain -a /t",
            ..BOTH
        },
        Row {
            call: "--apparent -a /t",
            clock: HASTY,
            out: Out::Any,
            ..ROW
        },
        Row {
            call: "--apparent -a /t",
            clock: (None, Some(50)),
            ..ERRORS
        },
        Row {
            call: "--apparent /t/group_1 /n",
            clock: (None, Some(1500)),
            err: "\rentries read: 2\r\u{1b}[Ktally: /n: entity not found\n\rentries read: 2\r\u{1b}[K",
            status: 1,
            ..ERRORS
        },
    ],
    ..GROUPS
};

const WAYS: &[Way] = &[ALONE, THREADED];

const IN_TURN: &[Way] = &[ALONE];

/// Scenes, and the ways in which their rows are called.
const ALL_ROWS: &[(&[Way], Scene<'_>)] = &[
    (WAYS, IDENTITIES),
    (WAYS, MOUNTED),
    (WAYS, MEMORY),
    (WAYS, OUTPUTS),
    (IN_TURN, PROGRESS),
];

#[test]
fn calls_over_disks_outputs_and_clocks(rt: HostRuntime) {
    for (ways, scene) in ALL_ROWS {
        for row in scene.rows {
            for way in *ways {
                let is_right = is_right(&rt, *way, scene, row);
                assert!(rt; is_right == Ok(true), "tally {}", row.call);
            }
        }
    }
}
