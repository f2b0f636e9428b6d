//! Disks, inputs and outputs that fail.
use crate::programs::counts::Question;
use crate::programs::disk::{Failed, Failing};
use crate::programs::input::Input;
use crate::programs::rows::{Asks, Out, ROW, Row, SCENE, Scene};
use crate::programs::run::is_right;
use crate::programs::told::Told;
use crate::walk::WALK;
use jwalk::file_system::FileType;
use std::io::ErrorKind;

const DENIED: Failed = Failed::Io(ErrorKind::PermissionDenied);

/// A directory that can't be listed.
const ODD_ROW: Row<'_> = Row {
    failing: Failing::At(Question::List, DENIED, "/odd/denied"),
    status: 1,
    ..ROW
};

/// Each sort of error has its line, or is counted. The directory has a hidden name without a type, items without a
/// name, and what can't be in a tree.
const ODD: Scene<'_> = Scene {
    tree: "d /odd\nf 0 /odd/.x\nf 0 /odd/socket\nl x\t/odd/link\nf 0 /odd/lost\nd /odd/denied\n\
           f 0 /odd/garbled\n",
    told: &[
        ("/odd/.x", Told::Unknown(ErrorKind::PermissionDenied)),
        ("/odd/socket", Told::Type(FileType::Other)),
        ("/odd/link", Told::Type(FileType::Symlink)),
        ("/odd/lost", Told::Lost(ErrorKind::TimedOut)),
        ("/odd/garbled", Told::Lost(ErrorKind::InvalidData)),
    ],
    rows: &[
        Row {
            call: "/odd",
            out: Out::Text(
                "0 d /odd\n! 1 /odd/.x PermissionDenied\n1 o /odd/socket\n1 L /odd/link\n! 1 - Other\n\
                 1 d /odd/denied ! PermissionDenied\n! 1 - InvalidData\n",
            ),
            ..ODD_ROW
        },
        Row {
            call: "--sort /odd",
            out: Out::Text(
                "0 d /odd\n1 d /odd/denied ! PermissionDenied\n1 L /odd/link\n1 o /odd/socket\n\
                 ! 1 /odd/.x PermissionDenied\n! 1 - Other\n! 1 - InvalidData\n",
            ),
            ..ODD_ROW
        },
        Row {
            call: "--sort --min 5 --max 5 /odd",
            out: Out::Text("! 1 /odd/.x PermissionDenied\n! 1 - Other\n! 1 - InvalidData\n"),
            ..ODD_ROW
        },
        Row {
            call: "--usage /odd",
            out: Out::Text("files 0 dirs 2 links 1 others 1 errors 4 bytes 0\n"),
            ..ODD_ROW
        },
    ],
    ..SCENE
};

/// A directory for whose listing memory runs out.
const WIDE: Scene<'_> = Scene {
    tree: "d /wide\n",
    rows: &[
        Row {
            call: "/wide",
            failing: Failing::At(Question::List, Failed::Memory, "/wide"),
            out: Out::Text("! 0 - memory\n"),
            status: 1,
            ..ROW
        },
        Row {
            call: "--usage /wide",
            failing: Failing::At(Question::List, Failed::Memory, "/wide"),
            err: "walk: memory refused\n",
            status: 1,
            ..ROW
        },
    ],
    ..SCENE
};

/// A directory with two files and a directory between them. One question fails, or one that isn't asked.
const SMALL: Scene<'_> = Scene {
    tree: "d /r\nf 3 /r/b\nd /r/s\nf 1 /r/s/x\nf 2 /r/a\n",
    rows: &[
        Row {
            call: "/r",
            failing: Failing::Turn(0, DENIED),
            out: Out::Text("! 0 /r PermissionDenied\n"),
            status: 1,
            ..ROW
        },
        Row {
            call: "/r",
            failing: Failing::Turn(1, DENIED),
            out: Out::Text("0 d /r ! PermissionDenied\n"),
            ..ROW
        },
        Row {
            call: "/r",
            failing: Failing::Turn(2, DENIED),
            out: Out::Text("0 d /r\n1 f /r/b\n1 d /r/s ! PermissionDenied\n1 f /r/a\n"),
            ..ROW
        },
        Row {
            call: "/r",
            failing: Failing::Turn(3, DENIED),
            out: Out::Text("0 d /r\n1 f /r/b\n1 d /r/s\n2 f /r/s/x\n1 f /r/a\n"),
            ..ROW
        },
    ],
    ..SCENE
};

/// A directory and a link to it. One question fails.
const LINKED: Scene<'_> = Scene {
    tree: "d /r\nd /r/a\nf 0 /r/a/zzz\nl a\t/r/a-link\n",
    rows: &[
        Row {
            call: "--follow /r",
            failing: Failing::Turn(2, DENIED),
            out: Out::Text("0 d /r\n1 d /r/a\n2 f /r/a/zzz\n! 1 /r/a-link PermissionDenied\n"),
            status: 1,
            ..ROW
        },
        Row {
            call: "--follow /r",
            failing: Failing::Turn(3, DENIED),
            out: Out::Text("0 d /r\n1 d /r/a\n2 f /r/a/zzz\n! 1 - PermissionDenied\n"),
            status: 1,
            ..ROW
        },
        Row {
            call: "--follow /r",
            failing: Failing::Turn(5, DENIED),
            out: Out::Text("0 d /r\n1 d /r/a\n2 f /r/a/zzz\n1 D /r/a-link ! PermissionDenied\n"),
            ..ROW
        },
    ],
    ..SCENE
};

/// A file counts by what its listing said. Each directory is listed, and the root is looked at.
const TOTALS: Row<'_> = Row {
    failing: Failing::At(Question::Look, Failed::Memory, "/t/group_1/d.txt"),
    asks: Asks::AtMost(4),
    out: Out::Text("files 5 dirs 3 links 0 others 0 errors 0 bytes 18\n"),
    ..ROW
};

/// Totals of a tree of three directories, one file of which is hidden.
const LISTED: Scene<'_> = Scene {
    tree: "d /t\nf 1 /t/c.txt\nf 2 /t/a.txt\nd /t/group_2\nf 3 /t/group_2/.hidden_file.txt\n\
           f 4 /t/group_2/e.txt\nd /t/group_1\nf 5 /t/group_1/d.txt\nf 6 /t/b.txt\n",
    rows: &[
        Row {
            call: "--usage /t",
            ..TOTALS
        },
        Row {
            call: "--batch 2 --usage /t",
            ..TOTALS
        },
        Row {
            call: "--crew 2 --usage /t",
            ..TOTALS
        },
    ],
    ..SCENE
};

/// An input that can't be read.
const BROKEN: Row<'_> = Row {
    input: Input {
        left: b"",
        error: Some(ErrorKind::Other),
    },
    ..ROW
};

/// Inputs that fail, and inputs that are not read.
const INPUTS: Scene<'_> = Scene {
    rows: &[
        Row {
            call: "--tree /r",
            err: "walk: bad tree, line 0\n",
            status: 2,
            ..BROKEN
        },
        Row {
            call: "--tree /r",
            input: Input {
                left: b"",
                error: Some(ErrorKind::OutOfMemory),
            },
            err: "walk: memory refused\n",
            status: 1,
            ..ROW
        },
        Row {
            call: "--tree --min /r",
            err: "walk: bad words\n",
            status: 2,
            ..BROKEN
        },
        Row {
            call: "/",
            out: Out::Text("0 d /\n"),
            ..BROKEN
        },
        Row {
            call: "--hidden --max 1 /",
            input: Input {
                left: b"d /.r\n",
                error: None,
            },
            out: Out::Text("0 d /\n"),
            ..ROW
        },
    ],
    ..SCENE
};

/// A tree in the input, and an output that takes five bytes.
const FULL: Row<'_> = Row {
    input: Input {
        left: b"d /r\nf 1 /r/a\n",
        error: None,
    },
    room: 5,
    status: 1,
    ..ROW
};

/// An output that can't be written ends the call.
const OUTPUTS: Scene<'_> = Scene {
    rows: &[
        Row {
            call: "--tree /r",
            out: Out::Text("0 d /"),
            ..FULL
        },
        Row {
            call: "--tree --crew 3 /r",
            out: Out::Text("0 d /"),
            ..FULL
        },
        Row {
            call: "--tree --usage /r",
            out: Out::Text("files"),
            ..FULL
        },
    ],
    ..SCENE
};

#[test]
fn calls_that_fail(rt: HostRuntime) {
    for scene in &[ODD, WIDE, SMALL, LINKED, LISTED, INPUTS, OUTPUTS] {
        for row in scene.rows {
            let is_right = is_right(&rt, WALK, scene, row);
            assert!(rt; is_right == Ok(true), "walk {}", row.call);
        }
    }
}
