//! Calls over metadata that isn't known, or that a disk doesn't keep.
use crate::programs::counts::Question;
use crate::programs::disk::Failing;
use crate::programs::rows::{Asks, FILE, Out, ROW, Row, SCENE, Scene, Screen};
use crate::programs::told::{DETAILS, Told};
use crate::seek::failing::DENIED;
use jwalk::file_system::{Details, FileType};
use std::io::ErrorKind;

/// Details with a mode that doesn't say what the file is.
const UNTYPED: Details = Details {
    mode: 0o644,
    ..DETAILS
};

/// Metadata that isn't known, or that a disk doesn't keep.
pub(super) const SEEN: &[Scene<'_>] = &[
    Scene {
        tree: "d /t\nf 1 /t/a\nd /t/d\nl a\t/t/l\nf 1 /t/o\n",
        told: &[("/t/o", Told::Length(FileType::Other, 17))],
        rows: &[
            // Details that aren't known.
            Row {
                call: "-l . /t",
                out: Out::Text(
                    "-?????????   ?     ?     ?          1                   ? /t/a\n\
                                d?????????   ?     ?     ?          0                   ? /t/d\n\
                                l?????????   ?     ?     ?          1                   ? /t/l\n\
                                ??????????   ?     ?     ?         17                   ? /t/o\n",
                ),
                ..ROW
            },
            Row {
                call: "-o 0 . /t",
                ..ROW
            },
            Row {
                call: "-o !0 . /t",
                ..ROW
            },
            Row {
                call: "-o :0 . /t",
                ..ROW
            },
            Row {
                call: "-o :!0 . /t",
                ..ROW
            },
            Row {
                call: "-tx -tp . /t",
                ..ROW
            },
            Row {
                call: "--changed-before 2100-01-01 . /t",
                ..ROW
            },
            Row {
                call: "--newer 1900-01-01 . /t",
                ..ROW
            },
            Row {
                call: "--newer-than-file=/t/a . /t",
                err: "seek: /t/a: unsupported\n",
                status: 1,
                ..ROW
            },
        ],
        ..SCENE
    },
    Scene {
        tree: "d /t\nf 1 /t/a\nf 1 /t/b\nf 0 /t/o\n",
        told: &[
            ("/t/a", Told::Type(FileType::File)),
            ("/t/b", Told::Unknown(ErrorKind::PermissionDenied)),
            ("/t/o", Told::Type(FileType::Other)),
        ],
        rows: &[
            // Lists that tell types alone, or not even these.
            Row {
                call: "-l . /t",
                out: Out::Text(
                    "??????????   ?     ?     ?          ?                   ? /t/a\n\
                                ??????????   ?     ?     ?          ?                   ? /t/o\n",
                ),
                err: "seek: /t/b: permission denied\n",
                status: 1,
                ..ROW
            },
            Row {
                call: "-S +0b . /t",
                err: "seek: /t/b: permission denied\n",
                status: 1,
                ..ROW
            },
            Row {
                call: "-te . /t",
                err: "seek: /t/b: permission denied\n",
                status: 1,
                ..ROW
            },
        ],
        ..SCENE
    },
    Scene {
        tree: "d /t\nf 1 /t/.h\nf 1 /t/a\nf 1 /t/b\nl a\t/t/l\n",
        told: &[
            ("/t/.h", Told::Unknown(ErrorKind::PermissionDenied)),
            ("/t/b", Told::Unknown(ErrorKind::PermissionDenied)),
        ],
        rows: &[
            // Names that are left out, of which nothing is known.
            Row {
                call: "-E b . /t",
                out: Out::Text("/t/a\n/t/l\n"),
                ..ROW
            },
            Row {
                call: "-E b/ . /t",
                out: Out::Text("/t/a\n/t/l\n"),
                err: "seek: /t/b: permission denied\n",
                status: 1,
                ..ROW
            },
            Row {
                call: "-H -E b . /t",
                out: Out::Text("/t/a\n/t/l\n"),
                err: "seek: /t/.h: permission denied\n",
                status: 1,
                ..ROW
            },
            Row {
                call: "-I -E b . /t",
                out: Out::Text("/t/a\n/t/l\n"),
                ..ROW
            },
            Row {
                call: "-HI -E /.h -E b . /t",
                out: Out::Text("/t/a\n/t/l\n"),
                ..ROW
            },
            Row {
                call: "-L -E b -E l . /t",
                failing: Failing::At(Question::Follow, DENIED, "/t/l"),
                out: Out::Text("/t/a\n"),
                ..ROW
            },
        ],
        ..SCENE
    },
    Scene {
        tree: "d /t\nf 1 /t/a\nf 1 /t/b\nf 1 /t/c\nf 1 /t/d\nf 1 /t/e\nf 1 /t/f\n",
        told: &[
            ("/t/a", Told::Modified(-2_203_845_904)),
            ("/t/b", Told::Modified(-62_135_596_801)),
            ("/t/c", Told::Modified(-62_167_219_200)),
            ("/t/d", Told::Modified(253_402_300_799)),
            ("/t/e", Told::Modified(253_402_300_800)),
            ("/t/f", Told::Modified(9_223_372_036_854_775_807)),
        ],
        rows: &[
            // Times that a disk doesn't keep.
            Row {
                call: "-l . /t",
                out: Out::Text(
                    "-rw-r--r--   1     0     0          1 1900-03-01 12:34:56 /t/a\n\
                                -rw-r--r--   1     0     0          1 0000-12-31 23:59:59 /t/b\n\
                                -rw-r--r--   1     0     0          1 0000-01-01 00:00:00 /t/c\n\
                                -rw-r--r--   1     0     0          1 9999-12-31 23:59:59 /t/d\n\
                                -rw-r--r--   1     0     0          1 10000-01-01 00:00:00 /t/e\n\
                                -rw-r--r--   1     0     0          1 292277026596-12-04 15:30:07 /t/f\n",
                ),
                ..ROW
            },
            Row {
                call: "--changed-before 1900-03-02 . /t",
                out: Out::Text("/t/a\n/t/b\n/t/c\n"),
                ..ROW
            },
            Row {
                call: "--newer @253402300799 . /t",
                out: Out::Text("/t/e\n/t/f\n"),
                ..ROW
            },
            Row {
                call: "--newer-than-file /t/d . /t",
                out: Out::Text("/t/e\n/t/f\n"),
                ..ROW
            },
            // Times by a clock.
            Row {
                call: "--changed-within 1s . /t",
                clock: (Some(9_223_372_036_854_775_807), Some(0)),
                out: Out::Text("/t/f\n"),
                ..ROW
            },
            Row {
                call: "--changed-within 100years . /t",
                clock: (Some(18_446_744_073_709_551_615), Some(0)),
                ..ROW
            },
            Row {
                call: "--changed-before 100years . /t",
                clock: (Some(0), Some(0)),
                out: Out::Text("/t/b\n/t/c\n"),
                ..ROW
            },
        ],
        ..SCENE
    },
    Scene {
        tree: "d /t\nf 12345678901 /t/a\nf 0 /t/b\nf 1 /t/c\n",
        told: &[
            (
                "/t/a",
                Told::Details(Details {
                    mode: 0o100_644,
                    links: 1234,
                    uid: 165_536,
                    gid: 4_294_967_295,
                    ..DETAILS
                }),
            ),
            ("/t/b", Told::Details(UNTYPED)),
            ("/t/c", Told::Whole(FileType::Other, 0, UNTYPED)),
        ],
        rows: &[
            // Numbers and modes of no file on a disk.
            Row {
                call: "-l . /t",
                out: Out::Text(
                    "-rw-r--r-- 1234 165536 4294967295 12345678901 1970-01-01 00:00:00 /t/a\n\
                                ?rw-r--r--   1     0     0          0 1970-01-01 00:00:00 /t/b\n\
                                ?rw-r--r--   1     0     0          0 1970-01-01 00:00:00 /t/c\n",
                ),
                ..ROW
            },
            Row {
                call: "-o 0000:4294967295 . /t",
                ..ROW
            },
            Row {
                call: "-o :4294967295 . /t",
                out: Out::Text("/t/a\n"),
                ..ROW
            },
            Row {
                call: "-tp -ts -tb -tc . /t",
                ..ROW
            },
            Row {
                call: "--color=always . /t",
                out: Out::Text(
                    "\x1b[01;34m/t/\x1b[0ma\n\
                                \x1b[01;34m/t/\x1b[0mb\n\
                                \x1b[01;34m/t/\x1b[0mc\n",
                ),
                ..ROW
            },
            Row {
                call: "--color=always . /t",
                screen: Screen {
                    colors: "no=34:fi=35",
                    ..FILE
                },
                out: Out::Text(
                    "\x1b[01;34m/t/\x1b[0m\x1b[35ma\x1b[0m\n\
                                \x1b[01;34m/t/\x1b[0m\x1b[35mb\x1b[0m\n\
                                \x1b[01;34m/t/\x1b[0m\x1b[34mc\x1b[0m\n",
                ),
                ..ROW
            },
        ],
        ..SCENE
    },
    Scene {
        tree: "d /t\nl a\t/t/l\n",
        told: &[("/t/l", Told::Type(FileType::Other))],
        rows: &[
            // What is no link to the list is not asked where it leads.
            Row {
                call: "--color=always l /t",
                screen: Screen {
                    colors: "or=31:ln=32",
                    ..FILE
                },
                out: Out::Text("\x1b[01;34m/t/\x1b[0ml\n"),
                asks: Asks::These([1, 1, 0, 4]),
                ..ROW
            },
        ],
        ..SCENE
    },
];
