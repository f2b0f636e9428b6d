//! Calls with the number of questions to the disk.
use crate::programs::rows::{Asks, FILE, Out, ROW, Row, SCENE, Scene, Screen};

/// What the disk is asked.
pub(super) const QUESTIONS: &[Scene<'_>] = &[Scene {
    tree: "d /t\n\
               d /t/.git\n\
               f 1 /t/.gitignore\n\
               f 1 /t/a.o\n\
               f 1 /t/b.c\n\
               d /t/d\n\
               f 1 /t/d/x.c\n\
               d /t/d/e\n\
               f 1 /t/d/e/y.c\n\
               l b.c\t/t/l\n\
               l no\t/t/k\n",
    rules: &[("/t/.gitignore", "*.o\n")],
    rows: &[
        // All directories and all rules, and no rules where none are asked for.
        Row {
            call: ". /t",
            out: Out::Lines(7),
            asks: Asks::These([3, 1, 0, 13]),
            ..ROW
        },
        Row {
            call: "--no-ignore-parent . /t",
            out: Out::Lines(7),
            asks: Asks::These([3, 1, 0, 11]),
            ..ROW
        },
        Row {
            call: "--no-ignore-vcs . /t",
            out: Out::Lines(8),
            asks: Asks::These([3, 1, 0, 4]),
            ..ROW
        },
        Row {
            call: "-I . /t",
            out: Out::Lines(8),
            asks: Asks::These([3, 1, 0, 0]),
            ..ROW
        },
        // No directory below the greatest depth, behind the last result, or that is left out.
        Row {
            call: "-I -d1 . /t",
            out: Out::Lines(5),
            asks: Asks::These([1, 1, 0, 0]),
            ..ROW
        },
        Row {
            call: "-I -1 . /t",
            out: Out::Lines(1),
            asks: Asks::These([1, 1, 0, 0]),
            ..ROW
        },
        Row {
            call: "-I -q . /t",
            asks: Asks::These([1, 1, 0, 0]),
            ..ROW
        },
        Row {
            call: "-I -E d . /t",
            out: Out::Lines(4),
            asks: Asks::These([1, 1, 0, 0]),
            ..ROW
        },
        // Metadata is that of the lists.
        Row {
            call: "-I -l . /t",
            out: Out::Lines(8),
            asks: Asks::These([3, 1, 0, 0]),
            ..ROW
        },
        Row {
            call: "-I -S +0b x /t",
            out: Out::Lines(1),
            asks: Asks::These([3, 1, 0, 0]),
            ..ROW
        },
        // Directories that may be empty are listed once more.
        Row {
            call: "-I -te ^e$ /t",
            asks: Asks::These([4, 1, 0, 0]),
            ..ROW
        },
        // Links that are followed, and those whose colors tell where they lead.
        Row {
            call: "-I -L . /t",
            out: Out::Lines(8),
            asks: Asks::These([3, 2, 2, 0]),
            ..ROW
        },
        Row {
            call: "-I --color=always . /t",
            out: Out::Lines(8),
            asks: Asks::These([3, 1, 2, 0]),
            ..ROW
        },
        Row {
            call: "-I --color=always . /t",
            screen: Screen {
                colors: "or=31:ln=31",
                ..FILE
            },
            out: Out::Lines(8),
            asks: Asks::These([3, 1, 0, 0]),
            ..ROW
        },
        Row {
            call: "-I --color=always . /t",
            screen: Screen {
                colors: "or=0:ln=35",
                ..FILE
            },
            out: Out::Lines(8),
            asks: Asks::These([3, 1, 0, 0]),
            ..ROW
        },
        Row {
            call: "-I -L --color=always k /t",
            out: Out::Lines(1),
            asks: Asks::These([3, 2, 2, 0]),
            ..ROW
        },
        // The devices of directories, and the folder that paths are seen from.
        Row {
            call: "-I --one-file-system . /t",
            out: Out::Lines(8),
            asks: Asks::These([3, 1, 3, 0]),
            ..ROW
        },
        Row {
            call: "-I -a . t",
            out: Out::Lines(8),
            asks: Asks::These([3, 1, 0, 1]),
            ..ROW
        },
        Row {
            call: "--help",
            out: Out::Any,
            asks: Asks::These([0, 0, 0, 0]),
            ..ROW
        },
    ],
    ..SCENE
}];
