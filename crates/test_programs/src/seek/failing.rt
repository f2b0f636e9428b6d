//! Calls over a disk that fails.
use crate::programs::counts::Question;
use crate::programs::disk::{Failed, Failing};
use crate::programs::rows::{FILE, Out, ROW, Row, SCENE, Scene, Screen};
use std::io::ErrorKind;

pub(super) const DENIED: Failed = Failed::Io(ErrorKind::PermissionDenied);

pub(super) const GONE: Failed = Failed::Io(ErrorKind::NotFound);

/// Questions that fail.
pub(super) const FAILING: &[Scene<'_>] = &[PLAIN, REPOSITORY];

/// A repository.
const REPOSITORY: Scene<'_> = Scene {
    tree: "d /t\nd /t/.git\nf 1 /t/a\n",
    rows: &[
        // A user's files that fail.
        Row {
            call: "^a /t",
            failing: Failing::At(Question::Read, DENIED, "/home/u/.config/git/ignore"),
            out: Out::Text("/t/a\n"),
            err: "seek: /t/.git/info/exclude: /home/u/.config/git/ignore: permission denied\n",
            status: 1,
            ..ROW
        },
        Row {
            call: "^a /t",
            failing: Failing::At(Question::Read, DENIED, "/home/u/.gitconfig"),
            out: Out::Text("/t/a\n"),
            err: "seek: /t/.git/info/exclude: /home/u/.gitconfig: permission denied\n",
            status: 1,
            ..ROW
        },
    ],
    ..SCENE
};

/// A tree that is no repository.
const PLAIN: Scene<'_> = Scene {
    tree: "d /t\nf 1 /t/.ignore\nf 1 /t/a\nd /t/d\nf 1 /t/d/x\nf 1 /t/z\nl a\t/t/l\n",
    rules: &[("/t/.ignore", "z\n")],
    rows: &[
        // Lists that fail.
        Row {
            call: ". /t",
            failing: Failing::At(Question::List, GONE, "/t"),
            err: "seek: /t: entity not found\n",
            status: 1,
            ..ROW
        },
        Row {
            call: ". /t",
            failing: Failing::At(Question::List, GONE, "/t/d"),
            out: Out::Text("/t/a\n/t/d\n/t/l\n"),
            err: "seek: /t/d: entity not found\n",
            status: 1,
            ..ROW
        },
        Row {
            call: "-I -q x /t",
            failing: Failing::At(Question::List, DENIED, "/t/d"),
            err: "seek: /t/d: permission denied\n",
            status: 1,
            ..ROW
        },
        Row {
            call: ". /t /t/d",
            failing: Failing::At(Question::List, Failed::Memory, "/t/d"),
            out: Out::Text("/t/a\n"),
            err: "seek: memory refused for the walk\n\
                      seek: memory refused for the walk\n",
            status: 1,
            ..ROW
        },
        // Links that fail.
        Row {
            call: "-L . /t",
            failing: Failing::At(Question::Follow, GONE, "/t/l"),
            out: Out::Text("/t/a\n/t/d\n/t/d/x\n/t/l\n"),
            ..ROW
        },
        Row {
            call: "-L . /t",
            failing: Failing::At(Question::Follow, DENIED, "/t/l"),
            out: Out::Text("/t/a\n/t/d\n/t/d/x\n"),
            err: "seek: /t/l: permission denied\n",
            status: 1,
            ..ROW
        },
        Row {
            call: "--color=always ^l /t",
            screen: Screen {
                colors: "or=31",
                ..FILE
            },
            failing: Failing::At(Question::Follow, DENIED, "/t/l"),
            out: Out::Text("\x1b[01;34m/t/\x1b[0m\x1b[31ml\x1b[0m\n"),
            ..ROW
        },
        Row {
            call: "--color=always ^l /t",
            failing: Failing::At(Question::Follow, Failed::Memory, "/t/l"),
            err: "seek: memory refused\n",
            status: 1,
            ..ROW
        },
        // A time that fails.
        Row {
            call: "--newer-than-file=/t/a . /t",
            failing: Failing::At(Question::Look, DENIED, "/t/a"),
            err: "seek: /t/a: permission denied\n",
            status: 1,
            ..ROW
        },
        Row {
            call: "--newer-than-file=/t/a . /t",
            failing: Failing::At(Question::Look, Failed::Memory, "/t/a"),
            err: "seek: memory refused\n",
            status: 1,
            ..ROW
        },
        // Rules that fail.
        Row {
            call: ". /t",
            failing: Failing::At(Question::Read, GONE, "/t/.ignore"),
            out: Out::Text("/t/a\n/t/d\n/t/d/x\n/t/z\n/t/l\n"),
            err: "seek: /t/.ignore: entity not found\n",
            status: 1,
            ..ROW
        },
        Row {
            call: "^a /t",
            failing: Failing::At(Question::Place, DENIED, "/t"),
            out: Out::Text("/t/a\n"),
            err: "seek: /t: permission denied\n",
            status: 1,
            ..ROW
        },
        Row {
            call: "^a /t",
            failing: Failing::At(Question::Place, DENIED, "/.ignore"),
            out: Out::Text("/t/a\n"),
            err: "seek: /.ignore: permission denied\n",
            status: 1,
            ..ROW
        },
        // A user's files aren't read where no repository is.
        Row {
            call: "^a /t",
            failing: Failing::At(Question::Read, DENIED, "/home/u/.config/git/ignore"),
            out: Out::Text("/t/a\n"),
            ..ROW
        },
        Row {
            call: "^a /t",
            failing: Failing::At(Question::Read, DENIED, "/home/u/.gitconfig"),
            out: Out::Text("/t/a\n"),
            ..ROW
        },
        // A folder that isn't known is in front of no path.
        Row {
            call: "-I -a ^x t",
            failing: Failing::At(Question::Place, DENIED, ""),
            out: Out::Text("t/d/x\n"),
            ..ROW
        },
        // A base that fails.
        Row {
            call: "--base-directory=/t a",
            failing: Failing::At(Question::Follow, DENIED, "/t/"),
            err: "seek: /t: permission denied\n",
            status: 1,
            ..ROW
        },
        Row {
            call: "--base-directory=/t a",
            failing: Failing::At(Question::Follow, Failed::Memory, "/t/"),
            err: "seek: memory refused\n",
            status: 1,
            ..ROW
        },
    ],
    ..SCENE
};

/// Calls that ask questions of each sort.
pub(super) const ASKING: &[Scene<'_>] = &[Scene {
    tree: "d /t\n\
               d /t/.git\n\
               f 1 /t/.gitignore\n\
               f 1 /t/a.o\n\
               f 1 /t/b.c\n\
               d /t/d\n\
               f 1 /t/d/.ignore\n\
               f 1 /t/d/x.c\n\
               f 1 /t/d/z.c\n\
               d /t/d/e\n\
               l b.c\t/t/l\n\
               l d/e\t/t/m\n",
    rules: &[
        ("/t/.git", ""),
        ("/t/.gitignore", "*.o\n"),
        ("/t/.git/info/exclude", "k\n"),
        ("/t/d/.ignore", "z.c\n"),
    ],
    rows: &[
        // Questions that fail in turn.
        Row {
            call: ". /t",
            out: Out::Text("/t/b.c\n/t/d\n/t/d/x.c\n/t/d/e\n/t/l\n/t/m\n"),
            ..ROW
        },
        Row {
            call: "-L . /t",
            out: Out::Text("/t/b.c\n/t/d\n/t/d/x.c\n/t/d/e\n/t/l\n/t/m\n"),
            ..ROW
        },
        Row {
            call: "--one-file-system -S +0b . /t/d",
            out: Out::Text("/t/d/x.c\n"),
            ..ROW
        },
    ],
    ..SCENE
}];

/// Calls of which a failed question may change the outcome unsaid.
pub(super) const UNSAID: &[Scene<'_>] = &[Scene {
    tree: "d /t\nd /t/d\nf 1 /t/d/x.c\nf 0 /t/d/e\nl d\t/t/m\n",
    rules: &[("/named", "m\n")],
    rows: &[
        // Questions that fail for memory.
        Row {
            call: "--ignore-file=/named . /t",
            out: Out::Text("/t/d\n/t/d/x.c\n/t/d/e\n"),
            ..ROW
        },
        Row {
            call: "-te . /t",
            out: Out::Text("/t/d/e\n"),
            ..ROW
        },
        Row {
            call: "--color=always -tl . /t",
            out: Out::Text("\x1b[01;34m/t/\x1b[0m\x1b[01;36mm\x1b[0m\n"),
            ..ROW
        },
        Row {
            call: "--base-directory=/t -a x d",
            out: Out::Text("/t/d/x.c\n"),
            ..ROW
        },
        Row {
            call: "--newer-than-file=/t/d/x.c . /t",
            err: "seek: /t/d/x.c: unsupported\n",
            status: 1,
            ..ROW
        },
    ],
    ..SCENE
}];
